//! The rows of compound statements, definitions and imports. `tools/table.py` writes this file from `tools/grammar.txt`.

use crate::kind_numbers::{
    ASCII_NAME, DEDENT, INDENT, NEWLINE, TEXT, THE_AS, THE_CLASS, THE_CLOSE_PARENTHESIS, THE_COLON,
    THE_COMMA, THE_DEF, THE_DOT, THE_ELIF, THE_ELSE, THE_EQUAL, THE_EXCEPT, THE_FOR, THE_FROM,
    THE_IF, THE_IMPORT, THE_IN, THE_OPEN_PARENTHESIS, THE_PASS, THE_TRY, THE_WHILE,
};
use crate::symbol::Action::{
    AddBase, AddDefault, AddImported, AddImportedAs, AddParameter, AddStmt, BeginBody, BeginClass,
    BeginDef, BeginFrom, BeginImport, BeginTry, Catch, CatchAll, CatchAs, Drop, EndClass, EndDef,
    MakeClassName, MakeClassWithin, MakeElif, MakeElse, MakeExprStmt, MakeFor, MakeIf, MakeLeaf,
    MakePass, MakeWhile,
};
use crate::symbol::Nonterminal::{
    AnyName, BaseList, Binding, Brief, ClassBase, ClassDefinition, ClassSuite, Compound,
    Definition, Expression, ExpressionList, FromItem, FromNext, Handler, HandlerAlias, ImportAlias,
    ImportItem, ImportNext, ImportStatement, Line, Member, Members, Module, MoreHandlers,
    Otherwise, ParameterDefault, ParameterItem, ParameterList, ParameterNext, QualifiedName,
    QualifiedNameTail, Statement, Statements, Suite, TopStatement,
};
use crate::symbol::Symbol::{Do, Expand, Read};
use crate::symbol::{Guard, Row};

pub(crate) const MODULE_ROWS: &[Row] = &[
    Row {
        guard: Guard::Always,
        symbols: &[Expand(TopStatement), Expand(Module)],
    },
    Row {
        guard: Guard::Always,
        symbols: &[],
    },
];

pub(crate) const TOP_STATEMENT_ROWS: &[Row] = &[
    Row {
        guard: Guard::Always,
        symbols: &[Expand(Line)],
    },
    Row {
        guard: Guard::Always,
        symbols: &[Expand(Compound), Do(AddStmt)],
    },
    Row {
        guard: Guard::Always,
        symbols: &[Expand(Definition), Do(AddStmt)],
    },
    Row {
        guard: Guard::Always,
        symbols: &[Expand(ClassDefinition), Do(AddStmt)],
    },
    Row {
        guard: Guard::Always,
        symbols: &[Expand(ImportStatement), Do(AddStmt)],
    },
];

pub(crate) const STATEMENTS_ROWS: &[Row] = &[
    Row {
        guard: Guard::Always,
        symbols: &[Expand(Statement), Expand(Statements)],
    },
    Row {
        guard: Guard::Always,
        symbols: &[],
    },
];

pub(crate) const STATEMENT_ROWS: &[Row] = &[
    Row {
        guard: Guard::Always,
        symbols: &[Expand(Line)],
    },
    Row {
        guard: Guard::Always,
        symbols: &[Expand(Compound), Do(AddStmt)],
    },
];

pub(crate) const COMPOUND_ROWS: &[Row] = &[
    Row {
        guard: Guard::Always,
        symbols: &[
            Read(THE_IF),
            Expand(Expression),
            Read(THE_COLON),
            Expand(Suite),
            Expand(Otherwise),
            Do(MakeIf),
        ],
    },
    Row {
        guard: Guard::Always,
        symbols: &[
            Read(THE_WHILE),
            Expand(Expression),
            Read(THE_COLON),
            Expand(Suite),
            Do(MakeWhile),
        ],
    },
    Row {
        guard: Guard::Always,
        symbols: &[
            Read(THE_FOR),
            Expand(Binding),
            Read(THE_IN),
            Expand(ExpressionList),
            Read(THE_COLON),
            Expand(Suite),
            Do(MakeFor),
        ],
    },
    Row {
        guard: Guard::Always,
        symbols: &[
            Read(THE_TRY),
            Read(THE_COLON),
            Expand(Suite),
            Do(BeginTry),
            Read(THE_EXCEPT),
            Expand(Handler),
        ],
    },
];

pub(crate) const OTHERWISE_ROWS: &[Row] = &[
    Row {
        guard: Guard::Always,
        symbols: &[Do(BeginBody)],
    },
    Row {
        guard: Guard::Always,
        symbols: &[Read(THE_ELSE), Read(THE_COLON), Expand(Suite), Do(MakeElse)],
    },
    Row {
        guard: Guard::Always,
        symbols: &[
            Read(THE_ELIF),
            Expand(Expression),
            Read(THE_COLON),
            Expand(Suite),
            Expand(Otherwise),
            Do(MakeElif),
        ],
    },
];

pub(crate) const SUITE_ROWS: &[Row] = &[
    Row {
        guard: Guard::Always,
        symbols: &[Do(BeginBody), Expand(Line)],
    },
    Row {
        guard: Guard::Always,
        symbols: &[
            Read(NEWLINE),
            Do(Drop),
            Read(INDENT),
            Do(Drop),
            Do(BeginBody),
            Expand(Statement),
            Expand(Statements),
            Read(DEDENT),
            Do(Drop),
        ],
    },
];

pub(crate) const HANDLER_ROWS: &[Row] = &[
    Row {
        guard: Guard::Always,
        symbols: &[Read(THE_COLON), Expand(Suite), Do(CatchAll)],
    },
    Row {
        guard: Guard::Always,
        symbols: &[Expand(QualifiedName), Expand(HandlerAlias)],
    },
];

pub(crate) const HANDLER_ALIAS_ROWS: &[Row] = &[
    Row {
        guard: Guard::Always,
        symbols: &[
            Read(THE_COLON),
            Expand(Suite),
            Do(Catch),
            Expand(MoreHandlers),
        ],
    },
    Row {
        guard: Guard::Always,
        symbols: &[
            Read(THE_AS),
            Expand(AnyName),
            Read(THE_COLON),
            Expand(Suite),
            Do(CatchAs),
            Expand(MoreHandlers),
        ],
    },
];

pub(crate) const MORE_HANDLERS_ROWS: &[Row] = &[
    Row {
        guard: Guard::Always,
        symbols: &[],
    },
    Row {
        guard: Guard::Always,
        symbols: &[Read(THE_EXCEPT), Expand(Handler)],
    },
];

pub(crate) const QUALIFIED_NAME_ROWS: &[Row] = &[Row {
    guard: Guard::Always,
    symbols: &[
        Expand(AnyName),
        Do(MakeClassName),
        Expand(QualifiedNameTail),
    ],
}];

pub(crate) const QUALIFIED_NAME_TAIL_ROWS: &[Row] = &[
    Row {
        guard: Guard::Always,
        symbols: &[],
    },
    Row {
        guard: Guard::Always,
        symbols: &[Read(THE_DOT), Expand(AnyName), Do(MakeClassWithin)],
    },
];

pub(crate) const DEFINITION_ROWS: &[Row] = &[Row {
    guard: Guard::Always,
    symbols: &[
        Read(THE_DEF),
        Expand(AnyName),
        Read(THE_OPEN_PARENTHESIS),
        Do(BeginDef),
        Expand(ParameterList),
        Read(THE_CLOSE_PARENTHESIS),
        Read(THE_COLON),
        Expand(Suite),
        Do(EndDef),
    ],
}];

pub(crate) const PARAMETER_LIST_ROWS: &[Row] = &[
    Row {
        guard: Guard::Always,
        symbols: &[],
    },
    Row {
        guard: Guard::Always,
        symbols: &[Expand(ParameterItem), Expand(ParameterNext)],
    },
];

pub(crate) const PARAMETER_NEXT_ROWS: &[Row] = &[
    Row {
        guard: Guard::Always,
        symbols: &[],
    },
    Row {
        guard: Guard::Always,
        symbols: &[Read(THE_COMMA), Do(Drop), Expand(ParameterList)],
    },
];

pub(crate) const PARAMETER_ITEM_ROWS: &[Row] = &[Row {
    guard: Guard::Always,
    symbols: &[Expand(AnyName), Expand(ParameterDefault)],
}];

pub(crate) const PARAMETER_DEFAULT_ROWS: &[Row] = &[
    Row {
        guard: Guard::Always,
        symbols: &[Do(AddParameter)],
    },
    Row {
        guard: Guard::Always,
        symbols: &[Read(THE_EQUAL), Expand(Expression), Do(AddDefault)],
    },
];

pub(crate) const CLASS_DEFINITION_ROWS: &[Row] = &[Row {
    guard: Guard::Always,
    symbols: &[
        Read(THE_CLASS),
        Expand(AnyName),
        Do(BeginClass),
        Expand(ClassBase),
        Read(THE_COLON),
        Expand(ClassSuite),
        Do(EndClass),
    ],
}];

pub(crate) const CLASS_BASE_ROWS: &[Row] = &[
    Row {
        guard: Guard::Always,
        symbols: &[],
    },
    Row {
        guard: Guard::Always,
        symbols: &[Read(THE_OPEN_PARENTHESIS), Expand(BaseList)],
    },
];

pub(crate) const BASE_LIST_ROWS: &[Row] = &[
    Row {
        guard: Guard::Always,
        symbols: &[Read(THE_CLOSE_PARENTHESIS), Do(Drop), Do(Drop)],
    },
    Row {
        guard: Guard::Always,
        symbols: &[
            Expand(QualifiedName),
            Read(THE_CLOSE_PARENTHESIS),
            Do(AddBase),
        ],
    },
];

pub(crate) const CLASS_SUITE_ROWS: &[Row] = &[
    Row {
        guard: Guard::Always,
        symbols: &[Do(BeginBody), Expand(Brief)],
    },
    Row {
        guard: Guard::Always,
        symbols: &[
            Read(NEWLINE),
            Do(Drop),
            Read(INDENT),
            Do(Drop),
            Do(BeginBody),
            Expand(Member),
            Expand(Members),
            Read(DEDENT),
            Do(Drop),
        ],
    },
];

pub(crate) const MEMBER_ROWS: &[Row] = &[
    Row {
        guard: Guard::Always,
        symbols: &[Expand(Brief)],
    },
    Row {
        guard: Guard::Always,
        symbols: &[Expand(Definition), Do(AddStmt)],
    },
];

pub(crate) const MEMBERS_ROWS: &[Row] = &[
    Row {
        guard: Guard::Always,
        symbols: &[Expand(Member), Expand(Members)],
    },
    Row {
        guard: Guard::Always,
        symbols: &[],
    },
];

pub(crate) const BRIEF_ROWS: &[Row] = &[
    Row {
        guard: Guard::Always,
        symbols: &[
            Read(THE_PASS),
            Do(MakePass),
            Do(AddStmt),
            Read(NEWLINE),
            Do(Drop),
        ],
    },
    Row {
        guard: Guard::Always,
        symbols: &[
            Read(TEXT),
            Do(MakeLeaf),
            Do(MakeExprStmt),
            Do(AddStmt),
            Read(NEWLINE),
            Do(Drop),
        ],
    },
];

pub(crate) const IMPORT_STATEMENT_ROWS: &[Row] = &[
    Row {
        guard: Guard::Always,
        symbols: &[
            Read(THE_IMPORT),
            Do(BeginImport),
            Expand(ImportItem),
            Expand(ImportNext),
            Read(NEWLINE),
            Do(Drop),
        ],
    },
    Row {
        guard: Guard::Always,
        symbols: &[
            Read(THE_FROM),
            Read(ASCII_NAME),
            Read(THE_IMPORT),
            Do(BeginFrom),
            Expand(FromItem),
            Expand(FromNext),
            Read(NEWLINE),
            Do(Drop),
        ],
    },
];

pub(crate) const IMPORT_ITEM_ROWS: &[Row] = &[Row {
    guard: Guard::Always,
    symbols: &[Read(ASCII_NAME), Expand(ImportAlias)],
}];

pub(crate) const IMPORT_ALIAS_ROWS: &[Row] = &[
    Row {
        guard: Guard::Always,
        symbols: &[Do(AddImported)],
    },
    Row {
        guard: Guard::Always,
        symbols: &[Read(THE_AS), Expand(AnyName), Do(AddImportedAs)],
    },
];

pub(crate) const IMPORT_NEXT_ROWS: &[Row] = &[
    Row {
        guard: Guard::Always,
        symbols: &[],
    },
    Row {
        guard: Guard::Always,
        symbols: &[
            Read(THE_COMMA),
            Do(Drop),
            Expand(ImportItem),
            Expand(ImportNext),
        ],
    },
];

pub(crate) const FROM_ITEM_ROWS: &[Row] = &[Row {
    guard: Guard::Always,
    symbols: &[Expand(AnyName), Expand(ImportAlias)],
}];

pub(crate) const FROM_NEXT_ROWS: &[Row] = &[
    Row {
        guard: Guard::Always,
        symbols: &[],
    },
    Row {
        guard: Guard::Always,
        symbols: &[
            Read(THE_COMMA),
            Do(Drop),
            Expand(FromItem),
            Expand(FromNext),
        ],
    },
];
