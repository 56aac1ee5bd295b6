//! The rows of places where a construct may come. `tools/additions.py` writes this file from `tools/grammar.txt` and `tools/additions.txt`.

use crate::kind_numbers::{
    ASCII_NAME, NEWLINE, THE_CLOSE_BRACKET, THE_CLOSE_PARENTHESIS, THE_COLON, THE_COMMA,
    THE_EXCEPT, THE_OPEN_PARENTHESIS, THE_SEMICOLON,
};
use crate::symbol::Action::Own;
use crate::symbol::Name::{
    Arrow, BlockLineMore, BlockLineTail, BlockSmall, FromDots, Named, NamedExpression,
    NamedItemMore, NamedItemNext, Profile, RaisedTail,
};
use crate::symbol::Symbol::{Do, Expand, Read};
use crate::symbol::{Guard, Row};
use py_table::symbol::Action::{
    AddBase, AddItem, AddStmt, AddUpper, BeginClass, BeginDef, Drop, EndClass, EndDef, MakeDelete,
    MakeExprStmt, MakeRaise, MakeYield,
};
use py_table::symbol::Nonterminal::{
    AnyName, AssignTail, ClassBase, ClassSuite, DeletedTail, Expression, ExpressionList, FromItem,
    FromNext, Handler, ImportAlias, PairMore, ParameterList, Small, Suite,
};

pub(crate) const NAMED_EXPRESSION_ROWS: &[Row] = &[Row {
    guard: Guard::Always,
    symbols: &[Expand(Profile(Expression)), Expand(Named)],
}];

pub(crate) const NAMED_ROWS: &[Row] = &[Row {
    guard: Guard::Always,
    symbols: &[],
}];

pub(crate) const NAMED_CONDITION_ROWS: &[Row] = &[Row {
    guard: Guard::Always,
    symbols: &[],
}];

pub(crate) const NAMED_ITEM_MORE_ROWS: &[Row] = &[
    Row {
        guard: Guard::Always,
        symbols: &[],
    },
    Row {
        guard: Guard::Always,
        symbols: &[
            Expand(NamedExpression),
            Do(Own(AddItem)),
            Expand(NamedItemNext),
        ],
    },
];

pub(crate) const NAMED_ITEM_NEXT_ROWS: &[Row] = &[
    Row {
        guard: Guard::Always,
        symbols: &[],
    },
    Row {
        guard: Guard::Always,
        symbols: &[Read(THE_COMMA), Do(Own(Drop)), Expand(NamedItemMore)],
    },
];

pub(crate) const LOOP_ELSE_ROWS: &[Row] = &[Row {
    guard: Guard::Always,
    symbols: &[],
}];

pub(crate) const TRY_TAIL_ROWS: &[Row] = &[Row {
    guard: Guard::Always,
    symbols: &[Read(THE_EXCEPT), Expand(Profile(Handler))],
}];

pub(crate) const HANDLERS_END_ROWS: &[Row] = &[Row {
    guard: Guard::Always,
    symbols: &[],
}];

pub(crate) const BLOCK_LINE_ROWS: &[Row] = &[Row {
    guard: Guard::Always,
    symbols: &[Expand(BlockSmall), Do(Own(AddStmt)), Expand(BlockLineTail)],
}];

pub(crate) const BLOCK_LINE_TAIL_ROWS: &[Row] = &[
    Row {
        guard: Guard::Always,
        symbols: &[Read(NEWLINE), Do(Own(Drop))],
    },
    Row {
        guard: Guard::Always,
        symbols: &[Read(THE_SEMICOLON), Do(Own(Drop)), Expand(BlockLineMore)],
    },
];

pub(crate) const BLOCK_LINE_MORE_ROWS: &[Row] = &[
    Row {
        guard: Guard::Always,
        symbols: &[Read(NEWLINE), Do(Own(Drop))],
    },
    Row {
        guard: Guard::Always,
        symbols: &[Expand(BlockSmall), Do(Own(AddStmt)), Expand(BlockLineTail)],
    },
];

pub(crate) const BLOCK_SMALL_ROWS: &[Row] = &[Row {
    guard: Guard::Always,
    symbols: &[Expand(Profile(Small))],
}];

pub(crate) const DEFINITION_REST_ROWS: &[Row] = &[Row {
    guard: Guard::Always,
    symbols: &[
        Expand(Profile(AnyName)),
        Read(THE_OPEN_PARENTHESIS),
        Do(Own(BeginDef)),
        Expand(Profile(ParameterList)),
        Read(THE_CLOSE_PARENTHESIS),
        Expand(Arrow),
        Read(THE_COLON),
        Expand(Profile(Suite)),
        Do(Own(EndDef)),
    ],
}];

pub(crate) const ARROW_ROWS: &[Row] = &[Row {
    guard: Guard::Always,
    symbols: &[],
}];

pub(crate) const CLASS_REST_ROWS: &[Row] = &[Row {
    guard: Guard::Always,
    symbols: &[
        Expand(Profile(AnyName)),
        Do(Own(BeginClass)),
        Expand(Profile(ClassBase)),
        Read(THE_COLON),
        Expand(Profile(ClassSuite)),
        Do(Own(EndClass)),
    ],
}];

pub(crate) const BASE_END_ROWS: &[Row] = &[Row {
    guard: Guard::Always,
    symbols: &[Read(THE_CLOSE_PARENTHESIS), Do(Own(AddBase))],
}];

pub(crate) const BRIEF_TEXT_ROWS: &[Row] = &[Row {
    guard: Guard::Always,
    symbols: &[
        Do(Own(MakeExprStmt)),
        Do(Own(AddStmt)),
        Read(NEWLINE),
        Do(Own(Drop)),
    ],
}];

pub(crate) const FROM_MODULE_ROWS: &[Row] = &[Row {
    guard: Guard::Always,
    symbols: &[Read(ASCII_NAME), Expand(FromDots)],
}];

pub(crate) const FROM_DOTS_ROWS: &[Row] = &[Row {
    guard: Guard::Always,
    symbols: &[],
}];

pub(crate) const FROM_ITEMS_ROWS: &[Row] = &[Row {
    guard: Guard::Always,
    symbols: &[Expand(Profile(FromItem)), Expand(Profile(FromNext))],
}];

pub(crate) const IMPORT_TAIL_ROWS: &[Row] = &[Row {
    guard: Guard::Always,
    symbols: &[Expand(Profile(ImportAlias))],
}];

pub(crate) const RAISED_ROWS: &[Row] = &[Row {
    guard: Guard::Always,
    symbols: &[Expand(Profile(Expression)), Expand(RaisedTail)],
}];

pub(crate) const RAISED_TAIL_ROWS: &[Row] = &[Row {
    guard: Guard::Always,
    symbols: &[Do(Own(MakeRaise))],
}];

pub(crate) const YIELDED_ROWS: &[Row] = &[Row {
    guard: Guard::Always,
    symbols: &[Expand(Profile(ExpressionList)), Do(Own(MakeYield))],
}];

pub(crate) const DELETED_ROWS: &[Row] = &[Row {
    guard: Guard::Always,
    symbols: &[Expand(Profile(DeletedTail)), Do(Own(MakeDelete))],
}];

pub(crate) const DELETED_SLICE_ROWS: &[Row] = &[Row {
    guard: Guard::Always,
    symbols: &[Expand(Profile(DeletedTail))],
}];

pub(crate) const BINDING_END_ROWS: &[Row] = &[Row {
    guard: Guard::Always,
    symbols: &[],
}];

pub(crate) const ASSIGNED_ROWS: &[Row] = &[Row {
    guard: Guard::Always,
    symbols: &[Expand(Profile(ExpressionList)), Expand(Profile(AssignTail))],
}];

pub(crate) const RIGHT_SIDE_ROWS: &[Row] = &[Row {
    guard: Guard::Always,
    symbols: &[Expand(Profile(ExpressionList))],
}];

pub(crate) const UPPER_END_ROWS: &[Row] = &[Row {
    guard: Guard::Always,
    symbols: &[Read(THE_CLOSE_BRACKET), Do(Own(AddUpper))],
}];

pub(crate) const TEXT_TAIL_ROWS: &[Row] = &[Row {
    guard: Guard::Always,
    symbols: &[],
}];

pub(crate) const FIRST_PAIR_NEXT_ROWS: &[Row] = &[
    Row {
        guard: Guard::Always,
        symbols: &[],
    },
    Row {
        guard: Guard::Always,
        symbols: &[Read(THE_COMMA), Do(Own(Drop)), Expand(Profile(PairMore))],
    },
];
