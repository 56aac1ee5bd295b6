//! The rows of what annotations, targets and bases that are added are made of. `tools/additions.py` writes this file from `tools/grammar.txt` and `tools/additions.txt`.

use crate::kind_numbers::{
    NEWLINE, NUMBER, TEXT, THE_CLOSE_BRACKET, THE_CLOSE_PARENTHESIS, THE_COLON, THE_COMMA, THE_DOT,
    THE_EQUAL, THE_FALSE, THE_NONE, THE_OPEN_BRACE, THE_OPEN_BRACKET, THE_OPEN_PARENTHESIS,
    THE_TRUE,
};
use crate::symbol::Action::{Forget, Head, Own};
use crate::symbol::Name::{
    AnnotatedMember, AnnotatedValue, Assigned, BasesNext, ClassItemNext, ClassItems,
    ClassKeywordBase, ClassKeywordMore, ClassKeywordNext, ClassKeywordTail, ClassTargets,
    MoreBases, Profile, Target, TargetAttribute, TargetEnd, TargetSubscript, TargetSubscriptTail,
    TargetTail,
};
use crate::symbol::Symbol::{Do, Expand, Read};
use crate::symbol::{Guard, Row};
use py_table::symbol::Action::{
    AddDefault, AddItem, AddParameter, AddStmt, BeginCall, Drop, MakeAttribute, MakeExprStmt,
    MakeFalse, MakeLeaf, MakeNone, MakeSlice, MakeSliceFrom, MakeSubscript, MakeTargets, MakeTrue,
    MakeTuple,
};
use py_table::symbol::Nonterminal::{
    AnyName, Arguments, Braced, Bracketed, Expression, ExpressionList, Parenthesised,
    PlainArguments, QualifiedName, Upper,
};

pub(crate) const ANNOTATED_DEFAULT_ROWS: &[Row] = &[
    Row {
        guard: Guard::Always,
        symbols: &[Do(Own(AddParameter))],
    },
    Row {
        guard: Guard::Always,
        symbols: &[
            Read(THE_EQUAL),
            Expand(Profile(Expression)),
            Do(Own(AddDefault)),
        ],
    },
];

pub(crate) const ANNOTATED_VALUE_ROWS: &[Row] = &[
    Row {
        guard: Guard::Always,
        symbols: &[],
    },
    Row {
        guard: Guard::Always,
        symbols: &[
            Read(THE_EQUAL),
            Do(Own(Drop)),
            Expand(Profile(ExpressionList)),
            Do(Forget),
        ],
    },
];

pub(crate) const ANNOTATED_MEMBER_ROWS: &[Row] = &[Row {
    guard: Guard::Always,
    symbols: &[
        Read(THE_COLON),
        Do(Head),
        Do(Own(Drop)),
        Expand(Profile(Expression)),
        Do(Forget),
        Expand(AnnotatedValue),
        Do(Own(MakeExprStmt)),
        Do(Own(AddStmt)),
        Read(NEWLINE),
        Do(Own(Drop)),
    ],
}];

pub(crate) const ANNOTATED_BRACKET_ROWS: &[Row] = &[
    Row {
        guard: Guard::IsAnnotable,
        symbols: &[
            Read(THE_COLON),
            Do(Head),
            Do(Own(Drop)),
            Expand(Profile(Expression)),
            Do(Forget),
            Expand(AnnotatedValue),
            Do(Own(MakeExprStmt)),
            Do(Own(AddStmt)),
            Read(NEWLINE),
            Do(Own(Drop)),
        ],
    },
    Row {
        guard: Guard::Always,
        symbols: &[
            Read(THE_DOT),
            Expand(Profile(AnyName)),
            Do(Own(MakeAttribute)),
            Expand(TargetAttribute),
            Expand(AnnotatedMember),
        ],
    },
    Row {
        guard: Guard::Always,
        symbols: &[
            Read(THE_OPEN_PARENTHESIS),
            Do(Own(BeginCall)),
            Expand(Profile(Arguments)),
            Read(THE_CLOSE_PARENTHESIS),
            Do(Own(Drop)),
            Expand(TargetTail),
            Expand(AnnotatedMember),
        ],
    },
    Row {
        guard: Guard::Always,
        symbols: &[
            Read(THE_OPEN_BRACKET),
            Expand(TargetSubscript),
            Expand(AnnotatedMember),
        ],
    },
];

pub(crate) const CLASS_TARGETS_ROWS: &[Row] = &[
    Row {
        guard: Guard::Always,
        symbols: &[
            Read(THE_EQUAL),
            Do(Head),
            Do(Own(MakeTargets)),
            Expand(Assigned),
            Do(Own(AddStmt)),
            Read(NEWLINE),
            Do(Own(Drop)),
        ],
    },
    Row {
        guard: Guard::Always,
        symbols: &[Read(THE_COMMA), Do(Own(MakeTuple)), Expand(ClassItems)],
    },
];

pub(crate) const CLASS_ITEMS_ROWS: &[Row] = &[
    Row {
        guard: Guard::Always,
        symbols: &[
            Read(THE_EQUAL),
            Do(Head),
            Do(Own(MakeTargets)),
            Expand(Assigned),
            Do(Own(AddStmt)),
            Read(NEWLINE),
            Do(Own(Drop)),
        ],
    },
    Row {
        guard: Guard::Always,
        symbols: &[Expand(Target), Do(Own(AddItem)), Expand(ClassItemNext)],
    },
];

pub(crate) const CLASS_ITEM_NEXT_ROWS: &[Row] = &[
    Row {
        guard: Guard::Always,
        symbols: &[
            Read(THE_EQUAL),
            Do(Head),
            Do(Own(MakeTargets)),
            Expand(Assigned),
            Do(Own(AddStmt)),
            Read(NEWLINE),
            Do(Own(Drop)),
        ],
    },
    Row {
        guard: Guard::Always,
        symbols: &[Read(THE_COMMA), Do(Own(Drop)), Expand(ClassItems)],
    },
];

pub(crate) const CLASS_BRACKET_ROWS: &[Row] = &[
    Row {
        guard: Guard::AreTargets,
        symbols: &[
            Read(THE_EQUAL),
            Do(Head),
            Do(Own(MakeTargets)),
            Expand(Assigned),
            Do(Own(AddStmt)),
            Read(NEWLINE),
            Do(Own(Drop)),
        ],
    },
    Row {
        guard: Guard::Always,
        symbols: &[
            Read(THE_DOT),
            Expand(Profile(AnyName)),
            Do(Own(MakeAttribute)),
            Expand(TargetAttribute),
            Expand(ClassTargets),
        ],
    },
    Row {
        guard: Guard::Always,
        symbols: &[
            Read(THE_OPEN_PARENTHESIS),
            Do(Own(BeginCall)),
            Expand(Profile(Arguments)),
            Read(THE_CLOSE_PARENTHESIS),
            Do(Own(Drop)),
            Expand(TargetTail),
            Expand(ClassTargets),
        ],
    },
    Row {
        guard: Guard::Always,
        symbols: &[
            Read(THE_OPEN_BRACKET),
            Expand(TargetSubscript),
            Expand(ClassTargets),
        ],
    },
];

pub(crate) const TARGET_ROWS: &[Row] = &[
    Row {
        guard: Guard::Always,
        symbols: &[
            Expand(Profile(AnyName)),
            Do(Own(MakeLeaf)),
            Expand(TargetEnd),
        ],
    },
    Row {
        guard: Guard::Always,
        symbols: &[Read(NUMBER), Do(Own(MakeLeaf)), Expand(TargetTail)],
    },
    Row {
        guard: Guard::Always,
        symbols: &[Read(TEXT), Do(Own(MakeLeaf)), Expand(TargetTail)],
    },
    Row {
        guard: Guard::Always,
        symbols: &[Read(THE_TRUE), Do(Own(MakeTrue)), Expand(TargetTail)],
    },
    Row {
        guard: Guard::Always,
        symbols: &[Read(THE_FALSE), Do(Own(MakeFalse)), Expand(TargetTail)],
    },
    Row {
        guard: Guard::Always,
        symbols: &[Read(THE_NONE), Do(Own(MakeNone)), Expand(TargetTail)],
    },
    Row {
        guard: Guard::Always,
        symbols: &[
            Read(THE_OPEN_PARENTHESIS),
            Expand(Profile(Parenthesised)),
            Expand(TargetTail),
        ],
    },
    Row {
        guard: Guard::Always,
        symbols: &[
            Read(THE_OPEN_BRACKET),
            Expand(Profile(Bracketed)),
            Expand(TargetTail),
        ],
    },
    Row {
        guard: Guard::Always,
        symbols: &[
            Read(THE_OPEN_BRACE),
            Expand(Profile(Braced)),
            Expand(TargetTail),
        ],
    },
];

pub(crate) const TARGET_TAIL_ROWS: &[Row] = &[
    Row {
        guard: Guard::Always,
        symbols: &[
            Read(THE_DOT),
            Expand(Profile(AnyName)),
            Do(Own(MakeAttribute)),
            Expand(TargetAttribute),
        ],
    },
    Row {
        guard: Guard::Always,
        symbols: &[
            Read(THE_OPEN_PARENTHESIS),
            Do(Own(BeginCall)),
            Expand(Profile(Arguments)),
            Read(THE_CLOSE_PARENTHESIS),
            Do(Own(Drop)),
            Expand(TargetTail),
        ],
    },
    Row {
        guard: Guard::Always,
        symbols: &[Read(THE_OPEN_BRACKET), Expand(TargetSubscript)],
    },
];

pub(crate) const TARGET_ATTRIBUTE_ROWS: &[Row] = &[
    Row {
        guard: Guard::Always,
        symbols: &[],
    },
    Row {
        guard: Guard::Always,
        symbols: &[
            Read(THE_DOT),
            Expand(Profile(AnyName)),
            Do(Own(MakeAttribute)),
            Expand(TargetAttribute),
        ],
    },
    Row {
        guard: Guard::Always,
        symbols: &[
            Read(THE_OPEN_PARENTHESIS),
            Do(Own(BeginCall)),
            Expand(Profile(PlainArguments)),
            Read(THE_CLOSE_PARENTHESIS),
            Do(Own(Drop)),
            Expand(TargetTail),
        ],
    },
    Row {
        guard: Guard::Always,
        symbols: &[Read(THE_OPEN_BRACKET), Expand(TargetSubscript)],
    },
];

pub(crate) const TARGET_END_ROWS: &[Row] = &[
    Row {
        guard: Guard::Always,
        symbols: &[],
    },
    Row {
        guard: Guard::Always,
        symbols: &[
            Read(THE_DOT),
            Expand(Profile(AnyName)),
            Do(Own(MakeAttribute)),
            Expand(TargetAttribute),
        ],
    },
    Row {
        guard: Guard::Always,
        symbols: &[
            Read(THE_OPEN_PARENTHESIS),
            Do(Own(BeginCall)),
            Expand(Profile(Arguments)),
            Read(THE_CLOSE_PARENTHESIS),
            Do(Own(Drop)),
            Expand(TargetTail),
        ],
    },
    Row {
        guard: Guard::Always,
        symbols: &[Read(THE_OPEN_BRACKET), Expand(TargetSubscript)],
    },
];

pub(crate) const TARGET_SUBSCRIPT_ROWS: &[Row] = &[
    Row {
        guard: Guard::Always,
        symbols: &[Expand(Profile(Expression)), Expand(TargetSubscriptTail)],
    },
    Row {
        guard: Guard::Always,
        symbols: &[
            Read(THE_COLON),
            Do(Own(MakeSlice)),
            Expand(Profile(Upper)),
            Expand(TargetTail),
        ],
    },
];

pub(crate) const TARGET_SUBSCRIPT_TAIL_ROWS: &[Row] = &[
    Row {
        guard: Guard::Always,
        symbols: &[
            Read(THE_CLOSE_BRACKET),
            Do(Own(MakeSubscript)),
            Expand(TargetEnd),
        ],
    },
    Row {
        guard: Guard::Always,
        symbols: &[
            Read(THE_COLON),
            Do(Own(MakeSliceFrom)),
            Expand(Profile(Upper)),
            Expand(TargetTail),
        ],
    },
];

pub(crate) const MORE_BASES_ROWS: &[Row] = &[
    Row {
        guard: Guard::Always,
        symbols: &[],
    },
    Row {
        guard: Guard::Always,
        symbols: &[
            Expand(Profile(QualifiedName)),
            Do(Forget),
            Expand(BasesNext),
        ],
    },
];

pub(crate) const BASES_NEXT_ROWS: &[Row] = &[
    Row {
        guard: Guard::Always,
        symbols: &[],
    },
    Row {
        guard: Guard::Always,
        symbols: &[Read(THE_COMMA), Do(Own(Drop)), Expand(MoreBases)],
    },
];

pub(crate) const CLASS_KEYWORD_BASE_ROWS: &[Row] = &[Row {
    guard: Guard::Always,
    symbols: &[
        Expand(Profile(AnyName)),
        Do(Own(Drop)),
        Expand(ClassKeywordTail),
    ],
}];

pub(crate) const CLASS_KEYWORD_TAIL_ROWS: &[Row] = &[
    Row {
        guard: Guard::Always,
        symbols: &[
            Read(THE_EQUAL),
            Do(Head),
            Do(Own(Drop)),
            Expand(Profile(Expression)),
            Do(Forget),
            Expand(ClassKeywordNext),
        ],
    },
    Row {
        guard: Guard::Always,
        symbols: &[Read(THE_COMMA), Do(Own(Drop)), Expand(ClassKeywordBase)],
    },
    Row {
        guard: Guard::Always,
        symbols: &[
            Read(THE_DOT),
            Do(Own(Drop)),
            Expand(Profile(AnyName)),
            Do(Own(Drop)),
            Read(THE_COMMA),
            Do(Own(Drop)),
            Expand(ClassKeywordBase),
        ],
    },
];

pub(crate) const CLASS_KEYWORD_NEXT_ROWS: &[Row] = &[
    Row {
        guard: Guard::Always,
        symbols: &[],
    },
    Row {
        guard: Guard::Always,
        symbols: &[Read(THE_COMMA), Do(Own(Drop)), Expand(ClassKeywordMore)],
    },
];

pub(crate) const CLASS_KEYWORD_MORE_ROWS: &[Row] = &[
    Row {
        guard: Guard::Always,
        symbols: &[],
    },
    Row {
        guard: Guard::Always,
        symbols: &[
            Expand(Profile(AnyName)),
            Do(Own(Drop)),
            Read(THE_EQUAL),
            Do(Own(Drop)),
            Expand(Profile(Expression)),
            Do(Forget),
            Expand(ClassKeywordNext),
        ],
    },
];
