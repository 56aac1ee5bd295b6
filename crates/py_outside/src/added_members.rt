//! The rows that are added by constructs: annotations, attributes and bases of classes. `tools/additions.py` writes this file from `tools/grammar.txt` and `tools/additions.txt`.

use crate::kind_numbers::{
    NUMBER, THE_ARROW, THE_CLOSE_PARENTHESIS, THE_COLON, THE_COMMA, THE_DOT, THE_EQUAL, THE_FALSE,
    THE_NONE, THE_OPEN_BRACE, THE_OPEN_BRACKET, THE_OPEN_PARENTHESIS, THE_TRUE,
};
use crate::symbol::Action::{Forget, Head, Own};
use crate::symbol::Name::{
    AnnotatedBracket, AnnotatedDefault, AnnotatedMember, AnnotatedValue, Arrow, BaseEnd, BriefText,
    ClassBracket, ClassKeywordBase, ClassKeywordNext, ClassTargets, MoreBases, Profile,
    TargetAttribute, TargetEnd, TargetSubscript, TargetTail,
};
use crate::symbol::Symbol::{Do, Expand, Read};
use crate::symbol::{AddedRow, Guard, Row};
use py_table::symbol::Action::{
    AddBase, BeginCall, Drop, MakeAttribute, MakeExprStmt, MakeFalse, MakeLeaf, MakeNone, MakeTrue,
};
use py_table::symbol::Nonterminal::{
    AnyName, Arguments, Braced, Bracketed, Brief, Expression, ParameterDefault, Parenthesised,
    SmallTail,
};

pub(crate) const ANNOTATION_ROWS: &[AddedRow] = &[
    AddedRow {
        name: Profile(ParameterDefault),
        sights: &[88],
        row: Row {
            guard: Guard::Always,
            symbols: &[
                Read(THE_COLON),
                Do(Head),
                Do(Own(Drop)),
                Expand(Profile(Expression)),
                Do(Forget),
                Expand(AnnotatedDefault),
            ],
        },
    },
    AddedRow {
        name: Arrow,
        sights: &[69],
        row: Row {
            guard: Guard::Always,
            symbols: &[
                Read(THE_ARROW),
                Do(Head),
                Do(Own(Drop)),
                Expand(Profile(Expression)),
                Do(Forget),
            ],
        },
    },
    AddedRow {
        name: Profile(SmallTail),
        sights: &[88],
        row: Row {
            guard: Guard::IsAnnotable,
            symbols: &[
                Read(THE_COLON),
                Do(Head),
                Do(Own(Drop)),
                Expand(Profile(Expression)),
                Do(Forget),
                Expand(AnnotatedValue),
                Do(Own(MakeExprStmt)),
            ],
        },
    },
    AddedRow {
        name: Profile(Brief),
        sights: &[0, 1],
        row: Row {
            guard: Guard::Always,
            symbols: &[
                Expand(Profile(AnyName)),
                Do(Own(MakeLeaf)),
                Expand(TargetEnd),
                Expand(AnnotatedMember),
            ],
        },
    },
    AddedRow {
        name: Profile(Brief),
        sights: &[2],
        row: Row {
            guard: Guard::Always,
            symbols: &[
                Read(NUMBER),
                Do(Own(MakeLeaf)),
                Expand(TargetTail),
                Expand(AnnotatedMember),
            ],
        },
    },
    AddedRow {
        name: Profile(Brief),
        sights: &[13],
        row: Row {
            guard: Guard::Always,
            symbols: &[
                Read(THE_TRUE),
                Do(Own(MakeTrue)),
                Expand(TargetTail),
                Expand(AnnotatedMember),
            ],
        },
    },
    AddedRow {
        name: Profile(Brief),
        sights: &[11],
        row: Row {
            guard: Guard::Always,
            symbols: &[
                Read(THE_FALSE),
                Do(Own(MakeFalse)),
                Expand(TargetTail),
                Expand(AnnotatedMember),
            ],
        },
    },
    AddedRow {
        name: Profile(Brief),
        sights: &[12],
        row: Row {
            guard: Guard::Always,
            symbols: &[
                Read(THE_NONE),
                Do(Own(MakeNone)),
                Expand(TargetTail),
                Expand(AnnotatedMember),
            ],
        },
    },
    AddedRow {
        name: Profile(Brief),
        sights: &[81],
        row: Row {
            guard: Guard::Always,
            symbols: &[
                Read(THE_OPEN_PARENTHESIS),
                Expand(Profile(Parenthesised)),
                Expand(AnnotatedBracket),
            ],
        },
    },
    AddedRow {
        name: Profile(Brief),
        sights: &[83],
        row: Row {
            guard: Guard::Always,
            symbols: &[
                Read(THE_OPEN_BRACKET),
                Expand(Profile(Bracketed)),
                Expand(TargetTail),
                Expand(AnnotatedMember),
            ],
        },
    },
    AddedRow {
        name: Profile(Brief),
        sights: &[85],
        row: Row {
            guard: Guard::Always,
            symbols: &[
                Read(THE_OPEN_BRACE),
                Expand(Profile(Braced)),
                Expand(TargetTail),
                Expand(AnnotatedMember),
            ],
        },
    },
    AddedRow {
        name: BriefText,
        sights: &[89],
        row: Row {
            guard: Guard::Always,
            symbols: &[
                Read(THE_DOT),
                Expand(Profile(AnyName)),
                Do(Own(MakeAttribute)),
                Expand(TargetAttribute),
                Expand(AnnotatedMember),
            ],
        },
    },
    AddedRow {
        name: BriefText,
        sights: &[81],
        row: Row {
            guard: Guard::Always,
            symbols: &[
                Read(THE_OPEN_PARENTHESIS),
                Do(Own(BeginCall)),
                Expand(Profile(Arguments)),
                Read(THE_CLOSE_PARENTHESIS),
                Do(Own(Drop)),
                Expand(TargetTail),
                Expand(AnnotatedMember),
            ],
        },
    },
    AddedRow {
        name: BriefText,
        sights: &[83],
        row: Row {
            guard: Guard::Always,
            symbols: &[
                Read(THE_OPEN_BRACKET),
                Expand(TargetSubscript),
                Expand(AnnotatedMember),
            ],
        },
    },
];

pub(crate) const CLASS_ATTRIBUTE_ROWS: &[AddedRow] = &[
    AddedRow {
        name: Profile(Brief),
        sights: &[0, 1],
        row: Row {
            guard: Guard::Always,
            symbols: &[
                Expand(Profile(AnyName)),
                Do(Own(MakeLeaf)),
                Expand(TargetEnd),
                Expand(ClassTargets),
            ],
        },
    },
    AddedRow {
        name: Profile(Brief),
        sights: &[2],
        row: Row {
            guard: Guard::Always,
            symbols: &[
                Read(NUMBER),
                Do(Own(MakeLeaf)),
                Expand(TargetTail),
                Expand(ClassTargets),
            ],
        },
    },
    AddedRow {
        name: Profile(Brief),
        sights: &[13],
        row: Row {
            guard: Guard::Always,
            symbols: &[
                Read(THE_TRUE),
                Do(Own(MakeTrue)),
                Expand(TargetTail),
                Expand(ClassTargets),
            ],
        },
    },
    AddedRow {
        name: Profile(Brief),
        sights: &[11],
        row: Row {
            guard: Guard::Always,
            symbols: &[
                Read(THE_FALSE),
                Do(Own(MakeFalse)),
                Expand(TargetTail),
                Expand(ClassTargets),
            ],
        },
    },
    AddedRow {
        name: Profile(Brief),
        sights: &[12],
        row: Row {
            guard: Guard::Always,
            symbols: &[
                Read(THE_NONE),
                Do(Own(MakeNone)),
                Expand(TargetTail),
                Expand(ClassTargets),
            ],
        },
    },
    AddedRow {
        name: Profile(Brief),
        sights: &[81],
        row: Row {
            guard: Guard::Always,
            symbols: &[
                Read(THE_OPEN_PARENTHESIS),
                Expand(Profile(Parenthesised)),
                Expand(ClassBracket),
            ],
        },
    },
    AddedRow {
        name: Profile(Brief),
        sights: &[83],
        row: Row {
            guard: Guard::Always,
            symbols: &[
                Read(THE_OPEN_BRACKET),
                Expand(Profile(Bracketed)),
                Expand(ClassBracket),
            ],
        },
    },
    AddedRow {
        name: Profile(Brief),
        sights: &[85],
        row: Row {
            guard: Guard::Always,
            symbols: &[
                Read(THE_OPEN_BRACE),
                Expand(Profile(Braced)),
                Expand(TargetTail),
                Expand(ClassTargets),
            ],
        },
    },
    AddedRow {
        name: BriefText,
        sights: &[89],
        row: Row {
            guard: Guard::Always,
            symbols: &[
                Read(THE_DOT),
                Expand(Profile(AnyName)),
                Do(Own(MakeAttribute)),
                Expand(TargetAttribute),
                Expand(ClassTargets),
            ],
        },
    },
    AddedRow {
        name: BriefText,
        sights: &[81],
        row: Row {
            guard: Guard::Always,
            symbols: &[
                Read(THE_OPEN_PARENTHESIS),
                Do(Own(BeginCall)),
                Expand(Profile(Arguments)),
                Read(THE_CLOSE_PARENTHESIS),
                Do(Own(Drop)),
                Expand(TargetTail),
                Expand(ClassTargets),
            ],
        },
    },
    AddedRow {
        name: BriefText,
        sights: &[83],
        row: Row {
            guard: Guard::Always,
            symbols: &[
                Read(THE_OPEN_BRACKET),
                Expand(TargetSubscript),
                Expand(ClassTargets),
            ],
        },
    },
];

pub(crate) const SEVERAL_BASES_ROWS: &[AddedRow] = &[AddedRow {
    name: BaseEnd,
    sights: &[87],
    row: Row {
        guard: Guard::Always,
        symbols: &[
            Read(THE_COMMA),
            Do(Head),
            Do(Own(Drop)),
            Expand(MoreBases),
            Read(THE_CLOSE_PARENTHESIS),
            Do(Own(AddBase)),
        ],
    },
}];

pub(crate) const CLASS_KEYWORD_ROWS: &[AddedRow] = &[
    AddedRow {
        name: BaseEnd,
        sights: &[91],
        row: Row {
            guard: Guard::IsBare,
            symbols: &[
                Read(THE_EQUAL),
                Do(Head),
                Do(Own(Drop)),
                Expand(Profile(Expression)),
                Do(Forget),
                Expand(ClassKeywordNext),
                Read(THE_CLOSE_PARENTHESIS),
                Do(Own(AddBase)),
            ],
        },
    },
    AddedRow {
        name: BaseEnd,
        sights: &[87],
        row: Row {
            guard: Guard::Always,
            symbols: &[
                Read(THE_COMMA),
                Do(Own(Drop)),
                Expand(ClassKeywordBase),
                Read(THE_CLOSE_PARENTHESIS),
                Do(Own(AddBase)),
            ],
        },
    },
];
