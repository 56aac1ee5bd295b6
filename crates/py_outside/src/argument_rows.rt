//! The rows of what literals, decorators, parameters and arguments that are added are made of. `tools/additions.py` writes this file from `tools/grammar.txt` and `tools/additions.txt`.

use crate::kind_numbers::{
    BYTES, FORMATTED, NEWLINE, TEXT, THE_AT, THE_COMMA, THE_DOUBLE_STAR, THE_EQUAL,
};
use crate::symbol::Action::{Forget, Head, Own};
use crate::symbol::Name::{
    Decorated, DecoratedMember, LambdaDefault, LambdaNext, LambdaParameters, MoreBytes, MoreTexts,
    PairsMore, PairsNext, PlainKeywordMore, PlainKeywordNext, PlainPairsMore, PlainPairsNext,
    Profile, StarEnd, StarMore, StarNext,
};
use crate::symbol::Symbol::{Do, Expand, Read};
use crate::symbol::{Guard, Row};
use py_table::symbol::Action::{AddKeyword, AddStmt, Drop, MakeLeaf};
use py_table::symbol::Nonterminal::{
    AnyName, Arguments, ClassDefinition, Definition, Expression, ParameterItem, PlainArguments,
};

pub(crate) const MORE_BYTES_ROWS: &[Row] = &[
    Row {
        guard: Guard::Always,
        symbols: &[],
    },
    Row {
        guard: Guard::Always,
        symbols: &[Read(BYTES), Do(Own(Drop)), Expand(MoreBytes)],
    },
];

pub(crate) const MORE_TEXTS_ROWS: &[Row] = &[
    Row {
        guard: Guard::Always,
        symbols: &[],
    },
    Row {
        guard: Guard::Always,
        symbols: &[Read(TEXT), Do(Own(Drop)), Expand(MoreTexts)],
    },
    Row {
        guard: Guard::Always,
        symbols: &[Read(FORMATTED), Do(Own(Drop)), Expand(MoreTexts)],
    },
];

pub(crate) const DECORATED_ROWS: &[Row] = &[
    Row {
        guard: Guard::Always,
        symbols: &[
            Read(THE_AT),
            Do(Head),
            Do(Own(Drop)),
            Expand(Profile(Expression)),
            Read(NEWLINE),
            Do(Own(Drop)),
            Do(Forget),
            Expand(Decorated),
        ],
    },
    Row {
        guard: Guard::Always,
        symbols: &[Expand(Profile(Definition)), Do(Own(AddStmt))],
    },
    Row {
        guard: Guard::Always,
        symbols: &[Expand(Profile(ClassDefinition)), Do(Own(AddStmt))],
    },
];

pub(crate) const DECORATED_MEMBER_ROWS: &[Row] = &[
    Row {
        guard: Guard::Always,
        symbols: &[
            Read(THE_AT),
            Do(Head),
            Do(Own(Drop)),
            Expand(Profile(Expression)),
            Read(NEWLINE),
            Do(Own(Drop)),
            Do(Forget),
            Expand(DecoratedMember),
        ],
    },
    Row {
        guard: Guard::Always,
        symbols: &[Expand(Profile(Definition)), Do(Own(AddStmt))],
    },
];

pub(crate) const LAMBDA_PARAMETERS_ROWS: &[Row] = &[
    Row {
        guard: Guard::Always,
        symbols: &[],
    },
    Row {
        guard: Guard::Always,
        symbols: &[
            Expand(Profile(AnyName)),
            Do(Own(Drop)),
            Expand(LambdaDefault),
            Expand(LambdaNext),
        ],
    },
];

pub(crate) const LAMBDA_DEFAULT_ROWS: &[Row] = &[
    Row {
        guard: Guard::Always,
        symbols: &[],
    },
    Row {
        guard: Guard::Always,
        symbols: &[
            Read(THE_EQUAL),
            Do(Own(Drop)),
            Expand(Profile(Expression)),
            Do(Forget),
        ],
    },
];

pub(crate) const LAMBDA_NEXT_ROWS: &[Row] = &[
    Row {
        guard: Guard::Always,
        symbols: &[],
    },
    Row {
        guard: Guard::Always,
        symbols: &[Read(THE_COMMA), Do(Own(Drop)), Expand(LambdaParameters)],
    },
];

pub(crate) const STAR_NAME_ROWS: &[Row] = &[
    Row {
        guard: Guard::Always,
        symbols: &[Expand(StarNext)],
    },
    Row {
        guard: Guard::Always,
        symbols: &[Expand(Profile(AnyName)), Do(Own(Drop)), Expand(StarNext)],
    },
];

pub(crate) const STAR_NEXT_ROWS: &[Row] = &[
    Row {
        guard: Guard::Always,
        symbols: &[],
    },
    Row {
        guard: Guard::Always,
        symbols: &[Read(THE_COMMA), Do(Own(Drop)), Expand(StarMore)],
    },
];

pub(crate) const STAR_MORE_ROWS: &[Row] = &[
    Row {
        guard: Guard::Always,
        symbols: &[],
    },
    Row {
        guard: Guard::Always,
        symbols: &[Expand(Profile(ParameterItem)), Expand(StarNext)],
    },
    Row {
        guard: Guard::Always,
        symbols: &[
            Read(THE_DOUBLE_STAR),
            Do(Head),
            Do(Own(Drop)),
            Expand(Profile(AnyName)),
            Do(Own(Drop)),
            Expand(StarEnd),
        ],
    },
];

pub(crate) const STAR_END_ROWS: &[Row] = &[
    Row {
        guard: Guard::Always,
        symbols: &[],
    },
    Row {
        guard: Guard::Always,
        symbols: &[Read(THE_COMMA), Do(Own(Drop))],
    },
];

pub(crate) const ARGUMENTS_NEXT_ROWS: &[Row] = &[
    Row {
        guard: Guard::Always,
        symbols: &[],
    },
    Row {
        guard: Guard::Always,
        symbols: &[Read(THE_COMMA), Do(Own(Drop)), Expand(Profile(Arguments))],
    },
];

pub(crate) const PAIRS_NEXT_ROWS: &[Row] = &[
    Row {
        guard: Guard::Always,
        symbols: &[],
    },
    Row {
        guard: Guard::Always,
        symbols: &[Read(THE_COMMA), Do(Own(Drop)), Expand(PairsMore)],
    },
];

pub(crate) const PAIRS_MORE_ROWS: &[Row] = &[
    Row {
        guard: Guard::Always,
        symbols: &[],
    },
    Row {
        guard: Guard::Always,
        symbols: &[
            Expand(Profile(AnyName)),
            Do(Own(MakeLeaf)),
            Read(THE_EQUAL),
            Expand(Profile(Expression)),
            Do(Own(AddKeyword)),
            Expand(PairsNext),
        ],
    },
    Row {
        guard: Guard::Always,
        symbols: &[
            Read(THE_DOUBLE_STAR),
            Do(Head),
            Do(Own(Drop)),
            Expand(Profile(Expression)),
            Do(Forget),
            Expand(PairsNext),
        ],
    },
];

pub(crate) const PLAIN_NEXT_ROWS: &[Row] = &[
    Row {
        guard: Guard::Always,
        symbols: &[],
    },
    Row {
        guard: Guard::Always,
        symbols: &[
            Read(THE_COMMA),
            Do(Own(Drop)),
            Expand(Profile(PlainArguments)),
        ],
    },
];

pub(crate) const PLAIN_PAIRS_NEXT_ROWS: &[Row] = &[
    Row {
        guard: Guard::Always,
        symbols: &[],
    },
    Row {
        guard: Guard::Always,
        symbols: &[Read(THE_COMMA), Do(Own(Drop)), Expand(PlainPairsMore)],
    },
];

pub(crate) const PLAIN_PAIRS_MORE_ROWS: &[Row] = &[
    Row {
        guard: Guard::Always,
        symbols: &[],
    },
    Row {
        guard: Guard::Always,
        symbols: &[
            Read(THE_DOUBLE_STAR),
            Do(Head),
            Do(Own(Drop)),
            Expand(Profile(Expression)),
            Do(Forget),
            Expand(PlainPairsNext),
        ],
    },
];

pub(crate) const PLAIN_KEYWORD_NEXT_ROWS: &[Row] = &[
    Row {
        guard: Guard::Always,
        symbols: &[],
    },
    Row {
        guard: Guard::Always,
        symbols: &[Read(THE_COMMA), Do(Own(Drop)), Expand(PlainKeywordMore)],
    },
];

pub(crate) const PLAIN_KEYWORD_MORE_ROWS: &[Row] = &[
    Row {
        guard: Guard::Always,
        symbols: &[],
    },
    Row {
        guard: Guard::Always,
        symbols: &[
            Expand(Profile(AnyName)),
            Do(Own(MakeLeaf)),
            Read(THE_EQUAL),
            Do(Head),
            Expand(Profile(Expression)),
            Do(Own(AddKeyword)),
            Expand(PlainKeywordNext),
        ],
    },
];
