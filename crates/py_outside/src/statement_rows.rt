//! The rows of what other constructs are made of. `tools/additions.py` writes this file from `tools/grammar.txt` and `tools/additions.txt`.

use crate::kind_numbers::{
    ASCII_NAME, NUMBER, TEXT, THE_AS, THE_CLOSE_BRACE, THE_CLOSE_BRACKET, THE_CLOSE_PARENTHESIS,
    THE_COLON, THE_COMMA, THE_DOT, THE_ELLIPSIS, THE_EQUAL, THE_FALSE, THE_FOR, THE_IF, THE_IN,
    THE_NONE, THE_OPEN_BRACE, THE_OPEN_BRACKET, THE_OPEN_PARENTHESIS, THE_STAR, THE_TRUE, THE_WITH,
};
use crate::symbol::Action::{Forget, Head, Own};
use crate::symbol::Name::{
    Assigned, DeletedName, DeletedNames, DeletedNamesNext, ExceptMore, ExceptNext, HeadedLoop,
    LoopConditions, LoopMore, NamedItemMore, Profile, RelativeModule, StarTargetMore, StarTargets,
    Target, TargetAttribute, TargetEnd, TargetSubscript, TargetTail, WithBinding, WithBracket,
    WithItem, WithNext, WithTarget,
};
use crate::symbol::Symbol::{Do, Expand, Read};
use crate::symbol::{Guard, Row};
use py_table::symbol::Action::{
    AddArgument, AddUpper, BeginCall, Drop, MakeAttribute, MakeDelete, MakeFalse, MakeFor,
    MakeLeaf, MakeNone, MakeNot, MakeSet, MakeSetOfOne, MakeTargets, MakeTrue, MakeTuple,
    MakeWhile,
};
use py_table::symbol::Nonterminal::{
    AnyName, Arguments, Binding, Braced, Bracketed, Definition, Expression, ExpressionList, OrTest,
    Parenthesised, PlainArguments, Suite,
};

pub(crate) const STEP_ROWS: &[Row] = &[
    Row {
        guard: Guard::Always,
        symbols: &[Read(THE_CLOSE_BRACKET), Do(Own(Drop))],
    },
    Row {
        guard: Guard::Always,
        symbols: &[
            Expand(Profile(Expression)),
            Do(Forget),
            Read(THE_CLOSE_BRACKET),
            Do(Own(Drop)),
        ],
    },
];

pub(crate) const UPPER_STEP_ROWS: &[Row] = &[
    Row {
        guard: Guard::Always,
        symbols: &[Read(THE_CLOSE_BRACKET), Do(Own(AddUpper))],
    },
    Row {
        guard: Guard::Always,
        symbols: &[
            Expand(Profile(Expression)),
            Do(Forget),
            Read(THE_CLOSE_BRACKET),
            Do(Own(AddUpper)),
        ],
    },
];

pub(crate) const WITH_ITEM_ROWS: &[Row] = &[Row {
    guard: Guard::Always,
    symbols: &[Expand(Profile(Expression)), Expand(WithTarget)],
}];

pub(crate) const WITH_TARGET_ROWS: &[Row] = &[
    Row {
        guard: Guard::Always,
        symbols: &[],
    },
    Row {
        guard: Guard::Always,
        symbols: &[Read(THE_AS), Do(Own(Drop)), Expand(WithBinding)],
    },
];

pub(crate) const WITH_BINDING_ROWS: &[Row] = &[
    Row {
        guard: Guard::Always,
        symbols: &[
            Expand(Profile(AnyName)),
            Do(Own(MakeLeaf)),
            Expand(TargetEnd),
            Do(Forget),
        ],
    },
    Row {
        guard: Guard::Always,
        symbols: &[
            Read(NUMBER),
            Do(Own(MakeLeaf)),
            Expand(TargetTail),
            Do(Forget),
        ],
    },
    Row {
        guard: Guard::Always,
        symbols: &[
            Read(TEXT),
            Do(Own(MakeLeaf)),
            Expand(TargetTail),
            Do(Forget),
        ],
    },
    Row {
        guard: Guard::Always,
        symbols: &[
            Read(THE_TRUE),
            Do(Own(MakeTrue)),
            Expand(TargetTail),
            Do(Forget),
        ],
    },
    Row {
        guard: Guard::Always,
        symbols: &[
            Read(THE_FALSE),
            Do(Own(MakeFalse)),
            Expand(TargetTail),
            Do(Forget),
        ],
    },
    Row {
        guard: Guard::Always,
        symbols: &[
            Read(THE_NONE),
            Do(Own(MakeNone)),
            Expand(TargetTail),
            Do(Forget),
        ],
    },
    Row {
        guard: Guard::Always,
        symbols: &[
            Read(THE_OPEN_PARENTHESIS),
            Expand(Profile(Parenthesised)),
            Expand(WithBracket),
            Do(Forget),
        ],
    },
    Row {
        guard: Guard::Always,
        symbols: &[
            Read(THE_OPEN_BRACKET),
            Expand(Profile(Bracketed)),
            Expand(WithBracket),
            Do(Forget),
        ],
    },
    Row {
        guard: Guard::Always,
        symbols: &[
            Read(THE_OPEN_BRACE),
            Expand(Profile(Braced)),
            Expand(TargetTail),
            Do(Forget),
        ],
    },
];

pub(crate) const WITH_BRACKET_ROWS: &[Row] = &[
    Row {
        guard: Guard::AreTargets,
        symbols: &[],
    },
    Row {
        guard: Guard::Always,
        symbols: &[
            Read(THE_DOT),
            Expand(Profile(AnyName)),
            Do(Own(MakeAttribute)),
            Expand(TargetAttribute),
        ],
    },
    Row {
        guard: Guard::Always,
        symbols: &[
            Read(THE_OPEN_PARENTHESIS),
            Do(Own(BeginCall)),
            Expand(Profile(Arguments)),
            Read(THE_CLOSE_PARENTHESIS),
            Do(Own(Drop)),
            Expand(TargetTail),
        ],
    },
    Row {
        guard: Guard::Always,
        symbols: &[Read(THE_OPEN_BRACKET), Expand(TargetSubscript)],
    },
];

pub(crate) const WITH_NEXT_ROWS: &[Row] = &[
    Row {
        guard: Guard::Always,
        symbols: &[],
    },
    Row {
        guard: Guard::Always,
        symbols: &[
            Read(THE_COMMA),
            Do(Own(Drop)),
            Expand(WithItem),
            Do(Forget),
            Expand(WithNext),
        ],
    },
];

pub(crate) const ASYNC_STATEMENT_ROWS: &[Row] = &[
    Row {
        guard: Guard::Always,
        symbols: &[Expand(Profile(Definition))],
    },
    Row {
        guard: Guard::Always,
        symbols: &[
            Read(THE_FOR),
            Expand(Profile(Binding)),
            Read(THE_IN),
            Expand(Profile(ExpressionList)),
            Read(THE_COLON),
            Expand(Profile(Suite)),
            Do(Own(MakeFor)),
        ],
    },
    Row {
        guard: Guard::Always,
        symbols: &[
            Read(THE_WITH),
            Expand(WithItem),
            Read(THE_COLON),
            Expand(Profile(Suite)),
            Do(Own(MakeWhile)),
        ],
    },
];

pub(crate) const YIELD_VALUE_ROWS: &[Row] = &[
    Row {
        guard: Guard::Always,
        symbols: &[Do(Own(MakeNone))],
    },
    Row {
        guard: Guard::Always,
        symbols: &[Expand(Profile(ExpressionList)), Do(Own(MakeNot))],
    },
];

pub(crate) const HEADED_LOOP_ROWS: &[Row] = &[Row {
    guard: Guard::Always,
    symbols: &[
        Do(Own(Drop)),
        Expand(Profile(Binding)),
        Do(Forget),
        Read(THE_IN),
        Do(Own(Drop)),
        Expand(Profile(OrTest)),
        Do(Forget),
        Expand(LoopConditions),
        Expand(LoopMore),
    ],
}];

pub(crate) const LOOP_CONDITIONS_ROWS: &[Row] = &[
    Row {
        guard: Guard::Always,
        symbols: &[],
    },
    Row {
        guard: Guard::Always,
        symbols: &[
            Read(THE_IF),
            Do(Own(Drop)),
            Expand(Profile(OrTest)),
            Do(Forget),
            Expand(LoopConditions),
        ],
    },
];

pub(crate) const LOOP_MORE_ROWS: &[Row] = &[
    Row {
        guard: Guard::Always,
        symbols: &[],
    },
    Row {
        guard: Guard::Always,
        symbols: &[Read(THE_FOR), Expand(HeadedLoop)],
    },
];

pub(crate) const WALRUS_ARGUMENT_ROWS: &[Row] = &[
    Row {
        guard: Guard::Always,
        symbols: &[Do(Own(AddArgument))],
    },
    Row {
        guard: Guard::Always,
        symbols: &[
            Read(THE_COMMA),
            Do(Own(Drop)),
            Do(Own(AddArgument)),
            Expand(Profile(Arguments)),
        ],
    },
];

pub(crate) const PLAIN_WALRUS_ARGUMENT_ROWS: &[Row] = &[
    Row {
        guard: Guard::Always,
        symbols: &[Do(Own(AddArgument))],
    },
    Row {
        guard: Guard::Always,
        symbols: &[
            Read(THE_COMMA),
            Do(Own(Drop)),
            Do(Own(AddArgument)),
            Expand(Profile(PlainArguments)),
        ],
    },
];

pub(crate) const WALRUS_SET_ROWS: &[Row] = &[
    Row {
        guard: Guard::Always,
        symbols: &[Read(THE_CLOSE_BRACE), Do(Own(MakeSetOfOne))],
    },
    Row {
        guard: Guard::Always,
        symbols: &[
            Read(THE_COMMA),
            Do(Own(MakeTuple)),
            Expand(NamedItemMore),
            Read(THE_CLOSE_BRACE),
            Do(Own(MakeSet)),
        ],
    },
];

pub(crate) const RELATIVE_MODULE_ROWS: &[Row] = &[
    Row {
        guard: Guard::Always,
        symbols: &[],
    },
    Row {
        guard: Guard::Always,
        symbols: &[Read(THE_DOT), Do(Own(Drop)), Expand(RelativeModule)],
    },
    Row {
        guard: Guard::Always,
        symbols: &[Read(THE_ELLIPSIS), Do(Own(Drop)), Expand(RelativeModule)],
    },
    Row {
        guard: Guard::Always,
        symbols: &[Read(ASCII_NAME), Do(Own(Drop))],
    },
];

pub(crate) const EXCEPT_NEXT_ROWS: &[Row] = &[
    Row {
        guard: Guard::Always,
        symbols: &[],
    },
    Row {
        guard: Guard::Always,
        symbols: &[Read(THE_COMMA), Do(Own(Drop)), Expand(ExceptMore)],
    },
];

pub(crate) const EXCEPT_MORE_ROWS: &[Row] = &[
    Row {
        guard: Guard::Always,
        symbols: &[],
    },
    Row {
        guard: Guard::Always,
        symbols: &[Expand(Profile(Expression)), Do(Forget), Expand(ExceptNext)],
    },
];

pub(crate) const DELETED_REST_ROWS: &[Row] = &[
    Row {
        guard: Guard::Always,
        symbols: &[Do(Own(MakeDelete))],
    },
    Row {
        guard: Guard::Always,
        symbols: &[
            Read(THE_COMMA),
            Do(Own(Drop)),
            Expand(DeletedNames),
            Do(Own(MakeDelete)),
        ],
    },
];

pub(crate) const DELETED_NAMES_ROWS: &[Row] = &[
    Row {
        guard: Guard::Always,
        symbols: &[],
    },
    Row {
        guard: Guard::Always,
        symbols: &[Expand(DeletedName), Expand(DeletedNamesNext)],
    },
];

pub(crate) const DELETED_NAMES_NEXT_ROWS: &[Row] = &[
    Row {
        guard: Guard::Always,
        symbols: &[],
    },
    Row {
        guard: Guard::Always,
        symbols: &[Read(THE_COMMA), Do(Own(Drop)), Expand(DeletedNames)],
    },
];

pub(crate) const DELETED_NAME_ROWS: &[Row] = &[
    Row {
        guard: Guard::Always,
        symbols: &[Expand(Profile(AnyName)), Do(Own(Drop))],
    },
    Row {
        guard: Guard::Always,
        symbols: &[
            Read(THE_OPEN_PARENTHESIS),
            Do(Own(Drop)),
            Expand(DeletedName),
            Expand(DeletedNamesNext),
            Read(THE_CLOSE_PARENTHESIS),
            Do(Own(Drop)),
        ],
    },
    Row {
        guard: Guard::Always,
        symbols: &[
            Read(THE_OPEN_BRACKET),
            Do(Own(Drop)),
            Expand(DeletedName),
            Expand(DeletedNamesNext),
            Read(THE_CLOSE_BRACKET),
            Do(Own(Drop)),
        ],
    },
];

pub(crate) const STAR_TARGETS_ROWS: &[Row] = &[
    Row {
        guard: Guard::Always,
        symbols: &[Read(THE_EQUAL), Do(Own(MakeTargets)), Expand(Assigned)],
    },
    Row {
        guard: Guard::Always,
        symbols: &[Read(THE_COMMA), Do(Own(Drop)), Expand(StarTargetMore)],
    },
];

pub(crate) const STAR_TARGET_MORE_ROWS: &[Row] = &[
    Row {
        guard: Guard::Always,
        symbols: &[Read(THE_EQUAL), Do(Own(MakeTargets)), Expand(Assigned)],
    },
    Row {
        guard: Guard::Always,
        symbols: &[Expand(Target), Do(Forget), Expand(StarTargets)],
    },
    Row {
        guard: Guard::Always,
        symbols: &[
            Read(THE_STAR),
            Do(Head),
            Do(Own(Drop)),
            Expand(Target),
            Do(Forget),
            Expand(StarTargets),
        ],
    },
];
