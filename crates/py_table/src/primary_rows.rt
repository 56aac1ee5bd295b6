//! The rows of primaries and displays. `tools/table.py` writes this file from `tools/grammar.txt`.

use crate::kind_numbers::{
    ASCII_NAME, NUMBER, OTHER_NAME, TEXT, THE_CLOSE_BRACE, THE_CLOSE_BRACKET,
    THE_CLOSE_PARENTHESIS, THE_COLON, THE_COMMA, THE_DOT, THE_EQUAL, THE_FALSE, THE_FOR, THE_IF,
    THE_IN, THE_NONE, THE_OPEN_BRACE, THE_OPEN_BRACKET, THE_OPEN_PARENTHESIS, THE_TRUE,
};
use crate::symbol::Action::{
    AddArgument, AddCondition, AddKeyword, AddLoop, AddPair, AddUpper, BeginCall,
    BeginComprehension, BeginDict, BeginLoop, Drop, MakeAttribute, MakeEmptyDict, MakeEmptyList,
    MakeEmptyTuple, MakeFalse, MakeLeaf, MakeList, MakeListOfOne, MakeNone, MakeParenthesis,
    MakeSet, MakeSetOfOne, MakeSlice, MakeSliceFrom, MakeSubscript, MakeTrue, MakeTuple,
};
use crate::symbol::Nonterminal::{
    AnyName, ArgumentTail, Arguments, Atom, AttributeTail, Binding, Braced, BracedTail, Bracketed,
    BracketedTail, Comprehension, Comprehensions, Conditions, Expression, ItemMore, KeywordMore,
    KeywordNext, OrTest, PairMore, PairNext, Parenthesised, ParenthesisedTail, PlainArgumentTail,
    PlainArguments, PrimaryTail, Subscription, SubscriptionTail, Upper,
};
use crate::symbol::Symbol::{Do, Expand, Read};
use crate::symbol::{Guard, Row};

pub(crate) const PRIMARY_ROWS: &[Row] = &[Row {
    guard: Guard::Always,
    symbols: &[Expand(Atom), Expand(PrimaryTail)],
}];

pub(crate) const PRIMARY_TAIL_ROWS: &[Row] = &[
    Row {
        guard: Guard::Always,
        symbols: &[],
    },
    Row {
        guard: Guard::Always,
        symbols: &[
            Read(THE_DOT),
            Expand(AnyName),
            Do(MakeAttribute),
            Expand(AttributeTail),
        ],
    },
    Row {
        guard: Guard::Always,
        symbols: &[
            Read(THE_OPEN_PARENTHESIS),
            Do(BeginCall),
            Expand(Arguments),
            Read(THE_CLOSE_PARENTHESIS),
            Do(Drop),
            Expand(PrimaryTail),
        ],
    },
    Row {
        guard: Guard::Always,
        symbols: &[
            Read(THE_OPEN_BRACKET),
            Expand(Subscription),
            Expand(PrimaryTail),
        ],
    },
];

pub(crate) const ATTRIBUTE_TAIL_ROWS: &[Row] = &[
    Row {
        guard: Guard::Always,
        symbols: &[],
    },
    Row {
        guard: Guard::Always,
        symbols: &[
            Read(THE_DOT),
            Expand(AnyName),
            Do(MakeAttribute),
            Expand(AttributeTail),
        ],
    },
    Row {
        guard: Guard::Always,
        symbols: &[
            Read(THE_OPEN_PARENTHESIS),
            Do(BeginCall),
            Expand(PlainArguments),
            Read(THE_CLOSE_PARENTHESIS),
            Do(Drop),
            Expand(PrimaryTail),
        ],
    },
    Row {
        guard: Guard::Always,
        symbols: &[
            Read(THE_OPEN_BRACKET),
            Expand(Subscription),
            Expand(PrimaryTail),
        ],
    },
];

pub(crate) const SUBSCRIPTION_ROWS: &[Row] = &[
    Row {
        guard: Guard::Always,
        symbols: &[Expand(Expression), Expand(SubscriptionTail)],
    },
    Row {
        guard: Guard::Always,
        symbols: &[Read(THE_COLON), Do(MakeSlice), Expand(Upper)],
    },
];

pub(crate) const SUBSCRIPTION_TAIL_ROWS: &[Row] = &[
    Row {
        guard: Guard::Always,
        symbols: &[Read(THE_CLOSE_BRACKET), Do(MakeSubscript)],
    },
    Row {
        guard: Guard::Always,
        symbols: &[Read(THE_COLON), Do(MakeSliceFrom), Expand(Upper)],
    },
];

pub(crate) const UPPER_ROWS: &[Row] = &[
    Row {
        guard: Guard::Always,
        symbols: &[Read(THE_CLOSE_BRACKET), Do(Drop)],
    },
    Row {
        guard: Guard::Always,
        symbols: &[Expand(Expression), Read(THE_CLOSE_BRACKET), Do(AddUpper)],
    },
];

pub(crate) const ARGUMENTS_ROWS: &[Row] = &[
    Row {
        guard: Guard::Always,
        symbols: &[],
    },
    Row {
        guard: Guard::Always,
        symbols: &[Expand(Expression), Expand(ArgumentTail)],
    },
];

pub(crate) const ARGUMENT_TAIL_ROWS: &[Row] = &[
    Row {
        guard: Guard::Always,
        symbols: &[Do(AddArgument)],
    },
    Row {
        guard: Guard::Always,
        symbols: &[
            Read(THE_COMMA),
            Do(Drop),
            Do(AddArgument),
            Expand(Arguments),
        ],
    },
    Row {
        guard: Guard::IsNameLast,
        symbols: &[
            Read(THE_EQUAL),
            Expand(Expression),
            Do(AddKeyword),
            Expand(KeywordNext),
        ],
    },
];

pub(crate) const KEYWORD_NEXT_ROWS: &[Row] = &[
    Row {
        guard: Guard::Always,
        symbols: &[],
    },
    Row {
        guard: Guard::Always,
        symbols: &[Read(THE_COMMA), Do(Drop), Expand(KeywordMore)],
    },
];

pub(crate) const KEYWORD_MORE_ROWS: &[Row] = &[
    Row {
        guard: Guard::Always,
        symbols: &[],
    },
    Row {
        guard: Guard::Always,
        symbols: &[
            Expand(AnyName),
            Do(MakeLeaf),
            Read(THE_EQUAL),
            Expand(Expression),
            Do(AddKeyword),
            Expand(KeywordNext),
        ],
    },
];

pub(crate) const PLAIN_ARGUMENTS_ROWS: &[Row] = &[
    Row {
        guard: Guard::Always,
        symbols: &[],
    },
    Row {
        guard: Guard::Always,
        symbols: &[Expand(Expression), Expand(PlainArgumentTail)],
    },
];

pub(crate) const PLAIN_ARGUMENT_TAIL_ROWS: &[Row] = &[
    Row {
        guard: Guard::Always,
        symbols: &[Do(AddArgument)],
    },
    Row {
        guard: Guard::Always,
        symbols: &[
            Read(THE_COMMA),
            Do(Drop),
            Do(AddArgument),
            Expand(PlainArguments),
        ],
    },
];

pub(crate) const ATOM_ROWS: &[Row] = &[
    Row {
        guard: Guard::Always,
        symbols: &[Expand(AnyName), Do(MakeLeaf)],
    },
    Row {
        guard: Guard::Always,
        symbols: &[Read(NUMBER), Do(MakeLeaf)],
    },
    Row {
        guard: Guard::Always,
        symbols: &[Read(TEXT), Do(MakeLeaf)],
    },
    Row {
        guard: Guard::Always,
        symbols: &[Read(THE_TRUE), Do(MakeTrue)],
    },
    Row {
        guard: Guard::Always,
        symbols: &[Read(THE_FALSE), Do(MakeFalse)],
    },
    Row {
        guard: Guard::Always,
        symbols: &[Read(THE_NONE), Do(MakeNone)],
    },
    Row {
        guard: Guard::Always,
        symbols: &[Read(THE_OPEN_PARENTHESIS), Expand(Parenthesised)],
    },
    Row {
        guard: Guard::Always,
        symbols: &[Read(THE_OPEN_BRACKET), Expand(Bracketed)],
    },
    Row {
        guard: Guard::Always,
        symbols: &[Read(THE_OPEN_BRACE), Expand(Braced)],
    },
];

pub(crate) const PARENTHESISED_ROWS: &[Row] = &[
    Row {
        guard: Guard::Always,
        symbols: &[Read(THE_CLOSE_PARENTHESIS), Do(MakeEmptyTuple)],
    },
    Row {
        guard: Guard::Always,
        symbols: &[Expand(Expression), Expand(ParenthesisedTail)],
    },
];

pub(crate) const PARENTHESISED_TAIL_ROWS: &[Row] = &[
    Row {
        guard: Guard::Always,
        symbols: &[Read(THE_CLOSE_PARENTHESIS), Do(MakeParenthesis)],
    },
    Row {
        guard: Guard::Always,
        symbols: &[
            Read(THE_COMMA),
            Do(MakeTuple),
            Expand(ItemMore),
            Read(THE_CLOSE_PARENTHESIS),
            Do(MakeParenthesis),
        ],
    },
];

pub(crate) const BRACKETED_ROWS: &[Row] = &[
    Row {
        guard: Guard::Always,
        symbols: &[Read(THE_CLOSE_BRACKET), Do(MakeEmptyList)],
    },
    Row {
        guard: Guard::Always,
        symbols: &[Expand(Expression), Expand(BracketedTail)],
    },
];

pub(crate) const BRACKETED_TAIL_ROWS: &[Row] = &[
    Row {
        guard: Guard::Always,
        symbols: &[Read(THE_CLOSE_BRACKET), Do(MakeListOfOne)],
    },
    Row {
        guard: Guard::Always,
        symbols: &[
            Read(THE_COMMA),
            Do(MakeTuple),
            Expand(ItemMore),
            Read(THE_CLOSE_BRACKET),
            Do(MakeList),
        ],
    },
    Row {
        guard: Guard::Always,
        symbols: &[
            Do(BeginComprehension),
            Expand(Comprehension),
            Expand(Comprehensions),
            Read(THE_CLOSE_BRACKET),
            Do(Drop),
        ],
    },
];

pub(crate) const BRACED_ROWS: &[Row] = &[
    Row {
        guard: Guard::Always,
        symbols: &[Read(THE_CLOSE_BRACE), Do(MakeEmptyDict)],
    },
    Row {
        guard: Guard::Always,
        symbols: &[Expand(Expression), Expand(BracedTail)],
    },
];

pub(crate) const BRACED_TAIL_ROWS: &[Row] = &[
    Row {
        guard: Guard::Always,
        symbols: &[Read(THE_CLOSE_BRACE), Do(MakeSetOfOne)],
    },
    Row {
        guard: Guard::Always,
        symbols: &[
            Read(THE_COMMA),
            Do(MakeTuple),
            Expand(ItemMore),
            Read(THE_CLOSE_BRACE),
            Do(MakeSet),
        ],
    },
    Row {
        guard: Guard::Always,
        symbols: &[
            Read(THE_COLON),
            Expand(Expression),
            Do(BeginDict),
            Expand(PairNext),
            Read(THE_CLOSE_BRACE),
            Do(Drop),
        ],
    },
];

pub(crate) const PAIR_NEXT_ROWS: &[Row] = &[
    Row {
        guard: Guard::Always,
        symbols: &[],
    },
    Row {
        guard: Guard::Always,
        symbols: &[Read(THE_COMMA), Do(Drop), Expand(PairMore)],
    },
];

pub(crate) const PAIR_MORE_ROWS: &[Row] = &[
    Row {
        guard: Guard::Always,
        symbols: &[],
    },
    Row {
        guard: Guard::Always,
        symbols: &[
            Expand(Expression),
            Read(THE_COLON),
            Expand(Expression),
            Do(AddPair),
            Expand(PairNext),
        ],
    },
];

pub(crate) const COMPREHENSION_ROWS: &[Row] = &[Row {
    guard: Guard::Always,
    symbols: &[
        Read(THE_FOR),
        Expand(Binding),
        Read(THE_IN),
        Expand(OrTest),
        Do(BeginLoop),
        Expand(Conditions),
        Do(AddLoop),
    ],
}];

pub(crate) const CONDITIONS_ROWS: &[Row] = &[
    Row {
        guard: Guard::Always,
        symbols: &[],
    },
    Row {
        guard: Guard::Always,
        symbols: &[
            Read(THE_IF),
            Expand(OrTest),
            Do(AddCondition),
            Expand(Conditions),
        ],
    },
];

pub(crate) const COMPREHENSIONS_ROWS: &[Row] = &[
    Row {
        guard: Guard::Always,
        symbols: &[],
    },
    Row {
        guard: Guard::Always,
        symbols: &[Expand(Comprehension), Expand(Comprehensions)],
    },
];

pub(crate) const ANY_NAME_ROWS: &[Row] = &[
    Row {
        guard: Guard::Always,
        symbols: &[Read(ASCII_NAME)],
    },
    Row {
        guard: Guard::Always,
        symbols: &[Read(OTHER_NAME)],
    },
];
