//! The rows that are added by constructs: literals, operators, definitions and arguments. `tools/additions.py` writes this file from `tools/grammar.txt` and `tools/additions.txt`.

use crate::kind_numbers::{
    BYTES, FLOAT, FORMATTED, IMAGINARY, NEWLINE, THE_AT, THE_AT_EQUAL, THE_CLASS, THE_COLON,
    THE_DEF, THE_DOUBLE_STAR, THE_EQUAL, THE_LAMBDA, THE_SLASH, THE_SLASH_EQUAL, THE_STAR,
};
use crate::symbol::Action::{Forget, Head, Own};
use crate::symbol::Name::{
    ArgumentsNext, ClassRest, Decorated, DecoratedMember, DefinitionRest, LambdaParameters,
    MoreBytes, MoreTexts, PairsNext, PlainKeywordNext, PlainNext, PlainPairsNext, Profile,
    RightSide, StarEnd, StarName, TextTail,
};
use crate::symbol::Symbol::{Do, Expand, Read};
use crate::symbol::{AddedRow, Guard, Row};
use py_ast::BinaryOperator;
use py_table::symbol::Action::{
    AddKeyword, AddStmt, Drop, MakeAugmented, MakeBinary, MakeNone, MakeNot,
};
use py_table::symbol::Nonterminal::{
    AnyName, Arguments, Atom, Expression, Factor, KeywordMore, KeywordNext, Member, ParameterList,
    PlainArgumentTail, PlainArguments, ProductTail, SmallTail, Statement, TopStatement,
};

pub(crate) const FLOAT_ROWS: &[AddedRow] = &[AddedRow {
    name: Profile(Atom),
    sights: &[4],
    row: Row {
        guard: Guard::Always,
        symbols: &[Read(FLOAT), Do(Head), Do(Own(MakeNone))],
    },
}];

pub(crate) const IMAGINARY_ROWS: &[AddedRow] = &[AddedRow {
    name: Profile(Atom),
    sights: &[5],
    row: Row {
        guard: Guard::Always,
        symbols: &[Read(IMAGINARY), Do(Head), Do(Own(MakeNone))],
    },
}];

pub(crate) const BYTES_ROWS: &[AddedRow] = &[AddedRow {
    name: Profile(Atom),
    sights: &[6],
    row: Row {
        guard: Guard::Always,
        symbols: &[Read(BYTES), Do(Head), Do(Own(MakeNone)), Expand(MoreBytes)],
    },
}];

pub(crate) const FORMATTED_TEXT_ROWS: &[AddedRow] = &[
    AddedRow {
        name: Profile(Atom),
        sights: &[7],
        row: Row {
            guard: Guard::Always,
            symbols: &[
                Read(FORMATTED),
                Do(Head),
                Do(Own(MakeNone)),
                Expand(MoreTexts),
            ],
        },
    },
    AddedRow {
        name: TextTail,
        sights: &[7],
        row: Row {
            guard: Guard::Always,
            symbols: &[Read(FORMATTED), Do(Head), Do(Own(Drop)), Expand(MoreTexts)],
        },
    },
];

pub(crate) const DIVISION_ROWS: &[AddedRow] = &[
    AddedRow {
        name: Profile(ProductTail),
        sights: &[92],
        row: Row {
            guard: Guard::Always,
            symbols: &[
                Read(THE_SLASH),
                Do(Head),
                Expand(Profile(Factor)),
                Do(Own(MakeBinary(BinaryOperator::Multiply))),
                Expand(Profile(ProductTail)),
            ],
        },
    },
    AddedRow {
        name: Profile(SmallTail),
        sights: &[67],
        row: Row {
            guard: Guard::IsTarget,
            symbols: &[
                Read(THE_SLASH_EQUAL),
                Do(Head),
                Expand(RightSide),
                Do(Own(MakeAugmented(BinaryOperator::Multiply))),
            ],
        },
    },
];

pub(crate) const MATRIX_PRODUCT_ROWS: &[AddedRow] = &[
    AddedRow {
        name: Profile(ProductTail),
        sights: &[93],
        row: Row {
            guard: Guard::Always,
            symbols: &[
                Read(THE_AT),
                Do(Head),
                Expand(Profile(Factor)),
                Do(Own(MakeBinary(BinaryOperator::Multiply))),
                Expand(Profile(ProductTail)),
            ],
        },
    },
    AddedRow {
        name: Profile(SmallTail),
        sights: &[68],
        row: Row {
            guard: Guard::IsTarget,
            symbols: &[
                Read(THE_AT_EQUAL),
                Do(Head),
                Expand(RightSide),
                Do(Own(MakeAugmented(BinaryOperator::Multiply))),
            ],
        },
    },
];

pub(crate) const DECORATOR_ROWS: &[AddedRow] = &[
    AddedRow {
        name: Profile(TopStatement),
        sights: &[93],
        row: Row {
            guard: Guard::Always,
            symbols: &[
                Read(THE_AT),
                Do(Head),
                Do(Own(Drop)),
                Expand(Profile(Expression)),
                Read(NEWLINE),
                Do(Own(Drop)),
                Do(Forget),
                Expand(Decorated),
            ],
        },
    },
    AddedRow {
        name: Profile(Statement),
        sights: &[93],
        row: Row {
            guard: Guard::Always,
            symbols: &[
                Read(THE_AT),
                Do(Head),
                Do(Own(Drop)),
                Expand(Profile(Expression)),
                Read(NEWLINE),
                Do(Own(Drop)),
                Do(Forget),
                Expand(Decorated),
            ],
        },
    },
    AddedRow {
        name: Profile(Member),
        sights: &[93],
        row: Row {
            guard: Guard::Always,
            symbols: &[
                Read(THE_AT),
                Do(Head),
                Do(Own(Drop)),
                Expand(Profile(Expression)),
                Read(NEWLINE),
                Do(Own(Drop)),
                Do(Forget),
                Expand(DecoratedMember),
            ],
        },
    },
];

pub(crate) const LAMBDA_ROWS: &[AddedRow] = &[AddedRow {
    name: Profile(Expression),
    sights: &[35],
    row: Row {
        guard: Guard::Always,
        symbols: &[
            Read(THE_LAMBDA),
            Do(Head),
            Expand(LambdaParameters),
            Read(THE_COLON),
            Do(Own(Drop)),
            Expand(Profile(Expression)),
            Do(Own(MakeNot)),
        ],
    },
}];

pub(crate) const NESTED_DEFINITION_ROWS: &[AddedRow] = &[AddedRow {
    name: Profile(Statement),
    sights: &[22],
    row: Row {
        guard: Guard::Always,
        symbols: &[
            Read(THE_DEF),
            Do(Head),
            Expand(DefinitionRest),
            Do(Own(AddStmt)),
        ],
    },
}];

pub(crate) const NESTED_CLASS_ROWS: &[AddedRow] = &[
    AddedRow {
        name: Profile(Statement),
        sights: &[20],
        row: Row {
            guard: Guard::Always,
            symbols: &[
                Read(THE_CLASS),
                Do(Head),
                Expand(ClassRest),
                Do(Own(AddStmt)),
            ],
        },
    },
    AddedRow {
        name: Profile(Member),
        sights: &[20],
        row: Row {
            guard: Guard::Always,
            symbols: &[
                Read(THE_CLASS),
                Do(Head),
                Expand(ClassRest),
                Do(Own(AddStmt)),
            ],
        },
    },
];

pub(crate) const STAR_PARAMETER_ROWS: &[AddedRow] = &[
    AddedRow {
        name: Profile(ParameterList),
        sights: &[73],
        row: Row {
            guard: Guard::Always,
            symbols: &[Read(THE_STAR), Do(Head), Do(Own(Drop)), Expand(StarName)],
        },
    },
    AddedRow {
        name: Profile(ParameterList),
        sights: &[53],
        row: Row {
            guard: Guard::Always,
            symbols: &[
                Read(THE_DOUBLE_STAR),
                Do(Head),
                Do(Own(Drop)),
                Expand(Profile(AnyName)),
                Do(Own(Drop)),
                Expand(StarEnd),
            ],
        },
    },
];

pub(crate) const STAR_ARGUMENT_ROWS: &[AddedRow] = &[
    AddedRow {
        name: Profile(Arguments),
        sights: &[73],
        row: Row {
            guard: Guard::Always,
            symbols: &[
                Read(THE_STAR),
                Do(Head),
                Do(Own(Drop)),
                Expand(Profile(Expression)),
                Do(Forget),
                Expand(ArgumentsNext),
            ],
        },
    },
    AddedRow {
        name: Profile(Arguments),
        sights: &[53],
        row: Row {
            guard: Guard::Always,
            symbols: &[
                Read(THE_DOUBLE_STAR),
                Do(Head),
                Do(Own(Drop)),
                Expand(Profile(Expression)),
                Do(Forget),
                Expand(PairsNext),
            ],
        },
    },
    AddedRow {
        name: Profile(KeywordMore),
        sights: &[73],
        row: Row {
            guard: Guard::Always,
            symbols: &[
                Read(THE_STAR),
                Do(Head),
                Do(Own(Drop)),
                Expand(Profile(Expression)),
                Do(Forget),
                Expand(Profile(KeywordNext)),
            ],
        },
    },
    AddedRow {
        name: Profile(KeywordMore),
        sights: &[53],
        row: Row {
            guard: Guard::Always,
            symbols: &[
                Read(THE_DOUBLE_STAR),
                Do(Head),
                Do(Own(Drop)),
                Expand(Profile(Expression)),
                Do(Forget),
                Expand(PairsNext),
            ],
        },
    },
    AddedRow {
        name: Profile(PlainArguments),
        sights: &[73],
        row: Row {
            guard: Guard::Always,
            symbols: &[
                Read(THE_STAR),
                Do(Head),
                Do(Own(Drop)),
                Expand(Profile(Expression)),
                Do(Forget),
                Expand(PlainNext),
            ],
        },
    },
    AddedRow {
        name: Profile(PlainArguments),
        sights: &[53],
        row: Row {
            guard: Guard::Always,
            symbols: &[
                Read(THE_DOUBLE_STAR),
                Do(Head),
                Do(Own(Drop)),
                Expand(Profile(Expression)),
                Do(Forget),
                Expand(PlainPairsNext),
            ],
        },
    },
];

pub(crate) const METHOD_KEYWORD_ROWS: &[AddedRow] = &[AddedRow {
    name: Profile(PlainArgumentTail),
    sights: &[91],
    row: Row {
        guard: Guard::IsName,
        symbols: &[
            Read(THE_EQUAL),
            Do(Head),
            Expand(Profile(Expression)),
            Do(Own(AddKeyword)),
            Expand(PlainKeywordNext),
        ],
    },
}];
