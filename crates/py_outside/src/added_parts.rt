//! The rows that are added by constructs: comprehensions, imports and targets. `tools/additions.py` writes this file from `tools/grammar.txt` and `tools/additions.txt`.

use crate::kind_numbers::{
    NEWLINE, OTHER_NAME, THE_CLOSE_BRACE, THE_CLOSE_BRACKET, THE_CLOSE_PARENTHESIS,
    THE_COLON_EQUAL, THE_COMMA, THE_DOT, THE_ELLIPSIS, THE_FOR, THE_FROM, THE_IMPORT,
    THE_OPEN_BRACKET, THE_OPEN_PARENTHESIS, THE_STAR,
};
use crate::symbol::Action::{Forget, Head, Hold, Own, Plain, TellLoop};
use crate::symbol::Name::{
    Assigned, BindingEnd, BlockSmall, Deleted, DeletedRest, ExceptNext, FirstPairNext, FromDots,
    FromItems, FromModule, HeadedLoop, ImportTail, Named, NamedCondition, NamedItemMore,
    NamedItemNext, PlainWalrusArgument, Profile, Raised, RaisedTail, RelativeModule, StarTargets,
    Target, WalrusArgument, WalrusSet,
};
use crate::symbol::Symbol::{Do, Expand, Read};
use crate::symbol::{AddedRow, Guard, Row};
use py_ast::BinaryOperator;
use py_table::symbol::Action::{
    AddArgument, AddItem, AddLoopName, AddStmt, BeginFrom, BeginImport, Drop, MakeBinary,
    MakeClassName, MakeLoopName, MakeLoopNames, MakeLoopParenthesis, MakeNone, MakeParenthesis,
    MakePass, MakeRaise, MakeSetOfOne, MakeSubscript,
};
use py_table::symbol::Nonterminal::{
    AnyName, ArgumentTail, AssignTail, Atom, Binding, BindingMore, BindingNext, BindingTail,
    BracedTail, Bracketed, BracketedTail, Brief, DeletedEnd, DeletedSubscriptTail, Expression,
    ExpressionListTail, Handler, HandlerAlias, ImportItem, ImportNext, ItemMore, ItemNext, OrTest,
    Parenthesised, ParenthesisedTail, PlainArgumentTail, Small, SubscriptionTail,
};

pub(crate) const GENERATOR_EXPRESSION_ROWS: &[AddedRow] = &[
    AddedRow {
        name: Profile(ParenthesisedTail),
        sights: &[28],
        row: Row {
            guard: Guard::Always,
            symbols: &[
                Read(THE_FOR),
                Do(Head),
                Expand(HeadedLoop),
                Do(Plain),
                Read(THE_CLOSE_PARENTHESIS),
                Do(Own(MakeParenthesis)),
            ],
        },
    },
    AddedRow {
        name: Profile(ArgumentTail),
        sights: &[28],
        row: Row {
            guard: Guard::IsFirstArgument,
            symbols: &[
                Read(THE_FOR),
                Do(Head),
                Expand(HeadedLoop),
                Do(Own(AddArgument)),
            ],
        },
    },
    AddedRow {
        name: Profile(PlainArgumentTail),
        sights: &[28],
        row: Row {
            guard: Guard::IsFirstArgument,
            symbols: &[
                Read(THE_FOR),
                Do(Head),
                Expand(HeadedLoop),
                Do(Own(AddArgument)),
            ],
        },
    },
];

pub(crate) const SET_COMPREHENSION_ROWS: &[AddedRow] = &[AddedRow {
    name: Profile(BracedTail),
    sights: &[28],
    row: Row {
        guard: Guard::Always,
        symbols: &[
            Read(THE_FOR),
            Do(Head),
            Expand(HeadedLoop),
            Read(THE_CLOSE_BRACE),
            Do(Own(MakeSetOfOne)),
        ],
    },
}];

pub(crate) const DICT_COMPREHENSION_ROWS: &[AddedRow] = &[AddedRow {
    name: FirstPairNext,
    sights: &[28],
    row: Row {
        guard: Guard::Always,
        symbols: &[Read(THE_FOR), Do(Head), Expand(HeadedLoop)],
    },
}];

pub(crate) const WALRUS_ROWS: &[AddedRow] = &[
    AddedRow {
        name: Named,
        sights: &[70],
        row: Row {
            guard: Guard::IsName,
            symbols: &[
                Read(THE_COLON_EQUAL),
                Do(Head),
                Expand(Profile(Expression)),
                Do(Own(MakeBinary(BinaryOperator::Add))),
            ],
        },
    },
    AddedRow {
        name: NamedCondition,
        sights: &[70],
        row: Row {
            guard: Guard::IsName,
            symbols: &[
                Read(THE_COLON_EQUAL),
                Do(Head),
                Expand(Profile(OrTest)),
                Do(Own(MakeBinary(BinaryOperator::Add))),
            ],
        },
    },
    AddedRow {
        name: Profile(SubscriptionTail),
        sights: &[70],
        row: Row {
            guard: Guard::IsName,
            symbols: &[
                Read(THE_COLON_EQUAL),
                Do(Head),
                Expand(Profile(Expression)),
                Do(Own(MakeBinary(BinaryOperator::Add))),
                Read(THE_CLOSE_BRACKET),
                Do(Own(MakeSubscript)),
            ],
        },
    },
    AddedRow {
        name: Profile(DeletedSubscriptTail),
        sights: &[70],
        row: Row {
            guard: Guard::IsName,
            symbols: &[
                Read(THE_COLON_EQUAL),
                Do(Head),
                Expand(Profile(Expression)),
                Do(Own(MakeBinary(BinaryOperator::Add))),
                Read(THE_CLOSE_BRACKET),
                Do(Own(MakeSubscript)),
                Expand(Profile(DeletedEnd)),
            ],
        },
    },
    AddedRow {
        name: Profile(ArgumentTail),
        sights: &[70],
        row: Row {
            guard: Guard::IsName,
            symbols: &[
                Read(THE_COLON_EQUAL),
                Do(Head),
                Expand(Profile(Expression)),
                Do(Own(MakeBinary(BinaryOperator::Add))),
                Expand(WalrusArgument),
            ],
        },
    },
    AddedRow {
        name: Profile(PlainArgumentTail),
        sights: &[70],
        row: Row {
            guard: Guard::IsName,
            symbols: &[
                Read(THE_COLON_EQUAL),
                Do(Head),
                Expand(Profile(Expression)),
                Do(Own(MakeBinary(BinaryOperator::Add))),
                Expand(PlainWalrusArgument),
            ],
        },
    },
    AddedRow {
        name: Profile(BracedTail),
        sights: &[70],
        row: Row {
            guard: Guard::IsName,
            symbols: &[
                Read(THE_COLON_EQUAL),
                Do(Head),
                Expand(Profile(Expression)),
                Do(Own(MakeBinary(BinaryOperator::Add))),
                Expand(WalrusSet),
            ],
        },
    },
];

pub(crate) const STAR_IMPORT_ROWS: &[AddedRow] = &[AddedRow {
    name: FromItems,
    sights: &[73],
    row: Row {
        guard: Guard::Always,
        symbols: &[Read(THE_STAR), Do(Head), Do(Own(Drop))],
    },
}];

pub(crate) const RELATIVE_IMPORT_ROWS: &[AddedRow] = &[
    AddedRow {
        name: FromModule,
        sights: &[89],
        row: Row {
            guard: Guard::Always,
            symbols: &[Read(THE_DOT), Do(Head), Expand(RelativeModule)],
        },
    },
    AddedRow {
        name: FromModule,
        sights: &[51],
        row: Row {
            guard: Guard::Always,
            symbols: &[Read(THE_ELLIPSIS), Do(Head), Expand(RelativeModule)],
        },
    },
];

pub(crate) const DOTTED_IMPORT_ROWS: &[AddedRow] = &[
    AddedRow {
        name: ImportTail,
        sights: &[89],
        row: Row {
            guard: Guard::Always,
            symbols: &[
                Read(THE_DOT),
                Do(Head),
                Do(Own(Drop)),
                Expand(Profile(AnyName)),
                Do(Own(Drop)),
                Expand(ImportTail),
            ],
        },
    },
    AddedRow {
        name: FromDots,
        sights: &[89],
        row: Row {
            guard: Guard::Always,
            symbols: &[
                Read(THE_DOT),
                Do(Head),
                Do(Own(Drop)),
                Expand(Profile(AnyName)),
                Do(Own(Drop)),
                Expand(FromDots),
            ],
        },
    },
];

pub(crate) const NESTED_IMPORT_ROWS: &[AddedRow] = &[
    AddedRow {
        name: BlockSmall,
        sights: &[32],
        row: Row {
            guard: Guard::Always,
            symbols: &[
                Read(THE_IMPORT),
                Do(Head),
                Do(Own(BeginImport)),
                Expand(Profile(ImportItem)),
                Expand(Profile(ImportNext)),
            ],
        },
    },
    AddedRow {
        name: BlockSmall,
        sights: &[29],
        row: Row {
            guard: Guard::Always,
            symbols: &[
                Read(THE_FROM),
                Do(Head),
                Expand(FromModule),
                Read(THE_IMPORT),
                Do(Own(BeginFrom)),
                Expand(FromItems),
            ],
        },
    },
    AddedRow {
        name: Profile(Brief),
        sights: &[32],
        row: Row {
            guard: Guard::Always,
            symbols: &[
                Read(THE_IMPORT),
                Do(Head),
                Do(Own(BeginImport)),
                Expand(Profile(ImportItem)),
                Expand(Profile(ImportNext)),
                Do(Own(AddStmt)),
                Read(NEWLINE),
                Do(Own(Drop)),
            ],
        },
    },
    AddedRow {
        name: Profile(Brief),
        sights: &[29],
        row: Row {
            guard: Guard::Always,
            symbols: &[
                Read(THE_FROM),
                Do(Head),
                Expand(FromModule),
                Read(THE_IMPORT),
                Do(Own(BeginFrom)),
                Expand(FromItems),
                Do(Own(AddStmt)),
                Read(NEWLINE),
                Do(Own(Drop)),
            ],
        },
    },
];

pub(crate) const NONASCII_MODULE_ROWS: &[AddedRow] = &[
    AddedRow {
        name: Profile(ImportItem),
        sights: &[0],
        row: Row {
            guard: Guard::Always,
            symbols: &[Read(OTHER_NAME), Do(Head), Expand(ImportTail)],
        },
    },
    AddedRow {
        name: FromModule,
        sights: &[0],
        row: Row {
            guard: Guard::Always,
            symbols: &[Read(OTHER_NAME), Do(Head)],
        },
    },
];

pub(crate) const BARE_RAISE_ROWS: &[AddedRow] = &[AddedRow {
    name: Raised,
    sights: &[8, 90],
    row: Row {
        guard: Guard::Always,
        symbols: &[Do(Hold), Do(Own(MakePass))],
    },
}];

pub(crate) const RAISE_FROM_ROWS: &[AddedRow] = &[AddedRow {
    name: RaisedTail,
    sights: &[29],
    row: Row {
        guard: Guard::Always,
        symbols: &[
            Read(THE_FROM),
            Do(Head),
            Do(Own(Drop)),
            Expand(Profile(Expression)),
            Do(Forget),
            Do(Own(MakeRaise)),
        ],
    },
}];

pub(crate) const EXCEPT_TUPLE_ROWS: &[AddedRow] = &[AddedRow {
    name: Profile(Handler),
    sights: &[81],
    row: Row {
        guard: Guard::Always,
        symbols: &[
            Read(THE_OPEN_PARENTHESIS),
            Do(Head),
            Do(Own(MakeClassName)),
            Expand(Profile(Expression)),
            Do(Forget),
            Expand(ExceptNext),
            Read(THE_CLOSE_PARENTHESIS),
            Do(Own(Drop)),
            Expand(Profile(HandlerAlias)),
        ],
    },
}];

pub(crate) const DELETE_NAME_ROWS: &[AddedRow] = &[AddedRow {
    name: Deleted,
    sights: &[87, 8, 90],
    row: Row {
        guard: Guard::IsDeleted,
        symbols: &[Do(Hold), Expand(DeletedRest)],
    },
}];

pub(crate) const NESTED_TARGET_ROWS: &[AddedRow] = &[
    AddedRow {
        name: Profile(Binding),
        sights: &[83],
        row: Row {
            guard: Guard::Always,
            symbols: &[
                Read(THE_OPEN_BRACKET),
                Do(TellLoop),
                Expand(Profile(Binding)),
                Read(THE_CLOSE_BRACKET),
                Do(Own(MakeLoopParenthesis)),
                Read(THE_COMMA),
                Do(Own(MakeLoopNames)),
                Expand(Profile(BindingMore)),
            ],
        },
    },
    AddedRow {
        name: BindingEnd,
        sights: &[87],
        row: Row {
            guard: Guard::Always,
            symbols: &[
                Read(THE_COMMA),
                Do(TellLoop),
                Do(Own(MakeLoopNames)),
                Expand(Profile(BindingMore)),
            ],
        },
    },
    AddedRow {
        name: Profile(BindingMore),
        sights: &[81],
        row: Row {
            guard: Guard::Always,
            symbols: &[
                Read(THE_OPEN_PARENTHESIS),
                Do(TellLoop),
                Expand(Profile(Binding)),
                Read(THE_CLOSE_PARENTHESIS),
                Do(Own(MakeLoopParenthesis)),
                Do(Own(AddLoopName)),
                Expand(Profile(BindingNext)),
            ],
        },
    },
    AddedRow {
        name: Profile(BindingMore),
        sights: &[83],
        row: Row {
            guard: Guard::Always,
            symbols: &[
                Read(THE_OPEN_BRACKET),
                Do(TellLoop),
                Expand(Profile(Binding)),
                Read(THE_CLOSE_BRACKET),
                Do(Own(MakeLoopParenthesis)),
                Do(Own(AddLoopName)),
                Expand(Profile(BindingNext)),
            ],
        },
    },
];

pub(crate) const STARRED_TARGET_ROWS: &[AddedRow] = &[
    AddedRow {
        name: Profile(Binding),
        sights: &[73],
        row: Row {
            guard: Guard::Always,
            symbols: &[
                Read(THE_STAR),
                Do(Head),
                Do(Own(Drop)),
                Expand(Profile(AnyName)),
                Do(Own(MakeLoopName)),
                Expand(Profile(BindingTail)),
            ],
        },
    },
    AddedRow {
        name: Profile(BindingMore),
        sights: &[73],
        row: Row {
            guard: Guard::Always,
            symbols: &[
                Read(THE_STAR),
                Do(Head),
                Do(Own(Drop)),
                Expand(Profile(AnyName)),
                Do(Own(AddLoopName)),
                Expand(Profile(BindingNext)),
            ],
        },
    },
    AddedRow {
        name: Profile(Small),
        sights: &[73],
        row: Row {
            guard: Guard::Always,
            symbols: &[
                Read(THE_STAR),
                Do(Head),
                Do(Own(Drop)),
                Expand(Target),
                Expand(StarTargets),
            ],
        },
    },
    AddedRow {
        name: Assigned,
        sights: &[73],
        row: Row {
            guard: Guard::Always,
            symbols: &[
                Read(THE_STAR),
                Do(Head),
                Do(Own(Drop)),
                Expand(Target),
                Expand(Profile(ExpressionListTail)),
                Expand(Profile(AssignTail)),
            ],
        },
    },
    AddedRow {
        name: Profile(ItemMore),
        sights: &[73],
        row: Row {
            guard: Guard::MayBeTargets,
            symbols: &[
                Read(THE_STAR),
                Do(Head),
                Do(Own(Drop)),
                Expand(Target),
                Do(Own(AddItem)),
                Expand(Profile(ItemNext)),
            ],
        },
    },
    AddedRow {
        name: NamedItemMore,
        sights: &[73],
        row: Row {
            guard: Guard::MayBeTargets,
            symbols: &[
                Read(THE_STAR),
                Do(Head),
                Do(Own(Drop)),
                Expand(Target),
                Do(Own(AddItem)),
                Expand(NamedItemNext),
            ],
        },
    },
    AddedRow {
        name: Profile(Parenthesised),
        sights: &[73],
        row: Row {
            guard: Guard::MayBeTargets,
            symbols: &[
                Read(THE_STAR),
                Do(Head),
                Do(Own(Drop)),
                Expand(Target),
                Expand(Profile(ParenthesisedTail)),
            ],
        },
    },
    AddedRow {
        name: Profile(Bracketed),
        sights: &[73],
        row: Row {
            guard: Guard::MayBeTargets,
            symbols: &[
                Read(THE_STAR),
                Do(Head),
                Do(Own(Drop)),
                Expand(Target),
                Expand(Profile(BracketedTail)),
            ],
        },
    },
];

pub(crate) const ELLIPSIS_ROWS: &[AddedRow] = &[AddedRow {
    name: Profile(Atom),
    sights: &[51],
    row: Row {
        guard: Guard::Always,
        symbols: &[Read(THE_ELLIPSIS), Do(Head), Do(Own(MakeNone))],
    },
}];
