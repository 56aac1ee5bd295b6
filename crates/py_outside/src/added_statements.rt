//! The rows that are added by constructs: slices, blocks and other statements. `tools/additions.py` writes this file from `tools/grammar.txt` and `tools/additions.txt`.

use crate::kind_numbers::{
    THE_ASYNC, THE_AWAIT, THE_CLOSE_PARENTHESIS, THE_COLON, THE_ELSE, THE_FINALLY, THE_FOR,
    THE_FROM, THE_IN, THE_NONLOCAL, THE_WITH, THE_YIELD,
};
use crate::symbol::Action::{Forget, Head, HoldSlice, Own};
use crate::symbol::Name::{
    Assigned, AsyncStatement, DeletedSlice, HandlersEnd, LoopElse, Profile, RightSide, Step,
    TryTail, UpperEnd, UpperStep, WithItem, WithNext, YieldValue, Yielded,
};
use crate::symbol::Symbol::{Do, Expand, Read};
use crate::symbol::{AddedRow, Guard, Row};
use py_table::symbol::Action::{
    AddGlobal, AddLoop, AddStmt, BeginGlobal, BeginLoop, Drop, MakeAssign, MakeNot,
    MakeParenthesis, MakeWhile, MakeYield,
};
use py_table::symbol::Nonterminal::{
    AnyName, Binding, Compound, Comprehension, Conditions, Definition, Expression, GlobalNext,
    Member, OrTest, Parenthesised, PowerExpr, PowerTail, Primary, Small, Statement, Suite,
    TopStatement, Upper,
};

pub(crate) const SLICE_STEP_ROWS: &[AddedRow] = &[
    AddedRow {
        name: Profile(Upper),
        sights: &[88],
        row: Row {
            guard: Guard::Always,
            symbols: &[Read(THE_COLON), Do(Head), Do(Own(Drop)), Expand(Step)],
        },
    },
    AddedRow {
        name: UpperEnd,
        sights: &[88],
        row: Row {
            guard: Guard::Always,
            symbols: &[Read(THE_COLON), Do(Head), Do(Own(Drop)), Expand(UpperStep)],
        },
    },
];

pub(crate) const SLICE_TARGET_ROWS: &[AddedRow] = &[AddedRow {
    name: DeletedSlice,
    sights: &[8, 90],
    row: Row {
        guard: Guard::Always,
        symbols: &[Do(HoldSlice)],
    },
}];

pub(crate) const LOOP_ELSE_ROWS: &[AddedRow] = &[AddedRow {
    name: LoopElse,
    sights: &[25],
    row: Row {
        guard: Guard::Always,
        symbols: &[
            Read(THE_ELSE),
            Do(Head),
            Do(Own(Drop)),
            Read(THE_COLON),
            Do(Own(Drop)),
            Expand(Profile(Suite)),
            Do(Forget),
        ],
    },
}];

pub(crate) const TRY_ELSE_ROWS: &[AddedRow] = &[AddedRow {
    name: HandlersEnd,
    sights: &[25],
    row: Row {
        guard: Guard::Always,
        symbols: &[
            Read(THE_ELSE),
            Do(Head),
            Do(Own(Drop)),
            Read(THE_COLON),
            Do(Own(Drop)),
            Expand(Profile(Suite)),
            Do(Forget),
        ],
    },
}];

pub(crate) const FINALLY_ROWS: &[AddedRow] = &[
    AddedRow {
        name: TryTail,
        sights: &[27],
        row: Row {
            guard: Guard::Always,
            symbols: &[
                Read(THE_FINALLY),
                Do(Head),
                Do(Own(Drop)),
                Read(THE_COLON),
                Do(Own(Drop)),
                Expand(Profile(Suite)),
                Do(Forget),
            ],
        },
    },
    AddedRow {
        name: HandlersEnd,
        sights: &[27],
        row: Row {
            guard: Guard::Always,
            symbols: &[
                Read(THE_FINALLY),
                Do(Head),
                Do(Own(Drop)),
                Read(THE_COLON),
                Do(Own(Drop)),
                Expand(Profile(Suite)),
                Do(Forget),
            ],
        },
    },
];

pub(crate) const WITH_ROWS: &[AddedRow] = &[AddedRow {
    name: Profile(Compound),
    sights: &[44],
    row: Row {
        guard: Guard::Always,
        symbols: &[
            Read(THE_WITH),
            Do(Head),
            Expand(WithItem),
            Expand(WithNext),
            Read(THE_COLON),
            Expand(Profile(Suite)),
            Do(Own(MakeWhile)),
        ],
    },
}];

pub(crate) const ASYNC_ROWS: &[AddedRow] = &[
    AddedRow {
        name: Profile(TopStatement),
        sights: &[17],
        row: Row {
            guard: Guard::Always,
            symbols: &[
                Read(THE_ASYNC),
                Do(Head),
                Do(Own(Drop)),
                Expand(AsyncStatement),
                Do(Own(AddStmt)),
            ],
        },
    },
    AddedRow {
        name: Profile(Statement),
        sights: &[17],
        row: Row {
            guard: Guard::Always,
            symbols: &[
                Read(THE_ASYNC),
                Do(Head),
                Do(Own(Drop)),
                Expand(AsyncStatement),
                Do(Own(AddStmt)),
            ],
        },
    },
    AddedRow {
        name: Profile(Member),
        sights: &[17],
        row: Row {
            guard: Guard::Always,
            symbols: &[
                Read(THE_ASYNC),
                Do(Head),
                Do(Own(Drop)),
                Expand(Profile(Definition)),
                Do(Own(AddStmt)),
            ],
        },
    },
    AddedRow {
        name: Profile(Comprehension),
        sights: &[17],
        row: Row {
            guard: Guard::Always,
            symbols: &[
                Read(THE_ASYNC),
                Do(Head),
                Do(Own(Drop)),
                Read(THE_FOR),
                Expand(Profile(Binding)),
                Read(THE_IN),
                Expand(Profile(OrTest)),
                Do(Own(BeginLoop)),
                Expand(Profile(Conditions)),
                Do(Own(AddLoop)),
            ],
        },
    },
];

pub(crate) const AWAIT_ROWS: &[AddedRow] = &[AddedRow {
    name: Profile(PowerExpr),
    sights: &[18],
    row: Row {
        guard: Guard::Always,
        symbols: &[
            Read(THE_AWAIT),
            Do(Head),
            Expand(Profile(Primary)),
            Do(Own(MakeNot)),
            Expand(Profile(PowerTail)),
        ],
    },
}];

pub(crate) const NONLOCAL_ROWS: &[AddedRow] = &[AddedRow {
    name: Profile(Small),
    sights: &[36],
    row: Row {
        guard: Guard::Always,
        symbols: &[
            Read(THE_NONLOCAL),
            Do(Head),
            Do(Own(BeginGlobal)),
            Expand(Profile(AnyName)),
            Do(Own(AddGlobal)),
            Expand(Profile(GlobalNext)),
        ],
    },
}];

pub(crate) const YIELD_EXPRESSION_ROWS: &[AddedRow] = &[
    AddedRow {
        name: Assigned,
        sights: &[45],
        row: Row {
            guard: Guard::Always,
            symbols: &[
                Read(THE_YIELD),
                Do(Head),
                Expand(YieldValue),
                Do(Own(MakeAssign)),
            ],
        },
    },
    AddedRow {
        name: RightSide,
        sights: &[45],
        row: Row {
            guard: Guard::Always,
            symbols: &[Read(THE_YIELD), Do(Head), Expand(YieldValue)],
        },
    },
    AddedRow {
        name: Profile(Parenthesised),
        sights: &[45],
        row: Row {
            guard: Guard::Always,
            symbols: &[
                Read(THE_YIELD),
                Do(Head),
                Expand(YieldValue),
                Read(THE_CLOSE_PARENTHESIS),
                Do(Own(MakeParenthesis)),
            ],
        },
    },
];

pub(crate) const YIELD_FROM_ROWS: &[AddedRow] = &[AddedRow {
    name: Yielded,
    sights: &[29],
    row: Row {
        guard: Guard::Always,
        symbols: &[
            Read(THE_FROM),
            Do(Head),
            Do(Own(Drop)),
            Expand(Profile(Expression)),
            Do(Own(MakeYield)),
        ],
    },
}];
