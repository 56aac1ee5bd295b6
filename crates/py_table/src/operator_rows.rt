//! The rows of expressions with operators. `tools/table.py` writes this file from `tools/grammar.txt`.

use crate::kind_numbers::{
    THE_AMPERSAND, THE_AND, THE_BAR, THE_CARET, THE_COMMA, THE_DOUBLE_SLASH, THE_DOUBLE_STAR,
    THE_ELSE, THE_EQUAL_EQUAL, THE_GREATER, THE_GREATER_EQUAL, THE_IF, THE_IN, THE_IS,
    THE_LEFT_SHIFT, THE_LESS, THE_LESS_EQUAL, THE_MINUS, THE_NOT, THE_NOT_EQUAL, THE_OR,
    THE_PERCENT, THE_PLUS, THE_RIGHT_SHIFT, THE_STAR, THE_TILDE,
};
use crate::symbol::Action::{
    AddAnd, AddItem, AddLink, AddOr, Drop, MakeAnd, MakeBinary, MakeCompare, MakeConditional,
    MakeLongSign, MakeNot, MakeOr, MakeSign, MakeTuple, MakeUnary,
};
use crate::symbol::Nonterminal::{
    AndExpr, AndExprTail, AndMore, AndTail, AndTest, Comparison, ComparisonMore, ComparisonSign,
    ComparisonTail, Expression, ExpressionListTail, ExpressionTail, Factor, IsTail, ItemMore,
    ItemNext, NotTest, OrExpr, OrExprTail, OrMore, OrTail, OrTest, PowerExpr, PowerTail, Primary,
    Product, ProductTail, ShiftExpr, ShiftTail, Sum, SumTail, XorExpr, XorExprTail,
};
use crate::symbol::Symbol::{Do, Expand, Read};
use crate::symbol::{Guard, Row};
use py_ast::{BinaryOperator, ComparisonOperator, UnaryOperator};

pub(crate) const EXPRESSION_LIST_ROWS: &[Row] = &[Row {
    guard: Guard::Always,
    symbols: &[Expand(Expression), Expand(ExpressionListTail)],
}];

pub(crate) const EXPRESSION_LIST_TAIL_ROWS: &[Row] = &[
    Row {
        guard: Guard::Always,
        symbols: &[],
    },
    Row {
        guard: Guard::Always,
        symbols: &[Read(THE_COMMA), Do(MakeTuple), Expand(ItemMore)],
    },
];

pub(crate) const ITEM_MORE_ROWS: &[Row] = &[
    Row {
        guard: Guard::Always,
        symbols: &[],
    },
    Row {
        guard: Guard::Always,
        symbols: &[Expand(Expression), Do(AddItem), Expand(ItemNext)],
    },
];

pub(crate) const ITEM_NEXT_ROWS: &[Row] = &[
    Row {
        guard: Guard::Always,
        symbols: &[],
    },
    Row {
        guard: Guard::Always,
        symbols: &[Read(THE_COMMA), Do(Drop), Expand(ItemMore)],
    },
];

pub(crate) const EXPRESSION_ROWS: &[Row] = &[Row {
    guard: Guard::Always,
    symbols: &[Expand(OrTest), Expand(ExpressionTail)],
}];

pub(crate) const EXPRESSION_TAIL_ROWS: &[Row] = &[
    Row {
        guard: Guard::Always,
        symbols: &[],
    },
    Row {
        guard: Guard::Always,
        symbols: &[
            Read(THE_IF),
            Expand(OrTest),
            Read(THE_ELSE),
            Expand(Expression),
            Do(MakeConditional),
        ],
    },
];

pub(crate) const OR_TEST_ROWS: &[Row] = &[Row {
    guard: Guard::Always,
    symbols: &[Expand(AndTest), Expand(OrTail)],
}];

pub(crate) const OR_TAIL_ROWS: &[Row] = &[
    Row {
        guard: Guard::Always,
        symbols: &[],
    },
    Row {
        guard: Guard::Always,
        symbols: &[Read(THE_OR), Expand(AndTest), Do(MakeOr), Expand(OrMore)],
    },
];

pub(crate) const OR_MORE_ROWS: &[Row] = &[
    Row {
        guard: Guard::Always,
        symbols: &[],
    },
    Row {
        guard: Guard::Always,
        symbols: &[Read(THE_OR), Expand(AndTest), Do(AddOr), Expand(OrMore)],
    },
];

pub(crate) const AND_TEST_ROWS: &[Row] = &[Row {
    guard: Guard::Always,
    symbols: &[Expand(NotTest), Expand(AndTail)],
}];

pub(crate) const AND_TAIL_ROWS: &[Row] = &[
    Row {
        guard: Guard::Always,
        symbols: &[],
    },
    Row {
        guard: Guard::Always,
        symbols: &[Read(THE_AND), Expand(NotTest), Do(MakeAnd), Expand(AndMore)],
    },
];

pub(crate) const AND_MORE_ROWS: &[Row] = &[
    Row {
        guard: Guard::Always,
        symbols: &[],
    },
    Row {
        guard: Guard::Always,
        symbols: &[Read(THE_AND), Expand(NotTest), Do(AddAnd), Expand(AndMore)],
    },
];

pub(crate) const NOT_TEST_ROWS: &[Row] = &[
    Row {
        guard: Guard::Always,
        symbols: &[Read(THE_NOT), Expand(NotTest), Do(MakeNot)],
    },
    Row {
        guard: Guard::Always,
        symbols: &[Expand(Comparison)],
    },
];

pub(crate) const COMPARISON_ROWS: &[Row] = &[Row {
    guard: Guard::Always,
    symbols: &[Expand(OrExpr), Expand(ComparisonTail)],
}];

pub(crate) const COMPARISON_TAIL_ROWS: &[Row] = &[
    Row {
        guard: Guard::Always,
        symbols: &[],
    },
    Row {
        guard: Guard::Always,
        symbols: &[
            Expand(ComparisonSign),
            Expand(OrExpr),
            Do(MakeCompare),
            Expand(ComparisonMore),
        ],
    },
];

pub(crate) const COMPARISON_MORE_ROWS: &[Row] = &[
    Row {
        guard: Guard::Always,
        symbols: &[],
    },
    Row {
        guard: Guard::Always,
        symbols: &[
            Expand(ComparisonSign),
            Expand(OrExpr),
            Do(AddLink),
            Expand(ComparisonMore),
        ],
    },
];

pub(crate) const COMPARISON_SIGN_ROWS: &[Row] = &[
    Row {
        guard: Guard::Always,
        symbols: &[Read(THE_LESS), Do(MakeSign(ComparisonOperator::Less))],
    },
    Row {
        guard: Guard::Always,
        symbols: &[Read(THE_GREATER), Do(MakeSign(ComparisonOperator::Greater))],
    },
    Row {
        guard: Guard::Always,
        symbols: &[
            Read(THE_LESS_EQUAL),
            Do(MakeSign(ComparisonOperator::LessOrEqual)),
        ],
    },
    Row {
        guard: Guard::Always,
        symbols: &[
            Read(THE_GREATER_EQUAL),
            Do(MakeSign(ComparisonOperator::GreaterOrEqual)),
        ],
    },
    Row {
        guard: Guard::Always,
        symbols: &[
            Read(THE_EQUAL_EQUAL),
            Do(MakeSign(ComparisonOperator::Equal)),
        ],
    },
    Row {
        guard: Guard::Always,
        symbols: &[
            Read(THE_NOT_EQUAL),
            Do(MakeSign(ComparisonOperator::NotEqual)),
        ],
    },
    Row {
        guard: Guard::Always,
        symbols: &[Read(THE_IN), Do(MakeSign(ComparisonOperator::In))],
    },
    Row {
        guard: Guard::Always,
        symbols: &[
            Read(THE_NOT),
            Read(THE_IN),
            Do(MakeLongSign(ComparisonOperator::NotIn)),
        ],
    },
    Row {
        guard: Guard::Always,
        symbols: &[Read(THE_IS), Expand(IsTail)],
    },
];

pub(crate) const IS_TAIL_ROWS: &[Row] = &[
    Row {
        guard: Guard::Always,
        symbols: &[Do(MakeSign(ComparisonOperator::Is))],
    },
    Row {
        guard: Guard::Always,
        symbols: &[Read(THE_NOT), Do(MakeLongSign(ComparisonOperator::IsNot))],
    },
];

pub(crate) const OR_EXPR_ROWS: &[Row] = &[Row {
    guard: Guard::Always,
    symbols: &[Expand(XorExpr), Expand(OrExprTail)],
}];

pub(crate) const OR_EXPR_TAIL_ROWS: &[Row] = &[
    Row {
        guard: Guard::Always,
        symbols: &[],
    },
    Row {
        guard: Guard::Always,
        symbols: &[
            Read(THE_BAR),
            Expand(XorExpr),
            Do(MakeBinary(BinaryOperator::BitOr)),
            Expand(OrExprTail),
        ],
    },
];

pub(crate) const XOR_EXPR_ROWS: &[Row] = &[Row {
    guard: Guard::Always,
    symbols: &[Expand(AndExpr), Expand(XorExprTail)],
}];

pub(crate) const XOR_EXPR_TAIL_ROWS: &[Row] = &[
    Row {
        guard: Guard::Always,
        symbols: &[],
    },
    Row {
        guard: Guard::Always,
        symbols: &[
            Read(THE_CARET),
            Expand(AndExpr),
            Do(MakeBinary(BinaryOperator::BitXor)),
            Expand(XorExprTail),
        ],
    },
];

pub(crate) const AND_EXPR_ROWS: &[Row] = &[Row {
    guard: Guard::Always,
    symbols: &[Expand(ShiftExpr), Expand(AndExprTail)],
}];

pub(crate) const AND_EXPR_TAIL_ROWS: &[Row] = &[
    Row {
        guard: Guard::Always,
        symbols: &[],
    },
    Row {
        guard: Guard::Always,
        symbols: &[
            Read(THE_AMPERSAND),
            Expand(ShiftExpr),
            Do(MakeBinary(BinaryOperator::BitAnd)),
            Expand(AndExprTail),
        ],
    },
];

pub(crate) const SHIFT_EXPR_ROWS: &[Row] = &[Row {
    guard: Guard::Always,
    symbols: &[Expand(Sum), Expand(ShiftTail)],
}];

pub(crate) const SHIFT_TAIL_ROWS: &[Row] = &[
    Row {
        guard: Guard::Always,
        symbols: &[],
    },
    Row {
        guard: Guard::Always,
        symbols: &[
            Read(THE_LEFT_SHIFT),
            Expand(Sum),
            Do(MakeBinary(BinaryOperator::LeftShift)),
            Expand(ShiftTail),
        ],
    },
    Row {
        guard: Guard::Always,
        symbols: &[
            Read(THE_RIGHT_SHIFT),
            Expand(Sum),
            Do(MakeBinary(BinaryOperator::RightShift)),
            Expand(ShiftTail),
        ],
    },
];

pub(crate) const SUM_ROWS: &[Row] = &[Row {
    guard: Guard::Always,
    symbols: &[Expand(Product), Expand(SumTail)],
}];

pub(crate) const SUM_TAIL_ROWS: &[Row] = &[
    Row {
        guard: Guard::Always,
        symbols: &[],
    },
    Row {
        guard: Guard::Always,
        symbols: &[
            Read(THE_PLUS),
            Expand(Product),
            Do(MakeBinary(BinaryOperator::Add)),
            Expand(SumTail),
        ],
    },
    Row {
        guard: Guard::Always,
        symbols: &[
            Read(THE_MINUS),
            Expand(Product),
            Do(MakeBinary(BinaryOperator::Subtract)),
            Expand(SumTail),
        ],
    },
];

pub(crate) const PRODUCT_ROWS: &[Row] = &[Row {
    guard: Guard::Always,
    symbols: &[Expand(Factor), Expand(ProductTail)],
}];

pub(crate) const PRODUCT_TAIL_ROWS: &[Row] = &[
    Row {
        guard: Guard::Always,
        symbols: &[],
    },
    Row {
        guard: Guard::Always,
        symbols: &[
            Read(THE_STAR),
            Expand(Factor),
            Do(MakeBinary(BinaryOperator::Multiply)),
            Expand(ProductTail),
        ],
    },
    Row {
        guard: Guard::Always,
        symbols: &[
            Read(THE_DOUBLE_SLASH),
            Expand(Factor),
            Do(MakeBinary(BinaryOperator::FloorDivide)),
            Expand(ProductTail),
        ],
    },
    Row {
        guard: Guard::Always,
        symbols: &[
            Read(THE_PERCENT),
            Expand(Factor),
            Do(MakeBinary(BinaryOperator::Modulo)),
            Expand(ProductTail),
        ],
    },
];

pub(crate) const FACTOR_ROWS: &[Row] = &[
    Row {
        guard: Guard::Always,
        symbols: &[
            Read(THE_MINUS),
            Expand(Factor),
            Do(MakeUnary(UnaryOperator::Negative)),
        ],
    },
    Row {
        guard: Guard::Always,
        symbols: &[
            Read(THE_PLUS),
            Expand(Factor),
            Do(MakeUnary(UnaryOperator::Positive)),
        ],
    },
    Row {
        guard: Guard::Always,
        symbols: &[
            Read(THE_TILDE),
            Expand(Factor),
            Do(MakeUnary(UnaryOperator::Invert)),
        ],
    },
    Row {
        guard: Guard::Always,
        symbols: &[Expand(PowerExpr)],
    },
];

pub(crate) const POWER_EXPR_ROWS: &[Row] = &[Row {
    guard: Guard::Always,
    symbols: &[Expand(Primary), Expand(PowerTail)],
}];

pub(crate) const POWER_TAIL_ROWS: &[Row] = &[
    Row {
        guard: Guard::Always,
        symbols: &[],
    },
    Row {
        guard: Guard::Always,
        symbols: &[
            Read(THE_DOUBLE_STAR),
            Expand(Factor),
            Do(MakeBinary(BinaryOperator::Power)),
        ],
    },
];
