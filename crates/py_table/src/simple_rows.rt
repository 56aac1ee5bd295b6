//! The rows of simple statements and what they bind. `tools/table.py` writes this file from `tools/grammar.txt`.

use crate::kind_numbers::{
    NEWLINE, THE_AMPERSAND_EQUAL, THE_ASSERT, THE_BAR_EQUAL, THE_BREAK, THE_CARET_EQUAL,
    THE_CLOSE_BRACKET, THE_CLOSE_PARENTHESIS, THE_COLON, THE_COMMA, THE_CONTINUE, THE_DEL, THE_DOT,
    THE_DOUBLE_SLASH_EQUAL, THE_DOUBLE_STAR_EQUAL, THE_EQUAL, THE_GLOBAL, THE_LEFT_SHIFT_EQUAL,
    THE_MINUS_EQUAL, THE_OPEN_BRACKET, THE_OPEN_PARENTHESIS, THE_PASS, THE_PERCENT_EQUAL,
    THE_PLUS_EQUAL, THE_RAISE, THE_RETURN, THE_RIGHT_SHIFT_EQUAL, THE_SEMICOLON, THE_STAR_EQUAL,
    THE_YIELD,
};
use crate::symbol::Action::{
    AddGlobal, AddLoopName, AddStmt, AddTargets, BeginCall, BeginGlobal, Drop, MakeAssert,
    MakeAssertMessage, MakeAssign, MakeAttribute, MakeAugmented, MakeBreak, MakeContinue,
    MakeDelete, MakeExprStmt, MakeLoopName, MakeLoopNames, MakeLoopParenthesis, MakePass,
    MakeRaise, MakeReturn, MakeReturnValue, MakeSlice, MakeSliceFrom, MakeSubscript, MakeTargets,
    MakeYield,
};
use crate::symbol::Nonterminal::{
    AnyName, Arguments, AssertMessage, AssignTail, Atom, Binding, BindingMore, BindingNext,
    BindingTail, DeletedAttribute, DeletedEnd, DeletedSubscript, DeletedSubscriptTail, DeletedTail,
    Expression, ExpressionList, GlobalNext, LineMore, LineTail, PlainArguments, Returned, Small,
    SmallTail, Upper,
};
use crate::symbol::Symbol::{Do, Expand, Read};
use crate::symbol::{Guard, Row};
use py_ast::BinaryOperator;

pub(crate) const LINE_ROWS: &[Row] = &[Row {
    guard: Guard::Always,
    symbols: &[Expand(Small), Do(AddStmt), Expand(LineTail)],
}];

pub(crate) const LINE_TAIL_ROWS: &[Row] = &[
    Row {
        guard: Guard::Always,
        symbols: &[Read(NEWLINE), Do(Drop)],
    },
    Row {
        guard: Guard::Always,
        symbols: &[Read(THE_SEMICOLON), Do(Drop), Expand(LineMore)],
    },
];

pub(crate) const LINE_MORE_ROWS: &[Row] = &[
    Row {
        guard: Guard::Always,
        symbols: &[Read(NEWLINE), Do(Drop)],
    },
    Row {
        guard: Guard::Always,
        symbols: &[Expand(Small), Do(AddStmt), Expand(LineTail)],
    },
];

pub(crate) const SMALL_ROWS: &[Row] = &[
    Row {
        guard: Guard::Always,
        symbols: &[Expand(ExpressionList), Expand(SmallTail)],
    },
    Row {
        guard: Guard::Always,
        symbols: &[Read(THE_PASS), Do(MakePass)],
    },
    Row {
        guard: Guard::Always,
        symbols: &[Read(THE_BREAK), Do(MakeBreak)],
    },
    Row {
        guard: Guard::Always,
        symbols: &[Read(THE_CONTINUE), Do(MakeContinue)],
    },
    Row {
        guard: Guard::Always,
        symbols: &[Read(THE_RETURN), Expand(Returned)],
    },
    Row {
        guard: Guard::Always,
        symbols: &[Read(THE_RAISE), Expand(Expression), Do(MakeRaise)],
    },
    Row {
        guard: Guard::Always,
        symbols: &[Read(THE_YIELD), Expand(ExpressionList), Do(MakeYield)],
    },
    Row {
        guard: Guard::Always,
        symbols: &[
            Read(THE_GLOBAL),
            Do(BeginGlobal),
            Expand(AnyName),
            Do(AddGlobal),
            Expand(GlobalNext),
        ],
    },
    Row {
        guard: Guard::Always,
        symbols: &[Read(THE_ASSERT), Expand(Expression), Expand(AssertMessage)],
    },
    Row {
        guard: Guard::Always,
        symbols: &[
            Read(THE_DEL),
            Expand(Atom),
            Expand(DeletedTail),
            Do(MakeDelete),
        ],
    },
];

pub(crate) const SMALL_TAIL_ROWS: &[Row] = &[
    Row {
        guard: Guard::Always,
        symbols: &[Do(MakeExprStmt)],
    },
    Row {
        guard: Guard::AreTargetsLast,
        symbols: &[
            Read(THE_EQUAL),
            Do(MakeTargets),
            Expand(ExpressionList),
            Expand(AssignTail),
        ],
    },
    Row {
        guard: Guard::IsTargetLast,
        symbols: &[
            Read(THE_BAR_EQUAL),
            Expand(ExpressionList),
            Do(MakeAugmented(BinaryOperator::BitOr)),
        ],
    },
    Row {
        guard: Guard::IsTargetLast,
        symbols: &[
            Read(THE_CARET_EQUAL),
            Expand(ExpressionList),
            Do(MakeAugmented(BinaryOperator::BitXor)),
        ],
    },
    Row {
        guard: Guard::IsTargetLast,
        symbols: &[
            Read(THE_AMPERSAND_EQUAL),
            Expand(ExpressionList),
            Do(MakeAugmented(BinaryOperator::BitAnd)),
        ],
    },
    Row {
        guard: Guard::IsTargetLast,
        symbols: &[
            Read(THE_LEFT_SHIFT_EQUAL),
            Expand(ExpressionList),
            Do(MakeAugmented(BinaryOperator::LeftShift)),
        ],
    },
    Row {
        guard: Guard::IsTargetLast,
        symbols: &[
            Read(THE_RIGHT_SHIFT_EQUAL),
            Expand(ExpressionList),
            Do(MakeAugmented(BinaryOperator::RightShift)),
        ],
    },
    Row {
        guard: Guard::IsTargetLast,
        symbols: &[
            Read(THE_PLUS_EQUAL),
            Expand(ExpressionList),
            Do(MakeAugmented(BinaryOperator::Add)),
        ],
    },
    Row {
        guard: Guard::IsTargetLast,
        symbols: &[
            Read(THE_MINUS_EQUAL),
            Expand(ExpressionList),
            Do(MakeAugmented(BinaryOperator::Subtract)),
        ],
    },
    Row {
        guard: Guard::IsTargetLast,
        symbols: &[
            Read(THE_STAR_EQUAL),
            Expand(ExpressionList),
            Do(MakeAugmented(BinaryOperator::Multiply)),
        ],
    },
    Row {
        guard: Guard::IsTargetLast,
        symbols: &[
            Read(THE_DOUBLE_SLASH_EQUAL),
            Expand(ExpressionList),
            Do(MakeAugmented(BinaryOperator::FloorDivide)),
        ],
    },
    Row {
        guard: Guard::IsTargetLast,
        symbols: &[
            Read(THE_PERCENT_EQUAL),
            Expand(ExpressionList),
            Do(MakeAugmented(BinaryOperator::Modulo)),
        ],
    },
    Row {
        guard: Guard::IsTargetLast,
        symbols: &[
            Read(THE_DOUBLE_STAR_EQUAL),
            Expand(ExpressionList),
            Do(MakeAugmented(BinaryOperator::Power)),
        ],
    },
];

pub(crate) const ASSIGN_TAIL_ROWS: &[Row] = &[
    Row {
        guard: Guard::Always,
        symbols: &[Do(MakeAssign)],
    },
    Row {
        guard: Guard::AreTargetsLast,
        symbols: &[
            Read(THE_EQUAL),
            Do(AddTargets),
            Expand(ExpressionList),
            Expand(AssignTail),
        ],
    },
];

pub(crate) const RETURNED_ROWS: &[Row] = &[
    Row {
        guard: Guard::Always,
        symbols: &[Do(MakeReturn)],
    },
    Row {
        guard: Guard::Always,
        symbols: &[Expand(ExpressionList), Do(MakeReturnValue)],
    },
];

pub(crate) const GLOBAL_NEXT_ROWS: &[Row] = &[
    Row {
        guard: Guard::Always,
        symbols: &[],
    },
    Row {
        guard: Guard::Always,
        symbols: &[
            Read(THE_COMMA),
            Do(Drop),
            Expand(AnyName),
            Do(AddGlobal),
            Expand(GlobalNext),
        ],
    },
];

pub(crate) const ASSERT_MESSAGE_ROWS: &[Row] = &[
    Row {
        guard: Guard::Always,
        symbols: &[Do(MakeAssert)],
    },
    Row {
        guard: Guard::Always,
        symbols: &[Read(THE_COMMA), Expand(Expression), Do(MakeAssertMessage)],
    },
];

pub(crate) const DELETED_TAIL_ROWS: &[Row] = &[
    Row {
        guard: Guard::Always,
        symbols: &[
            Read(THE_DOT),
            Expand(AnyName),
            Do(MakeAttribute),
            Expand(DeletedAttribute),
        ],
    },
    Row {
        guard: Guard::Always,
        symbols: &[
            Read(THE_OPEN_PARENTHESIS),
            Do(BeginCall),
            Expand(Arguments),
            Read(THE_CLOSE_PARENTHESIS),
            Do(Drop),
            Expand(DeletedTail),
        ],
    },
    Row {
        guard: Guard::Always,
        symbols: &[Read(THE_OPEN_BRACKET), Expand(DeletedSubscript)],
    },
];

pub(crate) const DELETED_ATTRIBUTE_ROWS: &[Row] = &[
    Row {
        guard: Guard::Always,
        symbols: &[
            Read(THE_DOT),
            Expand(AnyName),
            Do(MakeAttribute),
            Expand(DeletedAttribute),
        ],
    },
    Row {
        guard: Guard::Always,
        symbols: &[
            Read(THE_OPEN_PARENTHESIS),
            Do(BeginCall),
            Expand(PlainArguments),
            Read(THE_CLOSE_PARENTHESIS),
            Do(Drop),
            Expand(DeletedTail),
        ],
    },
    Row {
        guard: Guard::Always,
        symbols: &[Read(THE_OPEN_BRACKET), Expand(DeletedSubscript)],
    },
];

pub(crate) const DELETED_END_ROWS: &[Row] = &[
    Row {
        guard: Guard::Always,
        symbols: &[],
    },
    Row {
        guard: Guard::Always,
        symbols: &[
            Read(THE_DOT),
            Expand(AnyName),
            Do(MakeAttribute),
            Expand(DeletedAttribute),
        ],
    },
    Row {
        guard: Guard::Always,
        symbols: &[
            Read(THE_OPEN_PARENTHESIS),
            Do(BeginCall),
            Expand(Arguments),
            Read(THE_CLOSE_PARENTHESIS),
            Do(Drop),
            Expand(DeletedTail),
        ],
    },
    Row {
        guard: Guard::Always,
        symbols: &[Read(THE_OPEN_BRACKET), Expand(DeletedSubscript)],
    },
];

pub(crate) const DELETED_SUBSCRIPT_ROWS: &[Row] = &[
    Row {
        guard: Guard::Always,
        symbols: &[Expand(Expression), Expand(DeletedSubscriptTail)],
    },
    Row {
        guard: Guard::Always,
        symbols: &[
            Read(THE_COLON),
            Do(MakeSlice),
            Expand(Upper),
            Expand(DeletedTail),
        ],
    },
];

pub(crate) const DELETED_SUBSCRIPT_TAIL_ROWS: &[Row] = &[
    Row {
        guard: Guard::Always,
        symbols: &[
            Read(THE_CLOSE_BRACKET),
            Do(MakeSubscript),
            Expand(DeletedEnd),
        ],
    },
    Row {
        guard: Guard::Always,
        symbols: &[
            Read(THE_COLON),
            Do(MakeSliceFrom),
            Expand(Upper),
            Expand(DeletedTail),
        ],
    },
];

pub(crate) const BINDING_ROWS: &[Row] = &[
    Row {
        guard: Guard::Always,
        symbols: &[Expand(AnyName), Do(MakeLoopName), Expand(BindingTail)],
    },
    Row {
        guard: Guard::Always,
        symbols: &[
            Read(THE_OPEN_PARENTHESIS),
            Expand(Binding),
            Read(THE_CLOSE_PARENTHESIS),
            Do(MakeLoopParenthesis),
        ],
    },
];

pub(crate) const BINDING_TAIL_ROWS: &[Row] = &[
    Row {
        guard: Guard::Always,
        symbols: &[],
    },
    Row {
        guard: Guard::Always,
        symbols: &[Read(THE_COMMA), Do(MakeLoopNames), Expand(BindingMore)],
    },
];

pub(crate) const BINDING_MORE_ROWS: &[Row] = &[
    Row {
        guard: Guard::Always,
        symbols: &[],
    },
    Row {
        guard: Guard::Always,
        symbols: &[Expand(AnyName), Do(AddLoopName), Expand(BindingNext)],
    },
];

pub(crate) const BINDING_NEXT_ROWS: &[Row] = &[
    Row {
        guard: Guard::Always,
        symbols: &[],
    },
    Row {
        guard: Guard::Always,
        symbols: &[Read(THE_COMMA), Do(Drop), Expand(BindingMore)],
    },
];
