//! The rows of the profile's nonterminals at which a place for a construct stands. `tools/additions.py` writes this file from `tools/grammar.txt` and `tools/additions.txt`.

use crate::kind_numbers::ASCII_NAME;
use crate::kind_numbers::DEDENT;
use crate::kind_numbers::INDENT;
use crate::kind_numbers::NEWLINE;
use crate::kind_numbers::NUMBER;
use crate::kind_numbers::TEXT;
use crate::kind_numbers::THE_AMPERSAND_EQUAL;
use crate::kind_numbers::THE_ASSERT;
use crate::kind_numbers::THE_BAR_EQUAL;
use crate::kind_numbers::THE_BREAK;
use crate::kind_numbers::THE_CARET_EQUAL;
use crate::kind_numbers::THE_CLASS;
use crate::kind_numbers::THE_CLOSE_BRACE;
use crate::kind_numbers::THE_CLOSE_BRACKET;
use crate::kind_numbers::THE_CLOSE_PARENTHESIS;
use crate::kind_numbers::THE_COLON;
use crate::kind_numbers::THE_COMMA;
use crate::kind_numbers::THE_CONTINUE;
use crate::kind_numbers::THE_DEF;
use crate::kind_numbers::THE_DEL;
use crate::kind_numbers::THE_DOUBLE_SLASH_EQUAL;
use crate::kind_numbers::THE_DOUBLE_STAR_EQUAL;
use crate::kind_numbers::THE_ELIF;
use crate::kind_numbers::THE_ELSE;
use crate::kind_numbers::THE_EQUAL;
use crate::kind_numbers::THE_EXCEPT;
use crate::kind_numbers::THE_FALSE;
use crate::kind_numbers::THE_FOR;
use crate::kind_numbers::THE_FROM;
use crate::kind_numbers::THE_GLOBAL;
use crate::kind_numbers::THE_IF;
use crate::kind_numbers::THE_IMPORT;
use crate::kind_numbers::THE_IN;
use crate::kind_numbers::THE_LEFT_SHIFT_EQUAL;
use crate::kind_numbers::THE_MINUS_EQUAL;
use crate::kind_numbers::THE_NONE;
use crate::kind_numbers::THE_OPEN_BRACE;
use crate::kind_numbers::THE_OPEN_BRACKET;
use crate::kind_numbers::THE_OPEN_PARENTHESIS;
use crate::kind_numbers::THE_PASS;
use crate::kind_numbers::THE_PERCENT_EQUAL;
use crate::kind_numbers::THE_PLUS_EQUAL;
use crate::kind_numbers::THE_RAISE;
use crate::kind_numbers::THE_RETURN;
use crate::kind_numbers::THE_RIGHT_SHIFT_EQUAL;
use crate::kind_numbers::THE_STAR_EQUAL;
use crate::kind_numbers::THE_TRUE;
use crate::kind_numbers::THE_TRY;
use crate::kind_numbers::THE_WHILE;
use crate::kind_numbers::THE_YIELD;
use crate::symbol::Action::Own;
use crate::symbol::Action::TellTargets;
use crate::symbol::Guard;
use crate::symbol::Name::Assigned;
use crate::symbol::Name::BaseEnd;
use crate::symbol::Name::BindingEnd;
use crate::symbol::Name::BlockLine;
use crate::symbol::Name::BriefText;
use crate::symbol::Name::ClassRest;
use crate::symbol::Name::DefinitionRest;
use crate::symbol::Name::Deleted;
use crate::symbol::Name::DeletedSlice;
use crate::symbol::Name::FirstPairNext;
use crate::symbol::Name::FromItems;
use crate::symbol::Name::FromModule;
use crate::symbol::Name::HandlersEnd;
use crate::symbol::Name::ImportTail;
use crate::symbol::Name::LoopElse;
use crate::symbol::Name::NamedCondition;
use crate::symbol::Name::NamedExpression;
use crate::symbol::Name::NamedItemMore;
use crate::symbol::Name::Profile;
use crate::symbol::Name::Raised;
use crate::symbol::Name::RightSide;
use crate::symbol::Name::TextTail;
use crate::symbol::Name::TryTail;
use crate::symbol::Name::UpperEnd;
use crate::symbol::Name::Yielded;
use crate::symbol::Row;
use crate::symbol::Symbol::Do;
use crate::symbol::Symbol::Expand;
use crate::symbol::Symbol::Read;
use py_ast::BinaryOperator;
use py_table::symbol::Action::AddArgument;
use py_table::symbol::Action::AddCondition;
use py_table::symbol::Action::AddGlobal;
use py_table::symbol::Action::AddKeyword;
use py_table::symbol::Action::AddStmt;
use py_table::symbol::Action::AddTargets;
use py_table::symbol::Action::BeginBody;
use py_table::symbol::Action::BeginComprehension;
use py_table::symbol::Action::BeginDict;
use py_table::symbol::Action::BeginFrom;
use py_table::symbol::Action::BeginGlobal;
use py_table::symbol::Action::BeginImport;
use py_table::symbol::Action::BeginTry;
use py_table::symbol::Action::CatchAll;
use py_table::symbol::Action::Drop;
use py_table::symbol::Action::MakeAssign;
use py_table::symbol::Action::MakeAugmented;
use py_table::symbol::Action::MakeBreak;
use py_table::symbol::Action::MakeContinue;
use py_table::symbol::Action::MakeElif;
use py_table::symbol::Action::MakeElse;
use py_table::symbol::Action::MakeEmptyList;
use py_table::symbol::Action::MakeEmptyTuple;
use py_table::symbol::Action::MakeExprStmt;
use py_table::symbol::Action::MakeFalse;
use py_table::symbol::Action::MakeFor;
use py_table::symbol::Action::MakeIf;
use py_table::symbol::Action::MakeLeaf;
use py_table::symbol::Action::MakeList;
use py_table::symbol::Action::MakeListOfOne;
use py_table::symbol::Action::MakeLoopName;
use py_table::symbol::Action::MakeLoopParenthesis;
use py_table::symbol::Action::MakeNone;
use py_table::symbol::Action::MakeParenthesis;
use py_table::symbol::Action::MakePass;
use py_table::symbol::Action::MakeSet;
use py_table::symbol::Action::MakeSetOfOne;
use py_table::symbol::Action::MakeSlice;
use py_table::symbol::Action::MakeSliceFrom;
use py_table::symbol::Action::MakeSubscript;
use py_table::symbol::Action::MakeTargets;
use py_table::symbol::Action::MakeTrue;
use py_table::symbol::Action::MakeTuple;
use py_table::symbol::Action::MakeWhile;
use py_table::symbol::Nonterminal::AnyName;
use py_table::symbol::Nonterminal::Arguments;
use py_table::symbol::Nonterminal::AssertMessage;
use py_table::symbol::Nonterminal::Atom;
use py_table::symbol::Nonterminal::Binding;
use py_table::symbol::Nonterminal::BindingTail;
use py_table::symbol::Nonterminal::Braced;
use py_table::symbol::Nonterminal::Bracketed;
use py_table::symbol::Nonterminal::BracketedTail;
use py_table::symbol::Nonterminal::Compound;
use py_table::symbol::Nonterminal::Comprehension;
use py_table::symbol::Nonterminal::Comprehensions;
use py_table::symbol::Nonterminal::Conditions;
use py_table::symbol::Nonterminal::DeletedEnd;
use py_table::symbol::Nonterminal::DeletedSubscriptTail;
use py_table::symbol::Nonterminal::Expression;
use py_table::symbol::Nonterminal::ExpressionList;
use py_table::symbol::Nonterminal::GlobalNext;
use py_table::symbol::Nonterminal::Handler;
use py_table::symbol::Nonterminal::HandlerAlias;
use py_table::symbol::Nonterminal::ImportItem;
use py_table::symbol::Nonterminal::ImportNext;
use py_table::symbol::Nonterminal::KeywordNext;
use py_table::symbol::Nonterminal::OrTest;
use py_table::symbol::Nonterminal::Otherwise;
use py_table::symbol::Nonterminal::Parenthesised;
use py_table::symbol::Nonterminal::ParenthesisedTail;
use py_table::symbol::Nonterminal::QualifiedName;
use py_table::symbol::Nonterminal::Returned;
use py_table::symbol::Nonterminal::SmallTail;
use py_table::symbol::Nonterminal::Statement;
use py_table::symbol::Nonterminal::Statements;
use py_table::symbol::Nonterminal::Suite;
use py_table::symbol::Nonterminal::Upper;

pub(crate) const COMPOUND_ROWS: &[Row] = &[
    Row {
        guard: Guard::Always,
        symbols: &[
            Read(THE_IF),
            Expand(NamedExpression),
            Read(THE_COLON),
            Expand(Profile(Suite)),
            Expand(Profile(Otherwise)),
            Do(Own(MakeIf)),
        ],
    },
    Row {
        guard: Guard::Always,
        symbols: &[
            Read(THE_WHILE),
            Expand(NamedExpression),
            Read(THE_COLON),
            Expand(Profile(Suite)),
            Expand(LoopElse),
            Do(Own(MakeWhile)),
        ],
    },
    Row {
        guard: Guard::Always,
        symbols: &[
            Read(THE_FOR),
            Expand(Profile(Binding)),
            Read(THE_IN),
            Expand(Profile(ExpressionList)),
            Read(THE_COLON),
            Expand(Profile(Suite)),
            Expand(LoopElse),
            Do(Own(MakeFor)),
        ],
    },
    Row {
        guard: Guard::Always,
        symbols: &[
            Read(THE_TRY),
            Read(THE_COLON),
            Expand(Profile(Suite)),
            Do(Own(BeginTry)),
            Expand(TryTail),
        ],
    },
];

pub(crate) const OTHERWISE_ROWS: &[Row] = &[
    Row {
        guard: Guard::Always,
        symbols: &[Do(Own(BeginBody))],
    },
    Row {
        guard: Guard::Always,
        symbols: &[
            Read(THE_ELSE),
            Read(THE_COLON),
            Expand(Profile(Suite)),
            Do(Own(MakeElse)),
        ],
    },
    Row {
        guard: Guard::Always,
        symbols: &[
            Read(THE_ELIF),
            Expand(NamedExpression),
            Read(THE_COLON),
            Expand(Profile(Suite)),
            Expand(Profile(Otherwise)),
            Do(Own(MakeElif)),
        ],
    },
];

pub(crate) const SUITE_ROWS: &[Row] = &[
    Row {
        guard: Guard::Always,
        symbols: &[Do(Own(BeginBody)), Expand(BlockLine)],
    },
    Row {
        guard: Guard::Always,
        symbols: &[
            Read(NEWLINE),
            Do(Own(Drop)),
            Read(INDENT),
            Do(Own(Drop)),
            Do(Own(BeginBody)),
            Expand(Profile(Statement)),
            Expand(Profile(Statements)),
            Read(DEDENT),
            Do(Own(Drop)),
        ],
    },
];

pub(crate) const STATEMENT_ROWS: &[Row] = &[
    Row {
        guard: Guard::Always,
        symbols: &[Expand(BlockLine)],
    },
    Row {
        guard: Guard::Always,
        symbols: &[Expand(Profile(Compound)), Do(Own(AddStmt))],
    },
];

pub(crate) const HANDLER_ROWS: &[Row] = &[
    Row {
        guard: Guard::Always,
        symbols: &[
            Read(THE_COLON),
            Expand(Profile(Suite)),
            Do(Own(CatchAll)),
            Expand(HandlersEnd),
        ],
    },
    Row {
        guard: Guard::Always,
        symbols: &[
            Expand(Profile(QualifiedName)),
            Expand(Profile(HandlerAlias)),
        ],
    },
];

pub(crate) const MORE_HANDLERS_ROWS: &[Row] = &[
    Row {
        guard: Guard::Always,
        symbols: &[Expand(HandlersEnd)],
    },
    Row {
        guard: Guard::Always,
        symbols: &[Read(THE_EXCEPT), Expand(Profile(Handler))],
    },
];

pub(crate) const DEFINITION_ROWS: &[Row] = &[Row {
    guard: Guard::Always,
    symbols: &[Read(THE_DEF), Expand(DefinitionRest)],
}];

pub(crate) const CLASS_DEFINITION_ROWS: &[Row] = &[Row {
    guard: Guard::Always,
    symbols: &[Read(THE_CLASS), Expand(ClassRest)],
}];

pub(crate) const BASE_LIST_ROWS: &[Row] = &[
    Row {
        guard: Guard::Always,
        symbols: &[Read(THE_CLOSE_PARENTHESIS), Do(Own(Drop)), Do(Own(Drop))],
    },
    Row {
        guard: Guard::Always,
        symbols: &[Expand(Profile(QualifiedName)), Expand(BaseEnd)],
    },
];

pub(crate) const BRIEF_ROWS: &[Row] = &[
    Row {
        guard: Guard::Always,
        symbols: &[
            Read(THE_PASS),
            Do(Own(MakePass)),
            Do(Own(AddStmt)),
            Read(NEWLINE),
            Do(Own(Drop)),
        ],
    },
    Row {
        guard: Guard::Always,
        symbols: &[Read(TEXT), Do(Own(MakeLeaf)), Expand(BriefText)],
    },
];

pub(crate) const IMPORT_STATEMENT_ROWS: &[Row] = &[
    Row {
        guard: Guard::Always,
        symbols: &[
            Read(THE_IMPORT),
            Do(Own(BeginImport)),
            Expand(Profile(ImportItem)),
            Expand(Profile(ImportNext)),
            Read(NEWLINE),
            Do(Own(Drop)),
        ],
    },
    Row {
        guard: Guard::Always,
        symbols: &[
            Read(THE_FROM),
            Expand(FromModule),
            Read(THE_IMPORT),
            Do(Own(BeginFrom)),
            Expand(FromItems),
            Read(NEWLINE),
            Do(Own(Drop)),
        ],
    },
];

pub(crate) const IMPORT_ITEM_ROWS: &[Row] = &[Row {
    guard: Guard::Always,
    symbols: &[Read(ASCII_NAME), Expand(ImportTail)],
}];

pub(crate) const SMALL_ROWS: &[Row] = &[
    Row {
        guard: Guard::Always,
        symbols: &[Expand(Profile(ExpressionList)), Expand(Profile(SmallTail))],
    },
    Row {
        guard: Guard::Always,
        symbols: &[Read(THE_PASS), Do(Own(MakePass))],
    },
    Row {
        guard: Guard::Always,
        symbols: &[Read(THE_BREAK), Do(Own(MakeBreak))],
    },
    Row {
        guard: Guard::Always,
        symbols: &[Read(THE_CONTINUE), Do(Own(MakeContinue))],
    },
    Row {
        guard: Guard::Always,
        symbols: &[Read(THE_RETURN), Expand(Profile(Returned))],
    },
    Row {
        guard: Guard::Always,
        symbols: &[Read(THE_RAISE), Expand(Raised)],
    },
    Row {
        guard: Guard::Always,
        symbols: &[Read(THE_YIELD), Expand(Yielded)],
    },
    Row {
        guard: Guard::Always,
        symbols: &[
            Read(THE_GLOBAL),
            Do(Own(BeginGlobal)),
            Expand(Profile(AnyName)),
            Do(Own(AddGlobal)),
            Expand(Profile(GlobalNext)),
        ],
    },
    Row {
        guard: Guard::Always,
        symbols: &[
            Read(THE_ASSERT),
            Expand(Profile(Expression)),
            Expand(Profile(AssertMessage)),
        ],
    },
    Row {
        guard: Guard::Always,
        symbols: &[Read(THE_DEL), Expand(Profile(Atom)), Expand(Deleted)],
    },
];

pub(crate) const SMALL_TAIL_ROWS: &[Row] = &[
    Row {
        guard: Guard::Always,
        symbols: &[Do(Own(MakeExprStmt))],
    },
    Row {
        guard: Guard::AreTargetsWith,
        symbols: &[
            Read(THE_EQUAL),
            Do(TellTargets),
            Do(Own(MakeTargets)),
            Expand(Assigned),
        ],
    },
    Row {
        guard: Guard::IsTargetWith,
        symbols: &[
            Read(THE_BAR_EQUAL),
            Do(TellTargets),
            Expand(RightSide),
            Do(Own(MakeAugmented(BinaryOperator::BitOr))),
        ],
    },
    Row {
        guard: Guard::IsTargetWith,
        symbols: &[
            Read(THE_CARET_EQUAL),
            Do(TellTargets),
            Expand(RightSide),
            Do(Own(MakeAugmented(BinaryOperator::BitXor))),
        ],
    },
    Row {
        guard: Guard::IsTargetWith,
        symbols: &[
            Read(THE_AMPERSAND_EQUAL),
            Do(TellTargets),
            Expand(RightSide),
            Do(Own(MakeAugmented(BinaryOperator::BitAnd))),
        ],
    },
    Row {
        guard: Guard::IsTargetWith,
        symbols: &[
            Read(THE_LEFT_SHIFT_EQUAL),
            Do(TellTargets),
            Expand(RightSide),
            Do(Own(MakeAugmented(BinaryOperator::LeftShift))),
        ],
    },
    Row {
        guard: Guard::IsTargetWith,
        symbols: &[
            Read(THE_RIGHT_SHIFT_EQUAL),
            Do(TellTargets),
            Expand(RightSide),
            Do(Own(MakeAugmented(BinaryOperator::RightShift))),
        ],
    },
    Row {
        guard: Guard::IsTargetWith,
        symbols: &[
            Read(THE_PLUS_EQUAL),
            Do(TellTargets),
            Expand(RightSide),
            Do(Own(MakeAugmented(BinaryOperator::Add))),
        ],
    },
    Row {
        guard: Guard::IsTargetWith,
        symbols: &[
            Read(THE_MINUS_EQUAL),
            Do(TellTargets),
            Expand(RightSide),
            Do(Own(MakeAugmented(BinaryOperator::Subtract))),
        ],
    },
    Row {
        guard: Guard::IsTargetWith,
        symbols: &[
            Read(THE_STAR_EQUAL),
            Do(TellTargets),
            Expand(RightSide),
            Do(Own(MakeAugmented(BinaryOperator::Multiply))),
        ],
    },
    Row {
        guard: Guard::IsTargetWith,
        symbols: &[
            Read(THE_DOUBLE_SLASH_EQUAL),
            Do(TellTargets),
            Expand(RightSide),
            Do(Own(MakeAugmented(BinaryOperator::FloorDivide))),
        ],
    },
    Row {
        guard: Guard::IsTargetWith,
        symbols: &[
            Read(THE_PERCENT_EQUAL),
            Do(TellTargets),
            Expand(RightSide),
            Do(Own(MakeAugmented(BinaryOperator::Modulo))),
        ],
    },
    Row {
        guard: Guard::IsTargetWith,
        symbols: &[
            Read(THE_DOUBLE_STAR_EQUAL),
            Do(TellTargets),
            Expand(RightSide),
            Do(Own(MakeAugmented(BinaryOperator::Power))),
        ],
    },
];

pub(crate) const ASSIGN_TAIL_ROWS: &[Row] = &[
    Row {
        guard: Guard::Always,
        symbols: &[Do(Own(MakeAssign))],
    },
    Row {
        guard: Guard::AreTargetsWith,
        symbols: &[
            Read(THE_EQUAL),
            Do(TellTargets),
            Do(Own(AddTargets)),
            Expand(Assigned),
        ],
    },
];

pub(crate) const DELETED_SUBSCRIPT_ROWS: &[Row] = &[
    Row {
        guard: Guard::Always,
        symbols: &[
            Expand(Profile(Expression)),
            Expand(Profile(DeletedSubscriptTail)),
        ],
    },
    Row {
        guard: Guard::Always,
        symbols: &[
            Read(THE_COLON),
            Do(Own(MakeSlice)),
            Expand(Profile(Upper)),
            Expand(DeletedSlice),
        ],
    },
];

pub(crate) const DELETED_SUBSCRIPT_TAIL_ROWS: &[Row] = &[
    Row {
        guard: Guard::Always,
        symbols: &[
            Read(THE_CLOSE_BRACKET),
            Do(Own(MakeSubscript)),
            Expand(Profile(DeletedEnd)),
        ],
    },
    Row {
        guard: Guard::Always,
        symbols: &[
            Read(THE_COLON),
            Do(Own(MakeSliceFrom)),
            Expand(Profile(Upper)),
            Expand(DeletedSlice),
        ],
    },
];

pub(crate) const BINDING_ROWS: &[Row] = &[
    Row {
        guard: Guard::Always,
        symbols: &[
            Expand(Profile(AnyName)),
            Do(Own(MakeLoopName)),
            Expand(Profile(BindingTail)),
        ],
    },
    Row {
        guard: Guard::Always,
        symbols: &[
            Read(THE_OPEN_PARENTHESIS),
            Expand(Profile(Binding)),
            Read(THE_CLOSE_PARENTHESIS),
            Do(Own(MakeLoopParenthesis)),
            Expand(BindingEnd),
        ],
    },
];

pub(crate) const UPPER_ROWS: &[Row] = &[
    Row {
        guard: Guard::Always,
        symbols: &[Read(THE_CLOSE_BRACKET), Do(Own(Drop))],
    },
    Row {
        guard: Guard::Always,
        symbols: &[Expand(Profile(Expression)), Expand(UpperEnd)],
    },
];

pub(crate) const ARGUMENT_TAIL_ROWS: &[Row] = &[
    Row {
        guard: Guard::Always,
        symbols: &[Do(Own(AddArgument))],
    },
    Row {
        guard: Guard::Always,
        symbols: &[
            Read(THE_COMMA),
            Do(Own(Drop)),
            Do(Own(AddArgument)),
            Expand(Profile(Arguments)),
        ],
    },
    Row {
        guard: Guard::IsName,
        symbols: &[
            Read(THE_EQUAL),
            Expand(Profile(Expression)),
            Do(Own(AddKeyword)),
            Expand(Profile(KeywordNext)),
        ],
    },
];

pub(crate) const ATOM_ROWS: &[Row] = &[
    Row {
        guard: Guard::Always,
        symbols: &[Expand(Profile(AnyName)), Do(Own(MakeLeaf))],
    },
    Row {
        guard: Guard::Always,
        symbols: &[Read(NUMBER), Do(Own(MakeLeaf))],
    },
    Row {
        guard: Guard::Always,
        symbols: &[Read(TEXT), Do(Own(MakeLeaf)), Expand(TextTail)],
    },
    Row {
        guard: Guard::Always,
        symbols: &[Read(THE_TRUE), Do(Own(MakeTrue))],
    },
    Row {
        guard: Guard::Always,
        symbols: &[Read(THE_FALSE), Do(Own(MakeFalse))],
    },
    Row {
        guard: Guard::Always,
        symbols: &[Read(THE_NONE), Do(Own(MakeNone))],
    },
    Row {
        guard: Guard::Always,
        symbols: &[Read(THE_OPEN_PARENTHESIS), Expand(Profile(Parenthesised))],
    },
    Row {
        guard: Guard::Always,
        symbols: &[Read(THE_OPEN_BRACKET), Expand(Profile(Bracketed))],
    },
    Row {
        guard: Guard::Always,
        symbols: &[Read(THE_OPEN_BRACE), Expand(Profile(Braced))],
    },
];

pub(crate) const PARENTHESISED_ROWS: &[Row] = &[
    Row {
        guard: Guard::Always,
        symbols: &[Read(THE_CLOSE_PARENTHESIS), Do(Own(MakeEmptyTuple))],
    },
    Row {
        guard: Guard::Always,
        symbols: &[Expand(NamedExpression), Expand(Profile(ParenthesisedTail))],
    },
];

pub(crate) const PARENTHESISED_TAIL_ROWS: &[Row] = &[
    Row {
        guard: Guard::Always,
        symbols: &[Read(THE_CLOSE_PARENTHESIS), Do(Own(MakeParenthesis))],
    },
    Row {
        guard: Guard::Always,
        symbols: &[
            Read(THE_COMMA),
            Do(Own(MakeTuple)),
            Expand(NamedItemMore),
            Read(THE_CLOSE_PARENTHESIS),
            Do(Own(MakeParenthesis)),
        ],
    },
];

pub(crate) const BRACKETED_ROWS: &[Row] = &[
    Row {
        guard: Guard::Always,
        symbols: &[Read(THE_CLOSE_BRACKET), Do(Own(MakeEmptyList))],
    },
    Row {
        guard: Guard::Always,
        symbols: &[Expand(NamedExpression), Expand(Profile(BracketedTail))],
    },
];

pub(crate) const BRACKETED_TAIL_ROWS: &[Row] = &[
    Row {
        guard: Guard::Always,
        symbols: &[Read(THE_CLOSE_BRACKET), Do(Own(MakeListOfOne))],
    },
    Row {
        guard: Guard::Always,
        symbols: &[
            Read(THE_COMMA),
            Do(Own(MakeTuple)),
            Expand(NamedItemMore),
            Read(THE_CLOSE_BRACKET),
            Do(Own(MakeList)),
        ],
    },
    Row {
        guard: Guard::Always,
        symbols: &[
            Do(Own(BeginComprehension)),
            Expand(Profile(Comprehension)),
            Expand(Profile(Comprehensions)),
            Read(THE_CLOSE_BRACKET),
            Do(Own(Drop)),
        ],
    },
];

pub(crate) const BRACED_TAIL_ROWS: &[Row] = &[
    Row {
        guard: Guard::Always,
        symbols: &[Read(THE_CLOSE_BRACE), Do(Own(MakeSetOfOne))],
    },
    Row {
        guard: Guard::Always,
        symbols: &[
            Read(THE_COMMA),
            Do(Own(MakeTuple)),
            Expand(NamedItemMore),
            Read(THE_CLOSE_BRACE),
            Do(Own(MakeSet)),
        ],
    },
    Row {
        guard: Guard::Always,
        symbols: &[
            Read(THE_COLON),
            Expand(Profile(Expression)),
            Do(Own(BeginDict)),
            Expand(FirstPairNext),
            Read(THE_CLOSE_BRACE),
            Do(Own(Drop)),
        ],
    },
];

pub(crate) const CONDITIONS_ROWS: &[Row] = &[
    Row {
        guard: Guard::Always,
        symbols: &[],
    },
    Row {
        guard: Guard::Always,
        symbols: &[
            Read(THE_IF),
            Expand(Profile(OrTest)),
            Expand(NamedCondition),
            Do(Own(AddCondition)),
            Expand(Profile(Conditions)),
        ],
    },
];
