//! What each action asks of the parts that it takes, and each nonterminal that is closed, the last first.

ghost use Rattle.std.specs.Prelude.{◌≡◌};
ghost use Rattle.py_demands.specs.Closing.{asks_exactly};
ghost use Rattle.py_demands.specs.Roles as asking;
ghost use Rattle.py_table.specs.PlainSymbols.{plain_action, plain_nonterminal};
ghost use Rattle.py_front_depth.specs.PlainRoles.{plain_roles};

use crate::role::Role::{
    self, Apart, ApartBelow, Below, BelowApart, BelowLoose, Head, HeadApart, Kept, Lost, Turned,
};
use py_depth::event::Label::{Bracket, Plain, Tuple};
use py_table::symbol::{Action, Nonterminal};

const DROP: &[Role] = &[Lost];

const MAKE_LEAF: &[Role] = &[Head(Plain)];

const MAKE_EMPTY_TUPLE: &[Role] = &[Lost, Head(Plain)];

const MAKE_PARENTHESIS: &[Role] = &[Lost, Below(Bracket), Head(Bracket)];

const MAKE_TUPLE: &[Role] = &[Head(Tuple), Below(Tuple)];

const ADD_ITEM: &[Role] = &[Below(Tuple), Kept];

const MAKE_EMPTY_LIST: &[Role] = &[Lost, Head(Bracket)];

const MAKE_LIST: &[Role] = &[Lost, BelowLoose(Bracket), Head(Bracket)];

const BEGIN_COMPREHENSION: &[Role] = &[Below(Plain), Head(Plain)];

const BEGIN_LOOP: &[Role] = &[Apart, Lost, Apart, Lost];

const ADD_CONDITION: &[Role] = &[Apart, Lost, Kept];

const ADD_LOOP: &[Role] = &[Below(Plain), Kept];

const BEGIN_DICT: &[Role] = &[BelowApart, Lost, BelowApart, Head(Plain)];

const ADD_PAIR: &[Role] = &[BelowApart, Lost, BelowApart, Kept];

const MAKE_SET_OF_ONE: &[Role] = &[Lost, BelowApart, Head(Plain)];

const MAKE_SET: &[Role] = &[Lost, BelowLoose(Plain), Head(Plain)];

const MAKE_ATTRIBUTE: &[Role] = &[Lost, Head(Plain), Below(Plain)];

const BEGIN_CALL: &[Role] = &[Head(Plain), Below(Plain)];

const ADD_KEYWORD: &[Role] = &[Below(Plain), Lost, Lost, Kept];

const MAKE_SUBSCRIPT: &[Role] = &[Lost, Below(Plain), Head(Plain), Below(Plain)];

const ADD_UPPER: &[Role] = &[Lost, Below(Plain), Kept];

const MAKE_BINARY: &[Role] = &[Below(Plain), Head(Plain), Below(Plain)];

const MAKE_SIGN: &[Role] = &[Kept];

const MAKE_LONG_SIGN: &[Role] = &[Lost, Kept];

const ADD_LINK: &[Role] = &[Below(Plain), Lost, Kept];

const MAKE_CONDITIONAL: &[Role] = &[Below(Plain), Lost, Below(Plain), Head(Plain), Below(Plain)];

const MAKE_LOOP_NAMES: &[Role] = &[Lost, Apart];

const ADD_LOOP_NAME: &[Role] = &[HeadApart(Plain), Kept];

const MAKE_LOOP_PARENTHESIS: &[Role] = &[Lost, Below(Plain), Head(Plain)];

const BEGIN_BODY: &[Role] = &[];

const ADD_STMT: &[Role] = &[Apart, Kept];

const MAKE_EXPR_STMT: &[Role] = &[Below(Plain)];

const MAKE_TARGETS: &[Role] = &[Lost, Turned];

const ADD_TARGETS: &[Role] = &[Lost, Turned, Kept];

const MAKE_ASSIGN: &[Role] = &[Below(Plain), Below(Plain)];

const MAKE_AUGMENTED: &[Role] = &[Below(Plain), Lost, Below(Plain)];

const MAKE_ASSERT_MESSAGE: &[Role] = &[Below(Plain), Lost, Below(Plain), Head(Plain)];

const MAKE_IF: &[Role] = &[Below(Plain), Below(Plain), Lost, Below(Plain), Head(Plain)];

const MAKE_ELIF: &[Role] = &[ApartBelow, ApartBelow, Lost, ApartBelow, HeadApart(Plain)];

const MAKE_ELSE: &[Role] = &[Kept, Lost, Lost];

const MAKE_FOR: &[Role] = &[
    Below(Plain),
    Lost,
    Below(Plain),
    Lost,
    Below(Plain),
    Head(Plain),
];

const BEGIN_TRY: &[Role] = &[Below(Plain), Lost, Head(Plain)];

const CATCH: &[Role] = &[Below(Plain), Lost, Lost, Lost, Kept];

const CATCH_AS: &[Role] = &[Below(Plain), Lost, Lost, Lost, Lost, Lost, Kept];

const MAKE_CLASS_WITHIN: &[Role] = &[Lost, Lost, Lost];

const BEGIN_DEF: &[Role] = &[Lost, Lost, Head(Plain)];

const ADD_BASE: &[Role] = &[Lost, Lost, Lost, Kept];

const HANDLER_ALIAS: &[Role] = &[Lost, Lost, Kept];

const PARENTHESISED: &[Role] = &[Head(Bracket)];

const PARENTHESISED_TAIL: &[Role] = &[Below(Bracket), Head(Bracket)];

const BRACED_TAIL: &[Role] = &[BelowApart, Head(Plain)];

/// What an action asks of the parts that it takes.
pub(crate) fn roles(action: Action) -> &'static [Role]
    ensures { plain_roles result.now ≡ asking.roles (plain_action action) }
{
    match action {
        Action::Drop | Action::MakeClassName => DROP,
        Action::MakeLeaf
        | Action::MakeTrue
        | Action::MakeFalse
        | Action::MakeNone
        | Action::MakeLoopName
        | Action::MakePass
        | Action::MakeBreak
        | Action::MakeContinue
        | Action::MakeReturn
        | Action::BeginGlobal
        | Action::BeginImport => MAKE_LEAF,
        Action::MakeEmptyTuple | Action::MakeEmptyDict | Action::BeginClass => MAKE_EMPTY_TUPLE,
        Action::MakeParenthesis | Action::MakeListOfOne => MAKE_PARENTHESIS,
        Action::MakeTuple => MAKE_TUPLE,
        Action::AddItem => ADD_ITEM,
        Action::MakeEmptyList => MAKE_EMPTY_LIST,
        Action::MakeList => MAKE_LIST,
        Action::BeginComprehension
        | Action::MakeUnary(_)
        | Action::MakeNot
        | Action::MakeReturnValue
        | Action::MakeRaise
        | Action::MakeYield
        | Action::MakeAssert
        | Action::MakeDelete => BEGIN_COMPREHENSION,
        Action::BeginLoop => BEGIN_LOOP,
        Action::AddCondition => ADD_CONDITION,
        Action::AddLoop | Action::AddArgument => ADD_LOOP,
        Action::BeginDict => BEGIN_DICT,
        Action::AddPair => ADD_PAIR,
        Action::MakeSetOfOne => MAKE_SET_OF_ONE,
        Action::MakeSet => MAKE_SET,
        Action::MakeAttribute | Action::MakeSlice => MAKE_ATTRIBUTE,
        Action::BeginCall => BEGIN_CALL,
        Action::AddKeyword | Action::CatchAll | Action::AddDefault | Action::EndDef => ADD_KEYWORD,
        Action::MakeSubscript | Action::MakeSliceFrom => MAKE_SUBSCRIPT,
        Action::AddUpper => ADD_UPPER,
        Action::MakeBinary(_) | Action::MakeCompare | Action::MakeAnd | Action::MakeOr =>
            MAKE_BINARY,
        Action::MakeSign(_) => MAKE_SIGN,
        Action::MakeLongSign(_) | Action::AddGlobal | Action::AddParameter | Action::AddImported =>
            MAKE_LONG_SIGN,
        Action::AddLink | Action::AddAnd | Action::AddOr | Action::EndClass => ADD_LINK,
        Action::MakeConditional => MAKE_CONDITIONAL,
        Action::MakeLoopNames => MAKE_LOOP_NAMES,
        Action::AddLoopName => ADD_LOOP_NAME,
        Action::MakeLoopParenthesis => MAKE_LOOP_PARENTHESIS,
        Action::BeginBody => BEGIN_BODY,
        Action::AddStmt => ADD_STMT,
        Action::MakeExprStmt => MAKE_EXPR_STMT,
        Action::MakeTargets => MAKE_TARGETS,
        Action::AddTargets => ADD_TARGETS,
        Action::MakeAssign => MAKE_ASSIGN,
        Action::MakeAugmented(_) => MAKE_AUGMENTED,
        Action::MakeAssertMessage | Action::MakeWhile => MAKE_ASSERT_MESSAGE,
        Action::MakeIf => MAKE_IF,
        Action::MakeElif => MAKE_ELIF,
        Action::MakeElse => MAKE_ELSE,
        Action::MakeFor => MAKE_FOR,
        Action::BeginTry => BEGIN_TRY,
        Action::Catch => CATCH,
        Action::CatchAs => CATCH_AS,
        Action::MakeClassWithin => MAKE_CLASS_WITHIN,
        Action::BeginDef | Action::BeginFrom => BEGIN_DEF,
        Action::AddBase | Action::AddImportedAs => ADD_BASE,
    }
}

/// What a nonterminal that is closed asks of the parts that it takes.
pub(crate) fn closing_roles(nonterminal: Nonterminal) -> &'static [Role]
    ensures { plain_roles result.now ≡ asks_exactly (plain_nonterminal nonterminal) }
{
    match nonterminal {
        Nonterminal::Module
        | Nonterminal::TopStatement
        | Nonterminal::Statements
        | Nonterminal::Statement
        | Nonterminal::MoreHandlers
        | Nonterminal::QualifiedNameTail
        | Nonterminal::ParameterList
        | Nonterminal::ParameterNext
        | Nonterminal::ParameterItem
        | Nonterminal::ClassBase
        | Nonterminal::Member
        | Nonterminal::Members
        | Nonterminal::Brief
        | Nonterminal::ImportItem
        | Nonterminal::ImportNext
        | Nonterminal::FromItem
        | Nonterminal::FromNext
        | Nonterminal::Line
        | Nonterminal::LineTail
        | Nonterminal::LineMore
        | Nonterminal::GlobalNext
        | Nonterminal::DeletedEnd
        | Nonterminal::BindingTail
        | Nonterminal::BindingMore
        | Nonterminal::BindingNext
        | Nonterminal::ExpressionListTail
        | Nonterminal::ItemMore
        | Nonterminal::ItemNext
        | Nonterminal::ExpressionTail
        | Nonterminal::OrTail
        | Nonterminal::OrMore
        | Nonterminal::AndTail
        | Nonterminal::AndMore
        | Nonterminal::ComparisonTail
        | Nonterminal::ComparisonMore
        | Nonterminal::IsTail
        | Nonterminal::OrExprTail
        | Nonterminal::XorExprTail
        | Nonterminal::AndExprTail
        | Nonterminal::ShiftTail
        | Nonterminal::SumTail
        | Nonterminal::ProductTail
        | Nonterminal::PowerTail
        | Nonterminal::PrimaryTail
        | Nonterminal::AttributeTail
        | Nonterminal::Upper
        | Nonterminal::Arguments
        | Nonterminal::KeywordNext
        | Nonterminal::KeywordMore
        | Nonterminal::PlainArguments
        | Nonterminal::PairNext
        | Nonterminal::PairMore
        | Nonterminal::Comprehension
        | Nonterminal::Conditions
        | Nonterminal::Comprehensions => MAKE_SIGN,
        Nonterminal::Compound => BEGIN_BODY,
        Nonterminal::Otherwise => BEGIN_BODY,
        Nonterminal::Suite => BEGIN_BODY,
        Nonterminal::QualifiedName => BEGIN_BODY,
        Nonterminal::Definition => BEGIN_BODY,
        Nonterminal::ClassDefinition => BEGIN_BODY,
        Nonterminal::ClassSuite => BEGIN_BODY,
        Nonterminal::ImportStatement => BEGIN_BODY,
        Nonterminal::Small => BEGIN_BODY,
        Nonterminal::Binding => BEGIN_BODY,
        Nonterminal::ExpressionList => BEGIN_BODY,
        Nonterminal::Expression => BEGIN_BODY,
        Nonterminal::OrTest => BEGIN_BODY,
        Nonterminal::AndTest => BEGIN_BODY,
        Nonterminal::NotTest => BEGIN_BODY,
        Nonterminal::Comparison => BEGIN_BODY,
        Nonterminal::ComparisonSign => BEGIN_BODY,
        Nonterminal::OrExpr => BEGIN_BODY,
        Nonterminal::XorExpr => BEGIN_BODY,
        Nonterminal::AndExpr => BEGIN_BODY,
        Nonterminal::ShiftExpr => BEGIN_BODY,
        Nonterminal::Sum => BEGIN_BODY,
        Nonterminal::Product => BEGIN_BODY,
        Nonterminal::Factor => BEGIN_BODY,
        Nonterminal::PowerExpr => BEGIN_BODY,
        Nonterminal::Primary => BEGIN_BODY,
        Nonterminal::Atom => BEGIN_BODY,
        Nonterminal::AnyName => BEGIN_BODY,
        Nonterminal::Handler
        | Nonterminal::ParameterDefault
        | Nonterminal::BaseList
        | Nonterminal::ImportAlias => MAKE_LONG_SIGN,
        Nonterminal::HandlerAlias => HANDLER_ALIAS,
        Nonterminal::SmallTail | Nonterminal::DeletedTail | Nonterminal::DeletedAttribute =>
            MAKE_EXPR_STMT,
        Nonterminal::AssignTail => MAKE_ASSIGN,
        Nonterminal::Returned | Nonterminal::Braced => MAKE_LEAF,
        Nonterminal::AssertMessage => BEGIN_COMPREHENSION,
        Nonterminal::DeletedSubscript | Nonterminal::Subscription => BEGIN_CALL,
        Nonterminal::DeletedSubscriptTail | Nonterminal::SubscriptionTail => MAKE_BINARY,
        Nonterminal::ArgumentTail | Nonterminal::PlainArgumentTail => ADD_LOOP,
        Nonterminal::Parenthesised | Nonterminal::Bracketed => PARENTHESISED,
        Nonterminal::ParenthesisedTail | Nonterminal::BracketedTail => PARENTHESISED_TAIL,
        Nonterminal::BracedTail => BRACED_TAIL,
    }
}
