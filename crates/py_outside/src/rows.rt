//! The rows of each name, with no construct added. `tools/additions.py` writes this file from `tools/grammar.txt` and `tools/additions.txt`.

ghost use Rattle.std.specs.Prelude.{◌≡◌};
ghost use Rattle.py_constructs.specs.Table.{rows_of as rows_of_name, rows_between};
ghost use Rattle.py_constructs.specs.Values.{Widening};
ghost use Rattle.py_table.specs.PlainSymbols.{plain_nonterminal};
ghost use Rattle.py_outside.specs.PlainSymbols.{plain_name, plain_rows};

use crate::symbol::{Name, Rows};
use crate::{argument_rows, changed_rows, place_rows, statement_rows, target_rows};
use py_table::rows;
use py_table::symbol::Nonterminal;

/// The rows of one of the profile's nonterminals.
fn rows_of_nonterminal(nonterminal: Nonterminal) -> Rows
    ensures { (w : Widening) → plain_rows w result ≡ rows_between w (plain_nonterminal nonterminal) }
{
    match nonterminal {
        Nonterminal::Compound => Rows::Own(changed_rows::COMPOUND_ROWS),
        Nonterminal::Otherwise => Rows::Own(changed_rows::OTHERWISE_ROWS),
        Nonterminal::Suite => Rows::Own(changed_rows::SUITE_ROWS),
        Nonterminal::Statement => Rows::Own(changed_rows::STATEMENT_ROWS),
        Nonterminal::Handler => Rows::Own(changed_rows::HANDLER_ROWS),
        Nonterminal::MoreHandlers => Rows::Own(changed_rows::MORE_HANDLERS_ROWS),
        Nonterminal::Definition => Rows::Own(changed_rows::DEFINITION_ROWS),
        Nonterminal::ClassDefinition => Rows::Own(changed_rows::CLASS_DEFINITION_ROWS),
        Nonterminal::BaseList => Rows::Own(changed_rows::BASE_LIST_ROWS),
        Nonterminal::Brief => Rows::Own(changed_rows::BRIEF_ROWS),
        Nonterminal::ImportStatement => Rows::Own(changed_rows::IMPORT_STATEMENT_ROWS),
        Nonterminal::ImportItem => Rows::Own(changed_rows::IMPORT_ITEM_ROWS),
        Nonterminal::Small => Rows::Own(changed_rows::SMALL_ROWS),
        Nonterminal::SmallTail => Rows::Own(changed_rows::SMALL_TAIL_ROWS),
        Nonterminal::AssignTail => Rows::Own(changed_rows::ASSIGN_TAIL_ROWS),
        Nonterminal::DeletedSubscript => Rows::Own(changed_rows::DELETED_SUBSCRIPT_ROWS),
        Nonterminal::DeletedSubscriptTail => Rows::Own(changed_rows::DELETED_SUBSCRIPT_TAIL_ROWS),
        Nonterminal::Binding => Rows::Own(changed_rows::BINDING_ROWS),
        Nonterminal::Upper => Rows::Own(changed_rows::UPPER_ROWS),
        Nonterminal::ArgumentTail => Rows::Own(changed_rows::ARGUMENT_TAIL_ROWS),
        Nonterminal::Atom => Rows::Own(changed_rows::ATOM_ROWS),
        Nonterminal::Parenthesised => Rows::Own(changed_rows::PARENTHESISED_ROWS),
        Nonterminal::ParenthesisedTail => Rows::Own(changed_rows::PARENTHESISED_TAIL_ROWS),
        Nonterminal::Bracketed => Rows::Own(changed_rows::BRACKETED_ROWS),
        Nonterminal::BracketedTail => Rows::Own(changed_rows::BRACKETED_TAIL_ROWS),
        Nonterminal::BracedTail => Rows::Own(changed_rows::BRACED_TAIL_ROWS),
        Nonterminal::Conditions => Rows::Own(changed_rows::CONDITIONS_ROWS),
        Nonterminal::Module
        | Nonterminal::TopStatement
        | Nonterminal::Statements
        | Nonterminal::HandlerAlias
        | Nonterminal::QualifiedName
        | Nonterminal::QualifiedNameTail
        | Nonterminal::ParameterList
        | Nonterminal::ParameterNext
        | Nonterminal::ParameterItem
        | Nonterminal::ParameterDefault
        | Nonterminal::ClassBase
        | Nonterminal::ClassSuite
        | Nonterminal::Member
        | Nonterminal::Members
        | Nonterminal::ImportAlias
        | Nonterminal::ImportNext
        | Nonterminal::FromItem
        | Nonterminal::FromNext
        | Nonterminal::Line
        | Nonterminal::LineTail
        | Nonterminal::LineMore
        | Nonterminal::Returned
        | Nonterminal::GlobalNext
        | Nonterminal::AssertMessage
        | Nonterminal::DeletedTail
        | Nonterminal::DeletedAttribute
        | Nonterminal::DeletedEnd
        | Nonterminal::BindingTail
        | Nonterminal::BindingMore
        | Nonterminal::BindingNext
        | Nonterminal::ExpressionList
        | Nonterminal::ExpressionListTail
        | Nonterminal::ItemMore
        | Nonterminal::ItemNext
        | Nonterminal::Expression
        | Nonterminal::ExpressionTail
        | Nonterminal::OrTest
        | Nonterminal::OrTail
        | Nonterminal::OrMore
        | Nonterminal::AndTest
        | Nonterminal::AndTail
        | Nonterminal::AndMore
        | Nonterminal::NotTest
        | Nonterminal::Comparison
        | Nonterminal::ComparisonTail
        | Nonterminal::ComparisonMore
        | Nonterminal::ComparisonSign
        | Nonterminal::IsTail
        | Nonterminal::OrExpr
        | Nonterminal::OrExprTail
        | Nonterminal::XorExpr
        | Nonterminal::XorExprTail
        | Nonterminal::AndExpr
        | Nonterminal::AndExprTail
        | Nonterminal::ShiftExpr
        | Nonterminal::ShiftTail
        | Nonterminal::Sum
        | Nonterminal::SumTail
        | Nonterminal::Product
        | Nonterminal::ProductTail
        | Nonterminal::Factor
        | Nonterminal::PowerExpr
        | Nonterminal::PowerTail
        | Nonterminal::Primary
        | Nonterminal::PrimaryTail
        | Nonterminal::AttributeTail
        | Nonterminal::Subscription
        | Nonterminal::SubscriptionTail
        | Nonterminal::Arguments
        | Nonterminal::KeywordNext
        | Nonterminal::KeywordMore
        | Nonterminal::PlainArguments
        | Nonterminal::PlainArgumentTail
        | Nonterminal::Braced
        | Nonterminal::PairNext
        | Nonterminal::PairMore
        | Nonterminal::Comprehension
        | Nonterminal::Comprehensions
        | Nonterminal::AnyName => Rows::Profile(rows::rows_of(nonterminal)),
    }
}

/// The rows of a name.
pub(crate) fn rows_of(name: Name) -> Rows
    ensures { (w : Widening) → plain_rows w result ≡ rows_of_name w (plain_name name) }
{
    match name {
        Name::Profile(nonterminal) => rows_of_nonterminal(nonterminal),
        Name::NamedExpression => Rows::Own(place_rows::NAMED_EXPRESSION_ROWS),
        Name::Named => Rows::Own(place_rows::NAMED_ROWS),
        Name::NamedCondition => Rows::Own(place_rows::NAMED_CONDITION_ROWS),
        Name::NamedItemMore => Rows::Own(place_rows::NAMED_ITEM_MORE_ROWS),
        Name::NamedItemNext => Rows::Own(place_rows::NAMED_ITEM_NEXT_ROWS),
        Name::LoopElse => Rows::Own(place_rows::LOOP_ELSE_ROWS),
        Name::TryTail => Rows::Own(place_rows::TRY_TAIL_ROWS),
        Name::HandlersEnd => Rows::Own(place_rows::HANDLERS_END_ROWS),
        Name::BlockLine => Rows::Own(place_rows::BLOCK_LINE_ROWS),
        Name::BlockLineTail => Rows::Own(place_rows::BLOCK_LINE_TAIL_ROWS),
        Name::BlockLineMore => Rows::Own(place_rows::BLOCK_LINE_MORE_ROWS),
        Name::BlockSmall => Rows::Own(place_rows::BLOCK_SMALL_ROWS),
        Name::DefinitionRest => Rows::Own(place_rows::DEFINITION_REST_ROWS),
        Name::Arrow => Rows::Own(place_rows::ARROW_ROWS),
        Name::ClassRest => Rows::Own(place_rows::CLASS_REST_ROWS),
        Name::BaseEnd => Rows::Own(place_rows::BASE_END_ROWS),
        Name::BriefText => Rows::Own(place_rows::BRIEF_TEXT_ROWS),
        Name::FromModule => Rows::Own(place_rows::FROM_MODULE_ROWS),
        Name::FromDots => Rows::Own(place_rows::FROM_DOTS_ROWS),
        Name::FromItems => Rows::Own(place_rows::FROM_ITEMS_ROWS),
        Name::ImportTail => Rows::Own(place_rows::IMPORT_TAIL_ROWS),
        Name::Raised => Rows::Own(place_rows::RAISED_ROWS),
        Name::RaisedTail => Rows::Own(place_rows::RAISED_TAIL_ROWS),
        Name::Yielded => Rows::Own(place_rows::YIELDED_ROWS),
        Name::Deleted => Rows::Own(place_rows::DELETED_ROWS),
        Name::DeletedSlice => Rows::Own(place_rows::DELETED_SLICE_ROWS),
        Name::BindingEnd => Rows::Own(place_rows::BINDING_END_ROWS),
        Name::Assigned => Rows::Own(place_rows::ASSIGNED_ROWS),
        Name::RightSide => Rows::Own(place_rows::RIGHT_SIDE_ROWS),
        Name::UpperEnd => Rows::Own(place_rows::UPPER_END_ROWS),
        Name::TextTail => Rows::Own(place_rows::TEXT_TAIL_ROWS),
        Name::FirstPairNext => Rows::Own(place_rows::FIRST_PAIR_NEXT_ROWS),
        Name::MoreBytes => Rows::Own(argument_rows::MORE_BYTES_ROWS),
        Name::MoreTexts => Rows::Own(argument_rows::MORE_TEXTS_ROWS),
        Name::Decorated => Rows::Own(argument_rows::DECORATED_ROWS),
        Name::DecoratedMember => Rows::Own(argument_rows::DECORATED_MEMBER_ROWS),
        Name::LambdaParameters => Rows::Own(argument_rows::LAMBDA_PARAMETERS_ROWS),
        Name::LambdaDefault => Rows::Own(argument_rows::LAMBDA_DEFAULT_ROWS),
        Name::LambdaNext => Rows::Own(argument_rows::LAMBDA_NEXT_ROWS),
        Name::StarName => Rows::Own(argument_rows::STAR_NAME_ROWS),
        Name::StarNext => Rows::Own(argument_rows::STAR_NEXT_ROWS),
        Name::StarMore => Rows::Own(argument_rows::STAR_MORE_ROWS),
        Name::StarEnd => Rows::Own(argument_rows::STAR_END_ROWS),
        Name::ArgumentsNext => Rows::Own(argument_rows::ARGUMENTS_NEXT_ROWS),
        Name::PairsNext => Rows::Own(argument_rows::PAIRS_NEXT_ROWS),
        Name::PairsMore => Rows::Own(argument_rows::PAIRS_MORE_ROWS),
        Name::PlainNext => Rows::Own(argument_rows::PLAIN_NEXT_ROWS),
        Name::PlainPairsNext => Rows::Own(argument_rows::PLAIN_PAIRS_NEXT_ROWS),
        Name::PlainPairsMore => Rows::Own(argument_rows::PLAIN_PAIRS_MORE_ROWS),
        Name::PlainKeywordNext => Rows::Own(argument_rows::PLAIN_KEYWORD_NEXT_ROWS),
        Name::PlainKeywordMore => Rows::Own(argument_rows::PLAIN_KEYWORD_MORE_ROWS),
        Name::AnnotatedDefault => Rows::Own(target_rows::ANNOTATED_DEFAULT_ROWS),
        Name::AnnotatedValue => Rows::Own(target_rows::ANNOTATED_VALUE_ROWS),
        Name::AnnotatedMember => Rows::Own(target_rows::ANNOTATED_MEMBER_ROWS),
        Name::AnnotatedBracket => Rows::Own(target_rows::ANNOTATED_BRACKET_ROWS),
        Name::ClassTargets => Rows::Own(target_rows::CLASS_TARGETS_ROWS),
        Name::ClassItems => Rows::Own(target_rows::CLASS_ITEMS_ROWS),
        Name::ClassItemNext => Rows::Own(target_rows::CLASS_ITEM_NEXT_ROWS),
        Name::ClassBracket => Rows::Own(target_rows::CLASS_BRACKET_ROWS),
        Name::Target => Rows::Own(target_rows::TARGET_ROWS),
        Name::TargetTail => Rows::Own(target_rows::TARGET_TAIL_ROWS),
        Name::TargetAttribute => Rows::Own(target_rows::TARGET_ATTRIBUTE_ROWS),
        Name::TargetEnd => Rows::Own(target_rows::TARGET_END_ROWS),
        Name::TargetSubscript => Rows::Own(target_rows::TARGET_SUBSCRIPT_ROWS),
        Name::TargetSubscriptTail => Rows::Own(target_rows::TARGET_SUBSCRIPT_TAIL_ROWS),
        Name::MoreBases => Rows::Own(target_rows::MORE_BASES_ROWS),
        Name::BasesNext => Rows::Own(target_rows::BASES_NEXT_ROWS),
        Name::ClassKeywordBase => Rows::Own(target_rows::CLASS_KEYWORD_BASE_ROWS),
        Name::ClassKeywordTail => Rows::Own(target_rows::CLASS_KEYWORD_TAIL_ROWS),
        Name::ClassKeywordNext => Rows::Own(target_rows::CLASS_KEYWORD_NEXT_ROWS),
        Name::ClassKeywordMore => Rows::Own(target_rows::CLASS_KEYWORD_MORE_ROWS),
        Name::Step => Rows::Own(statement_rows::STEP_ROWS),
        Name::UpperStep => Rows::Own(statement_rows::UPPER_STEP_ROWS),
        Name::WithItem => Rows::Own(statement_rows::WITH_ITEM_ROWS),
        Name::WithTarget => Rows::Own(statement_rows::WITH_TARGET_ROWS),
        Name::WithBinding => Rows::Own(statement_rows::WITH_BINDING_ROWS),
        Name::WithBracket => Rows::Own(statement_rows::WITH_BRACKET_ROWS),
        Name::WithNext => Rows::Own(statement_rows::WITH_NEXT_ROWS),
        Name::AsyncStatement => Rows::Own(statement_rows::ASYNC_STATEMENT_ROWS),
        Name::YieldValue => Rows::Own(statement_rows::YIELD_VALUE_ROWS),
        Name::HeadedLoop => Rows::Own(statement_rows::HEADED_LOOP_ROWS),
        Name::LoopConditions => Rows::Own(statement_rows::LOOP_CONDITIONS_ROWS),
        Name::LoopMore => Rows::Own(statement_rows::LOOP_MORE_ROWS),
        Name::WalrusArgument => Rows::Own(statement_rows::WALRUS_ARGUMENT_ROWS),
        Name::PlainWalrusArgument => Rows::Own(statement_rows::PLAIN_WALRUS_ARGUMENT_ROWS),
        Name::WalrusSet => Rows::Own(statement_rows::WALRUS_SET_ROWS),
        Name::RelativeModule => Rows::Own(statement_rows::RELATIVE_MODULE_ROWS),
        Name::ExceptNext => Rows::Own(statement_rows::EXCEPT_NEXT_ROWS),
        Name::ExceptMore => Rows::Own(statement_rows::EXCEPT_MORE_ROWS),
        Name::DeletedRest => Rows::Own(statement_rows::DELETED_REST_ROWS),
        Name::DeletedNames => Rows::Own(statement_rows::DELETED_NAMES_ROWS),
        Name::DeletedNamesNext => Rows::Own(statement_rows::DELETED_NAMES_NEXT_ROWS),
        Name::DeletedName => Rows::Own(statement_rows::DELETED_NAME_ROWS),
        Name::StarTargets => Rows::Own(statement_rows::STAR_TARGETS_ROWS),
        Name::StarTargetMore => Rows::Own(statement_rows::STAR_TARGET_MORE_ROWS),
    }
}
