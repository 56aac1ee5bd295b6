//! The operators that are built.

ghost use Rattle.std.specs.Prelude.{◌≡◌};
ghost use Rattle.std.specs.Option.{option_map};
ghost use Rattle.py_meaning.specs.Built.{built_binary, built_comparison};
ghost use Rattle.py_ast.specs.PlainOperators as whole_operators;
ghost use Rattle.py_built.specs.PlainTrees.{plain_binary, plain_comparison};

use crate::tree::{BinaryOperator, Comparison};
use py_ast as whole;

/// An operator between two values, if it is built.
pub(crate) fn build_binary(operator: whole::BinaryOperator) -> Option<BinaryOperator>
    ensures { option_map plain_binary result ≡ built_binary (whole_operators.plain_binary operator) }
{
    match operator {
        whole::BinaryOperator::Add => Some(BinaryOperator::Add),
        whole::BinaryOperator::Subtract => Some(BinaryOperator::Subtract),
        whole::BinaryOperator::Multiply => Some(BinaryOperator::Multiply),
        _ => None,
    }
}

/// A comparison, if it is built.
pub(crate) fn build_comparison(operator: whole::ComparisonOperator) -> Option<Comparison>
    ensures { option_map plain_comparison result ≡ built_comparison (whole_operators.plain_comparison operator) }
{
    match operator {
        whole::ComparisonOperator::Less => Some(Comparison::LessThan),
        whole::ComparisonOperator::LessOrEqual => Some(Comparison::AtMost),
        whole::ComparisonOperator::Greater => Some(Comparison::GreaterThan),
        whole::ComparisonOperator::GreaterOrEqual => Some(Comparison::AtLeast),
        whole::ComparisonOperator::Equal => Some(Comparison::EqualTo),
        whole::ComparisonOperator::NotEqual => Some(Comparison::NotEqualTo),
        _ => None,
    }
}
