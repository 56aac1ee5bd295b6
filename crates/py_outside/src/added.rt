//! The rows that each construct adds. `tools/additions.py` writes this file from `tools/grammar.txt` and `tools/additions.txt`.

ghost use Rattle.std.specs.Prelude.{◌≡◌, map};
ghost use Rattle.py_constructs.specs.Table.{additions, widening_of};
ghost use Rattle.py_outside.specs.PlainConstructs.{plain_construct};
ghost use Rattle.py_outside.specs.PlainSymbols.{plain_added};
ghost use Rattle.py_outside.specs.PlainValues.{plain_widening};
ghost use Rattle.py_outside.specs.Sights.{spread};

use crate::construct::Construct;
use crate::symbol::AddedRow;
use crate::targets::Widening;
use crate::{added_literals, added_members, added_parts, added_statements};

pub(crate) fn rows_added(construct: Construct) -> &'static [AddedRow]
    ensures { map (plain_added (widening_of (additions (plain_construct construct)))) result.now ≡ spread (additions (plain_construct construct)) }
{
    match construct {
        Construct::Float => added_literals::FLOAT_ROWS,
        Construct::Imaginary => added_literals::IMAGINARY_ROWS,
        Construct::Bytes => added_literals::BYTES_ROWS,
        Construct::FormattedText => added_literals::FORMATTED_TEXT_ROWS,
        Construct::Division => added_literals::DIVISION_ROWS,
        Construct::MatrixProduct => added_literals::MATRIX_PRODUCT_ROWS,
        Construct::Decorator => added_literals::DECORATOR_ROWS,
        Construct::Lambda => added_literals::LAMBDA_ROWS,
        Construct::NestedDefinition => added_literals::NESTED_DEFINITION_ROWS,
        Construct::NestedClass => added_literals::NESTED_CLASS_ROWS,
        Construct::StarParameter => added_literals::STAR_PARAMETER_ROWS,
        Construct::StarArgument => added_literals::STAR_ARGUMENT_ROWS,
        Construct::MethodKeyword => added_literals::METHOD_KEYWORD_ROWS,
        Construct::Annotation => added_members::ANNOTATION_ROWS,
        Construct::ClassAttribute => added_members::CLASS_ATTRIBUTE_ROWS,
        Construct::SeveralBases => added_members::SEVERAL_BASES_ROWS,
        Construct::ClassKeyword => added_members::CLASS_KEYWORD_ROWS,
        Construct::SliceStep => added_statements::SLICE_STEP_ROWS,
        Construct::SliceTarget => added_statements::SLICE_TARGET_ROWS,
        Construct::LoopElse => added_statements::LOOP_ELSE_ROWS,
        Construct::TryElse => added_statements::TRY_ELSE_ROWS,
        Construct::Finally => added_statements::FINALLY_ROWS,
        Construct::With => added_statements::WITH_ROWS,
        Construct::Async => added_statements::ASYNC_ROWS,
        Construct::Await => added_statements::AWAIT_ROWS,
        Construct::Nonlocal => added_statements::NONLOCAL_ROWS,
        Construct::YieldExpression => added_statements::YIELD_EXPRESSION_ROWS,
        Construct::YieldFrom => added_statements::YIELD_FROM_ROWS,
        Construct::GeneratorExpression => added_parts::GENERATOR_EXPRESSION_ROWS,
        Construct::SetComprehension => added_parts::SET_COMPREHENSION_ROWS,
        Construct::DictComprehension => added_parts::DICT_COMPREHENSION_ROWS,
        Construct::Walrus => added_parts::WALRUS_ROWS,
        Construct::StarImport => added_parts::STAR_IMPORT_ROWS,
        Construct::RelativeImport => added_parts::RELATIVE_IMPORT_ROWS,
        Construct::DottedImport => added_parts::DOTTED_IMPORT_ROWS,
        Construct::NestedImport => added_parts::NESTED_IMPORT_ROWS,
        Construct::NonasciiModule => added_parts::NONASCII_MODULE_ROWS,
        Construct::BareRaise => added_parts::BARE_RAISE_ROWS,
        Construct::RaiseFrom => added_parts::RAISE_FROM_ROWS,
        Construct::ExceptTuple => added_parts::EXCEPT_TUPLE_ROWS,
        Construct::DeleteName => added_parts::DELETE_NAME_ROWS,
        Construct::NestedTarget => added_parts::NESTED_TARGET_ROWS,
        Construct::StarredTarget => added_parts::STARRED_TARGET_ROWS,
        Construct::Ellipsis => added_parts::ELLIPSIS_ROWS,
    }
}

/// What a construct lets be targets besides the profile's.
pub(crate) fn widening_by(construct: Construct) -> Widening
    ensures { plain_widening result ≡ widening_of (additions (plain_construct construct)) }
{
    match construct {
        Construct::SliceTarget => Widening::Slices,
        Construct::NestedTarget => Widening::Brackets,
        Construct::Float
        | Construct::Imaginary
        | Construct::Bytes
        | Construct::FormattedText
        | Construct::Division
        | Construct::MatrixProduct
        | Construct::Decorator
        | Construct::Lambda
        | Construct::NestedDefinition
        | Construct::NestedClass
        | Construct::StarParameter
        | Construct::StarArgument
        | Construct::MethodKeyword
        | Construct::Annotation
        | Construct::ClassAttribute
        | Construct::SeveralBases
        | Construct::ClassKeyword
        | Construct::SliceStep
        | Construct::LoopElse
        | Construct::TryElse
        | Construct::Finally
        | Construct::With
        | Construct::Async
        | Construct::Await
        | Construct::Nonlocal
        | Construct::YieldExpression
        | Construct::YieldFrom
        | Construct::GeneratorExpression
        | Construct::SetComprehension
        | Construct::DictComprehension
        | Construct::Walrus
        | Construct::StarImport
        | Construct::RelativeImport
        | Construct::DottedImport
        | Construct::NestedImport
        | Construct::NonasciiModule
        | Construct::BareRaise
        | Construct::RaiseFrom
        | Construct::ExceptTuple
        | Construct::DeleteName
        | Construct::StarredTarget
        | Construct::Ellipsis => Widening::Nothing,
    }
}
