//! The actions that build what stands on operands: attributes, calls, subscripts, slices and operators. Each takes what it needs
//! from the top of the stack; where that is not there, which never comes, the answer is want of memory.

ghost use Rattle.std.specs.Prelude.{ℕ, ◌≡◌, List, ◌∷◌, IfOk, OnOk};
ghost use Rattle.py_syntax.specs.Token.{Token};
ghost use Rattle.py_syntax.specs.Tree.{EName};
ghost use Rattle.py_syntax.specs.Build as build;
ghost use Rattle.py_lexer.specs.PlainTokens.{plain_place};
ghost use Rattle.py_ast.specs.PlainOperators.{plain_unary, plain_binary, plain_comparison};
ghost use Rattle.py_ast.specs.PlainExprs.{plain_expr};
ghost use Rattle.parser_parts.specs.PlainParts.{parts_of};

use parser_parts::{
    Part, box_operands, box_value, one, pop_expr, pop_name, pop_operands, pop_sign, pop_token,
    pop_two, push,
};
use py_ast::{BinaryOperator, ComparisonOperator, Expr, NameAt, UnaryOperator};
use sqlite_items::{Boxed, Items};
use std::alloc::{AllocError, Global};

/// `e.x`
#[tactic(auto, using(py_ast::specs::PlainExprs::plain_exprs_by_variant, py_ast::specs::PlainExprs::plain_loop_targets, py_ast::proofs::Pushes::pushes))]
pub fn make_attribute(alloc: Global, parts: &mut Vec<Part<'_>>) -> Result<(), AllocError>
    ensures { OnOk result ((texts : List (List ℕ)) → parts_of texts parts.new.items ≡ build.make_attribute (parts_of texts parts.old.items)) }
{
    let name = pop_name(parts)?;
    let dot = pop_token(parts)?;
    let object = Boxed::new(alloc, pop_expr(parts)?)?;
    push(parts, Part::Expr(Expr::Attribute(dot.place, object, name)))
}

/// `f(`, before its arguments.
#[tactic(auto, using(py_ast::specs::PlainExprs::plain_exprs_by_variant, py_ast::specs::PlainExprs::plain_loop_targets, py_ast::proofs::Pushes::pushes))]
pub fn begin_call(alloc: Global, parts: &mut Vec<Part<'_>>) -> Result<(), AllocError>
    ensures { OnOk result ((texts : List (List ℕ)) → parts_of texts parts.new.items ≡ build.begin_call (parts_of texts parts.old.items)) }
{
    let opening = pop_token(parts)?;
    let callee = Boxed::new(alloc, pop_expr(parts)?)?;
    push(
        parts,
        Part::Expr(Expr::Call(opening.place, callee, Items::new(alloc), Items::new(alloc))),
    )
}

/// One more argument of a call, by its place.
#[tactic(auto, using(py_ast::specs::PlainExprs::plain_exprs_by_variant, py_ast::specs::PlainExprs::plain_loop_targets, py_ast::proofs::Pushes::pushes))]
pub fn add_argument(parts: &mut Vec<Part<'_>>) -> Result<(), AllocError>
    ensures { OnOk result ((texts : List (List ℕ)) → parts_of texts parts.new.items ≡ build.add_argument (parts_of texts parts.old.items)) }
{
    let (call, argument) = pop_two(parts)?;
    match call {
        Expr::Call(place, callee, mut arguments, keywords) => {
            arguments.push(argument)?;
            push(
                parts,
                Part::Expr(Expr::Call(place, callee, arguments, keywords)),
            )
        }
        _other => Err(AllocError),
    }
}

/// Takes the name of an argument, which was read as an expression.
#[tactic(auto, using(py_ast::specs::PlainExprs::plain_exprs_by_variant))]
fn pop_keyword(parts: &mut Vec<Part<'_>>) -> Result<NameAt, AllocError>
    ensures { IfOk result (λ x. (texts : List (List ℕ)) → parts_of texts parts.old.items ≡ build.PExpr (EName (plain_place x.place) x.name.0) ∷ parts_of texts parts.new.items) }
{
    match pop_expr(parts)? {
        Expr::Name(place, name) => Ok(NameAt { place, name }),
        _other => Err(AllocError),
    }
}

/// A call with one more argument by name.
#[tactic(auto, using(py_ast::specs::PlainExprs::plain_exprs_by_variant, py_ast::proofs::Pushes::pushes))]
fn with_keyword(call: Expr, name: NameAt, value: Expr) -> Result<Expr, AllocError>
    ensures { IfOk result (λ e. (equals : Token) (v : build.Parts) → build.PExpr (plain_expr e) ∷ v ≡ build.add_keyword (build.PExpr (plain_expr value) ∷ build.PToken equals ∷ build.PExpr (EName (plain_place name.place) name.name.0) ∷ build.PExpr (plain_expr call) ∷ v)) }
{
    match call {
        Expr::Call(place, callee, arguments, mut keywords) => {
            keywords.push((name, value))?;
            Ok(Expr::Call(place, callee, arguments, keywords))
        }
        _other => Err(AllocError),
    }
}

/// `x=e`, one more argument of a call, by its name.
#[tactic(auto, using(py_ast::specs::PlainExprs::plain_exprs_by_variant, py_ast::specs::PlainExprs::plain_loop_targets, py_ast::proofs::Pushes::pushes))]
pub fn add_keyword(parts: &mut Vec<Part<'_>>) -> Result<(), AllocError>
    ensures { OnOk result ((texts : List (List ℕ)) → parts_of texts parts.new.items ≡ build.add_keyword (parts_of texts parts.old.items)) }
{
    let value = pop_expr(parts)?;
    pop_token(parts)?;
    let name = pop_keyword(parts)?;
    let before = pop_expr(parts)?;
    let call = with_keyword(before, name, value)?;
    push(parts, Part::Expr(call))
}

/// `e[i]`
#[tactic(auto, using(py_ast::specs::PlainExprs::plain_exprs_by_variant, py_ast::specs::PlainExprs::plain_loop_targets, py_ast::proofs::Pushes::pushes))]
pub fn make_subscript(alloc: Global, parts: &mut Vec<Part<'_>>) -> Result<(), AllocError>
    ensures { OnOk result ((texts : List (List ℕ)) → parts_of texts parts.new.items ≡ build.make_subscript (parts_of texts parts.old.items)) }
{
    pop_token(parts)?;
    let (object, opening, index) = box_operands(alloc, parts)?;
    push(
        parts,
        Part::Expr(Expr::Subscript(opening.place, object, index)),
    )
}

/// `e[a:`
#[tactic(auto, using(py_ast::specs::PlainExprs::plain_exprs_by_variant, py_ast::specs::PlainExprs::plain_loop_targets, py_ast::proofs::Pushes::pushes))]
pub fn make_slice_from(alloc: Global, parts: &mut Vec<Part<'_>>) -> Result<(), AllocError>
    ensures { OnOk result ((texts : List (List ℕ)) → parts_of texts parts.new.items ≡ build.make_slice_from (parts_of texts parts.old.items)) }
{
    pop_token(parts)?;
    let (object, opening, lower) = box_operands(alloc, parts)?;
    push(
        parts,
        Part::Expr(Expr::Slice(opening.place, object, Some(lower), None)),
    )
}

/// `e[:`
#[tactic(auto, using(py_ast::specs::PlainExprs::plain_exprs_by_variant, py_ast::specs::PlainExprs::plain_loop_targets, py_ast::proofs::Pushes::pushes))]
pub fn make_slice(alloc: Global, parts: &mut Vec<Part<'_>>) -> Result<(), AllocError>
    ensures { OnOk result ((texts : List (List ℕ)) → parts_of texts parts.new.items ≡ build.make_slice (parts_of texts parts.old.items)) }
{
    pop_token(parts)?;
    let opening = pop_token(parts)?;
    let object = Boxed::new(alloc, pop_expr(parts)?)?;
    push(
        parts,
        Part::Expr(Expr::Slice(opening.place, object, None, None)),
    )
}

/// A slice with its upper bound, of which it had none.
fn with_upper(slice: Expr, upper: Boxed<Expr>) -> Result<Expr, AllocError>
    ensures { IfOk result (λ e. (close : Token) (v : build.Parts) → build.PExpr (plain_expr e) ∷ v ≡ build.add_upper (build.PToken close ∷ build.PExpr (plain_expr upper) ∷ build.PExpr (plain_expr slice) ∷ v)) }
{
    match slice {
        Expr::Slice(place, object, lower, bound) => match bound {
            None => Ok(Expr::Slice(place, object, lower, Some(upper))),
            Some(_bound) => Err(AllocError),
        },
        _other => Err(AllocError),
    }
}

/// Where a slice ends.
#[tactic(auto, using(py_ast::specs::PlainExprs::plain_exprs_by_variant, py_ast::specs::PlainExprs::plain_loop_targets, py_ast::proofs::Pushes::pushes))]
pub fn add_upper(alloc: Global, parts: &mut Vec<Part<'_>>) -> Result<(), AllocError>
    ensures { OnOk result ((texts : List (List ℕ)) → parts_of texts parts.new.items ≡ build.add_upper (parts_of texts parts.old.items)) }
{
    pop_token(parts)?;
    let upper = Boxed::new(alloc, pop_expr(parts)?)?;
    let before = pop_expr(parts)?;
    let slice = with_upper(before, upper)?;
    push(parts, Part::Expr(slice))
}

/// An operator before its operand.
#[tactic(auto, using(py_ast::specs::PlainExprs::plain_exprs_by_variant, py_ast::specs::PlainExprs::plain_loop_targets, py_ast::proofs::Pushes::pushes))]
pub fn make_unary(
    alloc: Global,
    operator: UnaryOperator,
    parts: &mut Vec<Part<'_>>,
) -> Result<(), AllocError>
    ensures { OnOk result ((texts : List (List ℕ)) → parts_of texts parts.new.items ≡ build.make_unary (plain_unary operator) (parts_of texts parts.old.items)) }
{
    let (sign, operand) = box_value(alloc, parts)?;
    push(
        parts,
        Part::Expr(Expr::Unary(sign.place, operator, operand)),
    )
}

/// An operator between its operands.
#[tactic(auto, using(py_ast::specs::PlainExprs::plain_exprs_by_variant, py_ast::specs::PlainExprs::plain_loop_targets, py_ast::proofs::Pushes::pushes))]
pub fn make_binary(
    alloc: Global,
    operator: BinaryOperator,
    parts: &mut Vec<Part<'_>>,
) -> Result<(), AllocError>
    ensures { OnOk result ((texts : List (List ℕ)) → parts_of texts parts.new.items ≡ build.make_binary (plain_binary operator) (parts_of texts parts.old.items)) }
{
    let (left, sign, right) = box_operands(alloc, parts)?;
    push(
        parts,
        Part::Expr(Expr::Binary(sign.place, operator, left, right)),
    )
}

/// The operator of a comparison, of one token.
#[tactic(auto, using(py_ast::specs::PlainExprs::plain_exprs_by_variant, py_ast::specs::PlainExprs::plain_loop_targets, py_ast::proofs::Pushes::pushes))]
pub fn make_sign(operator: ComparisonOperator, parts: &mut Vec<Part<'_>>) -> Result<(), AllocError>
    ensures { OnOk result ((texts : List (List ℕ)) → parts_of texts parts.new.items ≡ build.make_sign (plain_comparison operator) (parts_of texts parts.old.items)) }
{
    let sign = pop_token(parts)?;
    push(parts, Part::Sign(sign.place, operator))
}

/// The operator of a comparison, of two words.
#[tactic(auto, using(py_ast::specs::PlainExprs::plain_exprs_by_variant, py_ast::specs::PlainExprs::plain_loop_targets, py_ast::proofs::Pushes::pushes))]
pub fn make_long_sign(
    operator: ComparisonOperator,
    parts: &mut Vec<Part<'_>>,
) -> Result<(), AllocError>
    ensures { OnOk result ((texts : List (List ℕ)) → parts_of texts parts.new.items ≡ build.make_long_sign (plain_comparison operator) (parts_of texts parts.old.items)) }
{
    pop_token(parts)?;
    let word = pop_token(parts)?;
    push(parts, Part::Sign(word.place, operator))
}

/// `a < b`
#[tactic(auto, using(parser_parts::proofs::Stacks::stacks, py_ast::specs::PlainExprs::plain_exprs_by_variant, py_ast::specs::PlainExprs::plain_loop_targets, py_ast::proofs::Pushes::pushes))]
pub fn make_compare(alloc: Global, parts: &mut Vec<Part<'_>>) -> Result<(), AllocError>
    ensures { OnOk result ((texts : List (List ℕ)) → parts_of texts parts.new.items ≡ build.make_compare (parts_of texts parts.old.items)) }
{
    let right = Boxed::new(alloc, pop_expr(parts)?)?;
    let (place, operator) = pop_sign(parts)?;
    let left = Boxed::new(alloc, pop_expr(parts)?)?;
    push(
        parts,
        Part::Expr(Expr::Compare(place, operator, left, right, Items::new(alloc))),
    )
}

/// `< c`, one more comparison of a chain.
#[tactic(auto, using(parser_parts::proofs::Stacks::stacks, py_ast::specs::PlainExprs::plain_exprs_by_variant, py_ast::specs::PlainExprs::plain_loop_targets, py_ast::proofs::Pushes::pushes))]
pub fn add_link(parts: &mut Vec<Part<'_>>) -> Result<(), AllocError>
    ensures { OnOk result ((texts : List (List ℕ)) → parts_of texts parts.new.items ≡ build.add_link (parts_of texts parts.old.items)) }
{
    let operand = pop_expr(parts)?;
    let (sign, operator) = pop_sign(parts)?;
    match pop_expr(parts)? {
        Expr::Compare(place, first, left, right, mut links) => {
            links.push((sign, operator, operand))?;
            push(
                parts,
                Part::Expr(Expr::Compare(place, first, left, right, links)),
            )
        }
        _other => Err(AllocError),
    }
}

/// `not e`
#[tactic(auto, using(py_ast::specs::PlainExprs::plain_exprs_by_variant, py_ast::specs::PlainExprs::plain_loop_targets, py_ast::proofs::Pushes::pushes))]
pub fn make_not(alloc: Global, parts: &mut Vec<Part<'_>>) -> Result<(), AllocError>
    ensures { OnOk result ((texts : List (List ℕ)) → parts_of texts parts.new.items ≡ build.make_not (parts_of texts parts.old.items)) }
{
    let (word, operand) = box_value(alloc, parts)?;
    push(parts, Part::Expr(Expr::Not(word.place, operand)))
}

/// `a and b`
#[tactic(auto, using(py_ast::specs::PlainExprs::plain_exprs_by_variant, py_ast::specs::PlainExprs::plain_loop_targets, py_ast::proofs::Pushes::pushes))]
pub fn make_and(alloc: Global, parts: &mut Vec<Part<'_>>) -> Result<(), AllocError>
    ensures { OnOk result ((texts : List (List ℕ)) → parts_of texts parts.new.items ≡ build.make_and (parts_of texts parts.old.items)) }
{
    let (left, word, right) = box_operands(alloc, parts)?;
    push(
        parts,
        Part::Expr(Expr::And(word.place, left, right, Items::new(alloc))),
    )
}

/// `and c`, one more operand.
#[tactic(auto, using(py_ast::specs::PlainExprs::plain_exprs_by_variant, py_ast::specs::PlainExprs::plain_loop_targets, py_ast::proofs::Pushes::pushes))]
pub fn add_and(parts: &mut Vec<Part<'_>>) -> Result<(), AllocError>
    ensures { OnOk result ((texts : List (List ℕ)) → parts_of texts parts.new.items ≡ build.add_and (parts_of texts parts.old.items)) }
{
    let (before, _word, operand) = pop_operands(parts)?;
    match before {
        Expr::And(place, left, right, mut more) => {
            more.push(operand)?;
            push(parts, Part::Expr(Expr::And(place, left, right, more)))
        }
        _other => Err(AllocError),
    }
}

/// `a or b`
#[tactic(auto, using(py_ast::specs::PlainExprs::plain_exprs_by_variant, py_ast::specs::PlainExprs::plain_loop_targets, py_ast::proofs::Pushes::pushes))]
pub fn make_or(alloc: Global, parts: &mut Vec<Part<'_>>) -> Result<(), AllocError>
    ensures { OnOk result ((texts : List (List ℕ)) → parts_of texts parts.new.items ≡ build.make_or (parts_of texts parts.old.items)) }
{
    let (left, word, right) = box_operands(alloc, parts)?;
    push(
        parts,
        Part::Expr(Expr::Or(word.place, left, right, Items::new(alloc))),
    )
}

/// `or c`, one more operand.
#[tactic(auto, using(py_ast::specs::PlainExprs::plain_exprs_by_variant, py_ast::specs::PlainExprs::plain_loop_targets, py_ast::proofs::Pushes::pushes))]
pub fn add_or(parts: &mut Vec<Part<'_>>) -> Result<(), AllocError>
    ensures { OnOk result ((texts : List (List ℕ)) → parts_of texts parts.new.items ≡ build.add_or (parts_of texts parts.old.items)) }
{
    let (before, _word, operand) = pop_operands(parts)?;
    match before {
        Expr::Or(place, left, right, mut more) => {
            more.push(operand)?;
            push(parts, Part::Expr(Expr::Or(place, left, right, more)))
        }
        _other => Err(AllocError),
    }
}

/// `a if t else b`
#[tactic(auto, using(py_ast::specs::PlainExprs::plain_exprs_by_variant, py_ast::specs::PlainExprs::plain_loop_targets, py_ast::proofs::Pushes::pushes))]
pub fn make_conditional(alloc: Global, parts: &mut Vec<Part<'_>>) -> Result<(), AllocError>
    ensures { OnOk result ((texts : List (List ℕ)) → parts_of texts parts.new.items ≡ build.make_conditional (parts_of texts parts.old.items)) }
{
    let (test, _else, other) = box_operands(alloc, parts)?;
    let word = pop_token(parts)?;
    let value = Boxed::new(alloc, pop_expr(parts)?)?;
    push(
        parts,
        Part::Expr(Expr::Conditional(word.place, value, test, other)),
    )
}
