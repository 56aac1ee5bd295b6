//! A stack of parts, the last on top.

ghost use Rattle.std.specs.Prelude.{ℕ, ◌≡◌, List, [], ◌∷◌, get_or, IfOk, OnOk};
ghost use Rattle.py_syntax.specs.Token.{At, TName};
ghost use Rattle.py_syntax.specs.Build.{PToken, PExpr, PSign, PLoop, PLoopTarget, PTargets, PClass, PStmt, PBody};
ghost use Rattle.py_lexer.specs.PlainTokens.{plain_place};
ghost use Rattle.py_table.specs.PlainTokens.{is_ascii, plain_token};
ghost use Rattle.py_ast.specs.PlainOperators.{plain_comparison};
ghost use Rattle.py_ast.specs.PlainExprs.{plain_expr, plain_exprs, plain_loop_target};
ghost use Rattle.py_ast.specs.PlainTrees.{plain_target_lists, plain_class, plain_stmt, plain_body};
ghost use Rattle.parser_parts.specs.PlainParts.{plain_part, parts_of};

use py_ast::{ClassName, ComparisonOperator, Expr, LoopTarget, NameAt, Stmt, Targets};
use py_lexer::token::{Token, TokenKind};
use shed_base::Place;
use sqlite_items::{Boxed, Items};
use std::alloc::{AllocError, Global};

/// What is built so far of a module.
#[derive(Debug, Drop)]
pub enum Part<'a> {
    /// A token that is in no tree yet.
    Token(&'a Token),
    Expr(Expr),
    /// The operator of a comparison.
    Sign(Place, ComparisonOperator),
    /// A loop of a comprehension: what it binds, what it goes over, and its conditions.
    Loop(Place, LoopTarget, Expr, Items<Expr>),
    LoopTarget(LoopTarget),
    /// What stands before the `=` of an assignment so far, with the place of its first token.
    Targets(Place, Items<Targets>),
    Class(ClassName),
    /// A statement that is in no body yet; it may want parts that come.
    Stmt(Stmt),
    Body(Items<Stmt>),
}

// Each of these takes the last part, which is of this sort. No other comes: the answer is then want of memory.

/// A token.
#[tactic(auto, using(crate::proofs::Stacks::stacks))]
pub fn pop_token<'a>(parts: &mut Vec<Part<'a>>) -> Result<&'a Token, AllocError>
    ensures { IfOk result (λ t. (texts : List (List ℕ)) → parts_of texts parts.old.items ≡ PToken (plain_token texts t.now) ∷ parts_of texts parts.new.items) }
{
    match parts.pop() {
        Some(Part::Token(token)) => Ok(token),
        _other => Err(AllocError),
    }
}

/// A name, which is in no tree yet.
#[tactic(auto, using(crate::proofs::Stacks::stacks))]
pub fn pop_name(parts: &mut Vec<Part<'_>>) -> Result<NameAt, AllocError>
    ensures { IfOk result (λ x. (texts : List (List ℕ)) → parts_of texts parts.old.items ≡ PToken (At (plain_place x.place) (TName (is_ascii (get_or texts x.name.0 [])) x.name.0)) ∷ parts_of texts parts.new.items) }
{
    let token = pop_token(parts)?;
    match &token.kind {
        TokenKind::Name(name) => Ok(NameAt {
            place: token.place,
            name: *name,
        }),
        _other => Err(AllocError),
    }
}

/// An expression.
#[tactic(auto, using(crate::proofs::Stacks::stacks))]
pub fn pop_expr(parts: &mut Vec<Part<'_>>) -> Result<Expr, AllocError>
    ensures { IfOk result (λ e. (texts : List (List ℕ)) → parts_of texts parts.old.items ≡ PExpr (plain_expr e) ∷ parts_of texts parts.new.items) }
{
    match parts.pop() {
        Some(Part::Expr(expr)) => Ok(expr),
        _other => Err(AllocError),
    }
}

/// What a loop binds.
#[tactic(auto, using(crate::proofs::Stacks::stacks))]
pub fn pop_loop_target(parts: &mut Vec<Part<'_>>) -> Result<LoopTarget, AllocError>
    ensures { IfOk result (λ t. (texts : List (List ℕ)) → parts_of texts parts.old.items ≡ PLoopTarget (plain_loop_target t) ∷ parts_of texts parts.new.items) }
{
    match parts.pop() {
        Some(Part::LoopTarget(target)) => Ok(target),
        _other => Err(AllocError),
    }
}

/// The name of a class.
#[tactic(auto, using(crate::proofs::Stacks::stacks))]
pub fn pop_class(parts: &mut Vec<Part<'_>>) -> Result<ClassName, AllocError>
    ensures { IfOk result (λ c. (texts : List (List ℕ)) → parts_of texts parts.old.items ≡ PClass (plain_class c) ∷ parts_of texts parts.new.items) }
{
    match parts.pop() {
        Some(Part::Class(class)) => Ok(class),
        _other => Err(AllocError),
    }
}

/// A statement.
#[tactic(auto, using(crate::proofs::Stacks::stacks))]
pub fn pop_stmt(parts: &mut Vec<Part<'_>>) -> Result<Stmt, AllocError>
    ensures { IfOk result (λ s. (texts : List (List ℕ)) → parts_of texts parts.old.items ≡ PStmt (plain_stmt s) ∷ parts_of texts parts.new.items) }
{
    match parts.pop() {
        Some(Part::Stmt(statement)) => Ok(statement),
        _other => Err(AllocError),
    }
}

/// A body.
#[tactic(auto, using(crate::proofs::Stacks::stacks))]
pub fn pop_body(parts: &mut Vec<Part<'_>>) -> Result<Items<Stmt>, AllocError>
    ensures { IfOk result (λ b. (texts : List (List ℕ)) → parts_of texts parts.old.items ≡ PBody (plain_body b) ∷ parts_of texts parts.new.items) }
{
    match parts.pop() {
        Some(Part::Body(body)) => Ok(body),
        _other => Err(AllocError),
    }
}

/// The operator of a comparison.
#[tactic(auto, using(crate::proofs::Stacks::stacks))]
pub fn pop_sign(parts: &mut Vec<Part<'_>>) -> Result<(Place, ComparisonOperator), AllocError>
    ensures { IfOk result (λ s. (texts : List (List ℕ)) → parts_of texts parts.old.items ≡ PSign (plain_place s.0) (plain_comparison s.1) ∷ parts_of texts parts.new.items) }
{
    match parts.pop() {
        Some(Part::Sign(place, operator)) => Ok((place, operator)),
        _other => Err(AllocError),
    }
}

/// A loop of a comprehension.
#[tactic(auto, using(crate::proofs::Stacks::stacks))]
pub fn pop_loop(
    parts: &mut Vec<Part<'_>>,
) -> Result<(Place, LoopTarget, Expr, Items<Expr>), AllocError>
    ensures { IfOk result (λ l. (texts : List (List ℕ)) → parts_of texts parts.old.items ≡ PLoop (plain_place l.0) (plain_loop_target l.1) (plain_expr l.2) (plain_exprs l.3) ∷ parts_of texts parts.new.items) }
{
    match parts.pop() {
        Some(Part::Loop(place, target, iterable, conditions)) => {
            Ok((place, target, iterable, conditions))
        }
        _other => Err(AllocError),
    }
}

/// What stands before an `=`, with its place.
#[tactic(auto, using(crate::proofs::Stacks::stacks))]
pub fn pop_targets(parts: &mut Vec<Part<'_>>) -> Result<(Place, Items<Targets>), AllocError>
    ensures { IfOk result (λ t. (texts : List (List ℕ)) → parts_of texts parts.old.items ≡ PTargets (plain_place t.0) (plain_target_lists t.1) ∷ parts_of texts parts.new.items) }
{
    match parts.pop() {
        Some(Part::Targets(place, targets)) => Ok((place, targets)),
        _other => Err(AllocError),
    }
}

// What often stands together is taken together: then no more than one function has to let go of what it holds.

/// A word and the expression behind it.
#[tactic(auto)]
pub fn pop_value<'a>(parts: &mut Vec<Part<'a>>) -> Result<(&'a Token, Expr), AllocError>
    ensures { IfOk result (λ r. (texts : List (List ℕ)) → parts_of texts parts.old.items ≡ PExpr (plain_expr r.1) ∷ PToken (plain_token texts r.0.now) ∷ parts_of texts parts.new.items) }
{
    let expr = pop_expr(parts)?;
    let word = pop_token(parts)?;
    Ok((word, expr))
}

/// Two expressions.
#[tactic(auto)]
pub fn pop_two(parts: &mut Vec<Part<'_>>) -> Result<(Expr, Expr), AllocError>
    ensures { IfOk result (λ r. (texts : List (List ℕ)) → parts_of texts parts.old.items ≡ PExpr (plain_expr r.1) ∷ PExpr (plain_expr r.0) ∷ parts_of texts parts.new.items) }
{
    let last = pop_expr(parts)?;
    let before = pop_expr(parts)?;
    Ok((before, last))
}

/// Two expressions and the token between them.
#[tactic(auto)]
pub fn pop_operands<'a>(parts: &mut Vec<Part<'a>>) -> Result<(Expr, &'a Token, Expr), AllocError>
    ensures { IfOk result (λ r. (texts : List (List ℕ)) → parts_of texts parts.old.items ≡ PExpr (plain_expr r.2) ∷ PToken (plain_token texts r.1.now) ∷ PExpr (plain_expr r.0) ∷ parts_of texts parts.new.items) }
{
    let (sign, right) = pop_value(parts)?;
    let left = pop_expr(parts)?;
    Ok((left, sign, right))
}

/// A word and the expression behind it.
#[tactic(auto)]
pub fn box_value<'a>(
    alloc: Global,
    parts: &mut Vec<Part<'a>>,
) -> Result<(&'a Token, Boxed<Expr>), AllocError>
    ensures { IfOk result (λ r. (texts : List (List ℕ)) → parts_of texts parts.old.items ≡ PExpr (plain_expr r.1) ∷ PToken (plain_token texts r.0.now) ∷ parts_of texts parts.new.items) }
{
    let (word, expr) = pop_value(parts)?;
    let expr = Boxed::new(alloc, expr)?;
    Ok((word, expr))
}

/// Two expressions and the token between them.
#[tactic(auto)]
pub fn box_operands<'a>(
    alloc: Global,
    parts: &mut Vec<Part<'a>>,
) -> Result<(Boxed<Expr>, &'a Token, Boxed<Expr>), AllocError>
    ensures { IfOk result (λ r. (texts : List (List ℕ)) → parts_of texts parts.old.items ≡ PExpr (plain_expr r.2) ∷ PToken (plain_token texts r.1.now) ∷ PExpr (plain_expr r.0) ∷ parts_of texts parts.new.items) }
{
    let (sign, right) = box_value(alloc, parts)?;
    let left = Boxed::new(alloc, pop_expr(parts)?)?;
    Ok((left, sign, right))
}

/// A word, what a loop binds, the word before what it goes over, and that.
#[tactic(auto)]
pub fn pop_binding<'a>(
    parts: &mut Vec<Part<'a>>,
) -> Result<(&'a Token, LoopTarget, &'a Token, Expr), AllocError>
    ensures { IfOk result (λ r. (texts : List (List ℕ)) → parts_of texts parts.old.items ≡ PExpr (plain_expr r.3) ∷ PToken (plain_token texts r.2.now) ∷ PLoopTarget (plain_loop_target r.1) ∷ PToken (plain_token texts r.0.now) ∷ parts_of texts parts.new.items) }
{
    let (joint, iterable) = pop_value(parts)?;
    let target = pop_loop_target(parts)?;
    let word = pop_token(parts)?;
    Ok((word, target, joint, iterable))
}

/// A word, what is tested, the colon, and the body behind it.
#[tactic(auto)]
pub fn pop_branch<'a>(
    parts: &mut Vec<Part<'a>>,
) -> Result<(&'a Token, Expr, &'a Token, Items<Stmt>), AllocError>
    ensures { IfOk result (λ r. (texts : List (List ℕ)) → parts_of texts parts.old.items ≡ PBody (plain_body r.3) ∷ PToken (plain_token texts r.2.now) ∷ PExpr (plain_expr r.1) ∷ PToken (plain_token texts r.0.now) ∷ parts_of texts parts.new.items) }
{
    let body = pop_body(parts)?;
    let colon = pop_token(parts)?;
    let (word, test) = pop_value(parts)?;
    Ok((word, test, colon, body))
}

/// Puts a part on top.
#[tactic(auto, using(crate::proofs::Stacks::stacks))]
pub fn push<'a>(parts: &mut Vec<Part<'a>>, part: Part<'a>) -> Result<(), AllocError>
    ensures { OnOk result ((texts : List (List ℕ)) → parts_of texts parts.new.items ≡ plain_part texts part.entry ∷ parts_of texts parts.old.items) }
{
    parts.push(part)?;
    Ok(())
}

/// A list of one item.
pub fn one<T: Drop>(alloc: Global, item: T) -> Result<Items<T>, AllocError>
    ensures { IfOk result (λ items. items ≡ item ∷ []) }
{
    let mut items = Items::new(alloc);
    items.push(item)?;
    Ok(items)
}
