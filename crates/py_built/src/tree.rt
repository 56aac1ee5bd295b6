//! Trees of the part of the language that is built. They serve until the whole language is.
//!
//! Each node has the place of its head token, and names are texts.

use shed_base::Place;
use sqlite_items::{Boxed, Items};

/// An operator before its operand.
#[derive(Clone, Copy, Debug, PartialEq, Eq)]
pub enum UnaryOperator {
    Negative,
}

/// An operator between two operands.
#[derive(Clone, Copy, Debug, PartialEq, Eq)]
pub enum BinaryOperator {
    Add,
    Subtract,
    Multiply,
}

/// A comparison of two operands.
#[derive(Clone, Copy, Debug, PartialEq, Eq)]
pub enum Comparison {
    LessThan,
    AtMost,
    GreaterThan,
    AtLeast,
    EqualTo,
    NotEqualTo,
}

/// An expression.
#[derive(Debug, Drop)]
pub enum Expr {
    Name(Place, String),
    Number(Place, u32),
    Unary(Place, UnaryOperator, Boxed<Expr>),
    Binary(Place, BinaryOperator, Boxed<Expr>, Boxed<Expr>),
}

/// What an `if` or a `while` tests: the operator's place, and both operands.
#[derive(Debug, Drop)]
pub struct Condition {
    pub place: Place,
    pub operator: Comparison,
    pub left: Expr,
    pub right: Expr,
}

/// A statement.
#[derive(Debug, Drop)]
pub enum Stmt {
    Assign(Place, String, Expr),
    /// A call of `print`: the place of the statement, that of the call, and what is printed.
    Print(Place, Place, Expr),
    /// Its second body is what is done otherwise: empty where there is no `else`.
    If(Place, Condition, Items<Stmt>, Items<Stmt>),
    While(Place, Condition, Items<Stmt>),
}

/// A whole module: its statements in order.
#[derive(Debug, Drop)]
pub struct Module {
    pub body: Items<Stmt>,
}
