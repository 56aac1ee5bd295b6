//! Trees of a module (Python reference, "Expressions", "Simple statements", "Compound statements").
//!
//! Each node has the place of its head token. That is the operator; the `(` of a call, the `.` of an attribute, the `[`
//! of a subscript; the bracket of a display, a comprehension or a parenthesis; a tuple's first comma; the `if` of a
//! conditional expression; and a statement's first token.

use crate::operator::{BinaryOperator, ComparisonOperator, UnaryOperator};
use shed_base::{Name, Place};
use sqlite_items::{Boxed, Items};

/// A name where it stands.
#[derive(Clone, Copy, Debug, PartialEq, Eq)]
pub struct NameAt {
    pub place: Place,
    pub name: Name,
}

/// What a loop binds.
#[derive(Debug, Drop)]
pub enum LoopTarget {
    /// `x`
    Name(NameAt),
    /// `x, y`, at its first comma.
    Names(Place, Items<NameAt>),
    /// `(x, y)`
    Parenthesis(Place, Boxed<LoopTarget>),
}

/// An expression.
#[derive(Debug, Drop)]
pub enum Expr {
    Name(Place, Name),
    Number(Place, u64),
    /// A text, as its code points.
    Text(Place, Items<u8>),
    True(Place),
    False(Place),
    None(Place),
    /// `(e)`, where e may be a tuple.
    Parenthesis(Place, Boxed<Expr>),
    /// `()`
    EmptyTuple(Place),
    /// `a, b`, without its brackets.
    Tuple(Place, Items<Expr>),
    /// With the place of the first comma, if there is one.
    List(Place, Option<Place>, Items<Expr>),
    /// The element, and the loops: each with what it binds, what it goes over, and its conditions.
    ListComprehension(Place, Boxed<Expr>, Items<(Place, LoopTarget, Expr, Items<Expr>)>),
    /// Keys and values.
    Dict(Place, Items<(Expr, Expr)>),
    Set(Place, Items<Expr>),
    Attribute(Place, Boxed<Expr>, NameAt),
    /// What is called, and the arguments: those by place, and those by name.
    Call(Place, Boxed<Expr>, Items<Expr>, Items<(NameAt, Expr)>),
    Subscript(Place, Boxed<Expr>, Boxed<Expr>),
    /// The object, and where the slice begins and ends.
    Slice(Place, Boxed<Expr>, Option<Boxed<Expr>>, Option<Boxed<Expr>>),
    Unary(Place, UnaryOperator, Boxed<Expr>),
    Binary(Place, BinaryOperator, Boxed<Expr>, Boxed<Expr>),
    /// `a < b < c` is one node, at its first operator; the last are the further comparisons.
    Compare(
        Place,
        ComparisonOperator,
        Boxed<Expr>,
        Boxed<Expr>,
        Items<(Place, ComparisonOperator, Expr)>,
    ),
    Not(Place, Boxed<Expr>),
    /// `a and b and c` is one node, at its first `and`.
    And(Place, Boxed<Expr>, Boxed<Expr>, Items<Expr>),
    Or(Place, Boxed<Expr>, Boxed<Expr>, Items<Expr>),
    /// `value if test else other`, in this order.
    Conditional(Place, Boxed<Expr>, Boxed<Expr>, Boxed<Expr>),
}

/// One place of an assignment.
#[derive(Debug, Drop)]
pub enum Target {
    Name(NameAt),
    Attribute(Place, Boxed<Expr>, NameAt),
    Subscript(Place, Boxed<Expr>, Boxed<Expr>),
}

/// What stands before `=`.
#[derive(Debug, Drop)]
pub enum Targets {
    One(Target),
    /// Those to which the value's members are given, at the first comma.
    Several(Place, Items<Target>),
    /// `(x, y)`
    Parenthesis(Place, Boxed<Targets>),
    /// `[x, y]`
    Bracket(Place, Boxed<Targets>),
}

/// An imported module or what is taken from one, and the name that it is given by `as`.
#[derive(Clone, Copy, Debug, PartialEq, Eq)]
pub struct Imported {
    pub name: NameAt,
    pub alias: Option<NameAt>,
}

/// The class of a handler, or a base.
#[derive(Clone, Copy, Debug, PartialEq, Eq)]
pub enum ClassName {
    /// `C`
    Bare(NameAt),
    /// `m.C`
    Within(NameAt, NameAt),
}

/// What a handler catches.
#[derive(Clone, Copy, Debug, PartialEq, Eq)]
pub enum Caught {
    Everything,
    /// The exceptions of a class, and the name that one is given by `as`.
    Exceptions(ClassName, Option<NameAt>),
}

/// A parameter of a function.
#[derive(Debug, Drop)]
pub struct Parameter {
    pub name: NameAt,
    pub default: Option<Expr>,
}

/// A statement.
#[derive(Debug, Drop)]
pub enum Stmt {
    Expr(Place, Expr),
    /// `a = b = value`
    Assign(Place, Items<Targets>, Expr),
    /// `a += value`
    Augmented(Place, BinaryOperator, Target, Expr),
    Pass(Place),
    Break(Place),
    Continue(Place),
    Return(Place, Option<Expr>),
    Raise(Place, Expr),
    Yield(Place, Expr),
    Global(Place, Items<NameAt>),
    /// The test, and the message.
    Assert(Place, Expr, Option<Expr>),
    /// `del object[index]`, with the place of the `[` too.
    Delete(Place, Place, Boxed<Expr>, Boxed<Expr>),
    /// Its second body is what is done otherwise: empty where there is no `else`. An `elif` is an `if` that is done
    /// otherwise.
    If(Place, Expr, Items<Stmt>, Items<Stmt>),
    While(Place, Expr, Items<Stmt>),
    For(Place, LoopTarget, Expr, Items<Stmt>),
    /// The handlers have what they catch, and a body.
    Try(Place, Items<Stmt>, Items<(Place, Caught, Items<Stmt>)>),
    Def(Place, NameAt, Items<Parameter>, Items<Stmt>),
    Class(Place, NameAt, Option<ClassName>, Items<Stmt>),
    Import(Place, Items<Imported>),
    /// The module, and what is taken from it.
    FromImport(Place, NameAt, Items<Imported>),
}

/// A whole module: its statements in order.
#[derive(Debug, Drop)]
pub struct Module {
    pub body: Items<Stmt>,
}
