//! Trees of modules, as the parser builds them. A contract sees a tree by its plain view, `plain` of
//! `specs/PlainTrees.antt`, which is a tree of the definitions.
#![tactic(auto)]

mod operator;
mod tree;

pub use operator::{BinaryOperator, ComparisonOperator, UnaryOperator};
pub use tree::{
    Caught, ClassName, Expr, Imported, LoopTarget, Module, NameAt, Parameter, Stmt, Target, Targets,
};
