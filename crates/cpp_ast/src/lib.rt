//! Trees of emitted C++20, as far as the emission uses them. A contract sees a tree by its plain view, `plain` of
//! `specs/Plain.antt`, which is a tree of the definitions.
#![tactic(auto)]

mod tree;

pub use tree::{
    CppBinary, CppDeclaration, CppDefinition, CppExpr, CppModule, CppProgram, CppRow, CppStmt,
    CppType, CppValue, CppZero,
};
