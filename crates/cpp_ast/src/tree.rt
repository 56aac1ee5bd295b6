//! The tree types. An operand has no effect, so a statement has at most one call.

use sqlite_items::{Boxed, Items};

/// A type of emitted C++.
#[derive(Clone, Copy, Debug, PartialEq, Eq)]
pub enum CppType {
    /// `int32_t`.
    Int32,
    /// `bool`.
    Truth,
    /// `shed::str*`.
    Text,
}

/// The first value of a variable.
#[derive(Clone, Copy, Debug, PartialEq, Eq)]
pub enum CppZero {
    /// `0`.
    Number,
    /// `false`.
    Truth,
    /// `nullptr`.
    Pointer,
}

/// An operator between two operands.
#[derive(Clone, Copy, Debug, PartialEq, Eq)]
pub enum CppBinary {
    Plus,
    Minus,
    Times,
    Less,
    LessOrEqual,
    Greater,
    GreaterOrEqual,
    Equal,
    NotEqual,
}

/// An operand, which has no effect (ISO C++, "Expressions").
#[derive(Debug, Drop)]
pub enum CppExpr {
    Named(String),
    Number(u32),
    /// A text of the support library, `".."_t`.
    Literal(Items<u8>),
    Operate(CppBinary, Boxed<CppExpr>, Boxed<CppExpr>),
    Negate(Boxed<CppExpr>),
}

/// A function of the support library.
#[derive(Clone, Copy, Debug, PartialEq, Eq)]
pub enum CppRow {
    /// `shed::text_of`: the text of a value.
    TextOf,
    /// `shed::write`: writes a text to the output.
    Write,
}

/// What is stored or dropped: an operand or one call.
#[derive(Debug, Drop)]
pub enum CppValue {
    Operand(CppExpr),
    CallRow(CppRow, Items<CppExpr>),
}

/// A statement (ISO C++, "Statements").
#[derive(Debug, Drop)]
pub enum CppStmt {
    Declare(CppType, String, CppZero),
    Assign(String, CppValue),
    Perform(CppValue),
    If(CppExpr, Items<CppStmt>),
    IfElse(CppExpr, Items<CppStmt>, Items<CppStmt>),
    While(CppExpr, Items<CppStmt>),
}

/// What a header declares.
#[derive(Debug, Drop)]
pub enum CppDeclaration {
    /// A global variable that a source file defines.
    Extern(CppType, String),
    /// The function that runs a module's body.
    BodyHead(String),
}

/// What a source file defines.
#[derive(Debug, Drop)]
pub enum CppDefinition {
    Variable(CppType, String, CppZero),
    Body(String, Items<CppStmt>),
    /// `main`, which starts the body of this name.
    Main(String),
}

/// A module's header and its source file, which are named for it.
#[derive(Debug, Drop)]
pub struct CppModule {
    pub name: String,
    pub header: Items<CppDeclaration>,
    pub source: Items<CppDefinition>,
}

/// A whole program: its modules, the main one first.
#[derive(Debug, Drop)]
pub struct CppProgram {
    pub modules: Items<CppModule>,
}
