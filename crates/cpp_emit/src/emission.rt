//! Statements and operands, and the program that they make.

ghost use Rattle.std.specs.Prelude.{◌≡◌, [], ◌∷◌, ◌++◌, true, IfOk, OnOk, map, IsTrue, string_bytes};
ghost use Rattle.py_meaning.specs.Rules.{are_reads_sure};
ghost use Rattle.py_built.specs.PlainTrees.{plain_expr, plain_binary, plain_comparison, plain_condition, plain_stmt, plain_body, plain as plain_source};
ghost use Rattle.cpp_ast.specs.Plain.{plain_expr as plain_operand, plain_binary as plain_operator, plain_stmt as plain_cpp_stmt, plain_block, plain_declaration, plain_definition, plain};
ghost use Rattle.cpp_meaning.specs.Tree.{BodyHead, Body, Main, none};
ghost use Rattle.shed_meaning.specs.EmittedName.{body_name as body_name_of};
ghost use Rattle.shed_meaning.specs.Layout.{externs, variables};
ghost use Rattle.cpp_emit.specs.Law.{IsTranslation};
ghost use Rattle.cpp_emit.specs.Emit.{emit_operator as operator_of, emit_expr as operand_of, emit_comparison as comparison_of, emit_condition as condition_of, emit_print as print_of, emit_if as if_of, emit_body as body_of, emit_block as block_of, stmt_prints as statement_prints, prints as body_prints, emit as emission_of};
ghost use Rattle.py_built.specs.Names.{texts};
ghost use Rattle.cpp_emit.specs.Blocks.{followed_by, statements_of};

use crate::bound::names_bound;
use crate::names::{body_name, global_name, temporary_name};
use cpp_ast::{
    CppBinary, CppDeclaration, CppDefinition, CppExpr, CppModule, CppProgram, CppRow, CppStmt,
    CppType, CppValue, CppZero,
};
use indexmap::IndexSet;
use py_built::tree::{BinaryOperator, Comparison, Condition, Expr, Module, Stmt};
use shed_base::NoMemory;
use sqlite_items::{Boxed, Items};
use std::alloc::{AllocError, Global};

// The number of the module whose globals are read and bound, and of the temporary that holds the
// text of what is printed.
const MAIN: u32 = 0;

const PRINTED: u32 = 0;

/// The C++ of a module of this name. It is the translation of each module that reads no name before
/// an assignment to it.
pub fn emit(alloc: Global, module: &Module, name: &str) -> Result<CppProgram, NoMemory>
    ensures function { IfOk result (λ c. plain c ≡ emission_of name.now (plain_source «module».now)) }
    ensures translates { IfOk result (λ c. are_reads_sure [] (plain_source «module».now) ≡ true →
        IsTranslation name.now (plain_source «module».now) (plain c)) }
{
    match emit_program(alloc, module, name) {
        Ok(program) => Ok(program),
        Err(_) => Err(NoMemory),
    }
}

fn emit_program(alloc: Global, module: &Module, name: &str) -> Result<CppProgram, AllocError>
    ensures { IfOk result (λ c. plain c ≡ emission_of name.now (plain_source «module».now)) }
{
    let names = names_bound(alloc, module)?;
    let header = emit_header(alloc, &names, name)?;
    let block = emit_block(alloc, module.body.as_slice())?;
    let source = emit_source(alloc, &names, name, block)?;
    let mut modules = Items::new(alloc);
    modules.push(CppModule {
        name: String::from_str(alloc, name)?,
        header,
        source,
    })?;
    Ok(CppProgram { modules })
}

// The header's declarations: each global, and the body.
fn emit_header(
    alloc: Global,
    names: &IndexSet<String>,
    name: &str,
) -> Result<Items<CppDeclaration>, AllocError>
    ensures { IfOk result (λ header. map plain_declaration header ≡ externs 0 (texts names.now) ++ BodyHead (body_name_of name.now) ∷ []) }
{
    let mut header = Items::new(alloc);
    for global in names.as_slice() {
        let emitted = global_name(alloc, MAIN, global)?;
        header.push(CppDeclaration::Extern(CppType::Int32, emitted))?;
    }
    header.push(CppDeclaration::BodyHead(body_name(alloc, name)?))?;
    Ok(header)
}

// The source file's definitions: each global, the body and `main`.
fn emit_source(
    alloc: Global,
    names: &IndexSet<String>,
    name: &str,
    block: Items<CppStmt>,
) -> Result<Items<CppDefinition>, AllocError>
    ensures { IfOk result (λ source. map plain_definition source ≡ variables 0 (texts names.now) ++ Body (body_name_of name.now) (plain_block block) ∷ Main (body_name_of name.now) ∷ []) }
{
    let mut source = Items::new(alloc);
    for global in names.as_slice() {
        let emitted = global_name(alloc, MAIN, global)?;
        source.push(CppDefinition::Variable(CppType::Int32, emitted, CppZero::Number))?;
    }
    source.push(CppDefinition::Body(body_name(alloc, name)?, block))?;
    source.push(CppDefinition::Main(body_name(alloc, name)?))?;
    Ok(source)
}

// The statements of a module's body, behind the temporary that its prints need.
#[tactic(auto, using(crate::proofs::PlainViews::views))]
fn emit_block(alloc: Global, body: &[Stmt]) -> Result<Items<CppStmt>, AllocError>
    ensures { IfOk result (λ block. plain_block block ≡ block_of (plain_body body.now)) }
{
    if !prints(body) {
        return emit_body(alloc, body);
    }
    let mut block = Items::new(alloc);
    block.push(CppStmt::Declare(
        CppType::Text,
        temporary_name(alloc, PRINTED)?,
        CppZero::Pointer,
    ))?;
    block.append(emit_body(alloc, body)?)?;
    Ok(block)
}

// Whether a body prints.
#[cycle(prints)]
fn prints(body: &[Stmt]) -> bool
    ensures { result ≡ body_prints (plain_body body.now) }
{
    for stmt in body {
        if stmt_prints(stmt) {
            return true;
        }
    }
    false
}

#[cycle(prints)]
#[tactic(auto, using(py_built::specs::PlainTrees::plain_stmts))]
fn stmt_prints(stmt: &Stmt) -> bool
    ensures { result ≡ statement_prints (plain_stmt stmt.now) }
{
    match stmt {
        Stmt::Assign(..) => false,
        Stmt::Print(..) => true,
        Stmt::If(_, _, body, other) => prints(body.as_slice()) || prints(other.as_slice()),
        Stmt::While(_, _, body) => prints(body.as_slice()),
    }
}

// The statements of a body.
#[cycle(statements)]
fn emit_body(alloc: Global, body: &[Stmt]) -> Result<Items<CppStmt>, AllocError>
    ensures { IfOk result (λ block. plain_block block ≡ body_of (plain_body body.now)) }
{
    let mut block = Items::new(alloc);
    for stmt in body {
        emit_stmt(alloc, stmt, &mut block)?;
    }
    Ok(block)
}

#[cycle(statements)]
#[tactic(auto, using(crate::proofs::BlocksGrow::pushes, crate::proofs::PlainViews::views))]
fn emit_stmt(alloc: Global, stmt: &Stmt, block: &mut Items<CppStmt>) -> Result<(), AllocError>
    ensures { OnOk result (plain_block block.new ≡ followed_by (plain_block block.old) (statements_of (plain_stmt stmt.now))) }
{
    match stmt {
        Stmt::Assign(_, name, value) => {
            let target = global_name(alloc, MAIN, name)?;
            let value = CppValue::Operand(emit_expr(alloc, value)?);
            block.push(CppStmt::Assign(target, value))
        }
        Stmt::Print(_, _, value) => emit_print(alloc, value, block),
        Stmt::If(_, test, body, other) => {
            let test = emit_condition(alloc, test)?;
            let body = emit_body(alloc, body.as_slice())?;
            let other = emit_body(alloc, other.as_slice())?;
            block.push(branches(test, body, other))
        }
        Stmt::While(_, test, body) => {
            let test = emit_condition(alloc, test)?;
            let body = emit_body(alloc, body.as_slice())?;
            block.push(CppStmt::While(test, body))
        }
    }
}

// There is an `else` where something is done otherwise.
#[tactic(auto, using(crate::proofs::PlainViews::views))]
fn branches(test: CppExpr, body: Items<CppStmt>, other: Items<CppStmt>) -> CppStmt
    ensures { plain_cpp_stmt result ≡ if_of (plain_operand test) (plain_block body) (plain_block other) }
{
    if other.is_empty() {
        CppStmt::If(test, body)
    } else {
        CppStmt::IfElse(test, body, other)
    }
}

// The text of what is printed enters the temporary, and is written with the end of its line.
#[tactic(auto, using(crate::proofs::BlocksGrow::pushes, crate::proofs::PlainViews::views))]
fn emit_print(alloc: Global, value: &Expr, block: &mut Items<CppStmt>) -> Result<(), AllocError>
    ensures { OnOk result (plain_block block.new ≡ followed_by (plain_block block.old) (print_of (operand_of (plain_expr value.now)) none)) }
{
    let value = call(alloc, CppRow::TextOf, emit_expr(alloc, value)?)?;
    block.push(CppStmt::Assign(temporary_name(alloc, PRINTED)?, value))?;
    let text = CppExpr::Named(temporary_name(alloc, PRINTED)?);
    block.push(CppStmt::Perform(call(alloc, CppRow::Write, text)?))?;
    let line_end = CppExpr::Literal(Items::from_slice(alloc, b"\n")?);
    block.push(CppStmt::Perform(call(alloc, CppRow::Write, line_end)?))
}

#[tactic(auto, using(crate::proofs::PlainViews::views))]
fn emit_condition(alloc: Global, condition: &Condition) -> Result<CppExpr, AllocError>
    ensures { IfOk result (λ operand. plain_operand operand ≡ condition_of (plain_condition condition.now)) }
{
    let left = Boxed::new(alloc, emit_expr(alloc, &condition.left)?)?;
    let right = Boxed::new(alloc, emit_expr(alloc, &condition.right)?)?;
    let operator = emit_comparison(condition.operator);
    Ok(CppExpr::Operate(operator, left, right))
}

fn emit_comparison(operator: Comparison) -> CppBinary
    ensures { plain_operator result ≡ comparison_of (plain_comparison operator) }
{
    match operator {
        Comparison::LessThan => CppBinary::Less,
        Comparison::AtMost => CppBinary::LessOrEqual,
        Comparison::GreaterThan => CppBinary::Greater,
        Comparison::AtLeast => CppBinary::GreaterOrEqual,
        Comparison::EqualTo => CppBinary::Equal,
        Comparison::NotEqualTo => CppBinary::NotEqual,
    }
}

// A call of a row with one operand.
fn call(alloc: Global, row: CppRow, operand: CppExpr) -> Result<CppValue, AllocError>
    ensures { IfOk result (λ value. value ≡ CppValue.CallRow row (operand ∷ [])) }
{
    let mut operands = Items::new(alloc);
    operands.push(operand)?;
    Ok(CppValue::CallRow(row, operands))
}

#[tactic(auto, using(crate::proofs::PlainViews::views))]
fn emit_expr(alloc: Global, expr: &Expr) -> Result<CppExpr, AllocError>
    ensures { IfOk result (λ operand. plain_operand operand ≡ operand_of (plain_expr expr.now)) }
{
    match expr {
        Expr::Name(_, name) => Ok(CppExpr::Named(global_name(alloc, MAIN, name)?)),
        Expr::Number(_, value) => Ok(CppExpr::Number(*value)),
        Expr::Unary(_, _, operand) => {
            let operand = emit_expr(alloc, operand.get())?;
            Ok(CppExpr::Negate(Boxed::new(alloc, operand)?))
        }
        Expr::Binary(_, operator, left, right) => {
            let left = Boxed::new(alloc, emit_expr(alloc, left.get())?)?;
            let right = Boxed::new(alloc, emit_expr(alloc, right.get())?)?;
            Ok(CppExpr::Operate(emit_operator(*operator), left, right))
        }
    }
}

fn emit_operator(operator: BinaryOperator) -> CppBinary
    ensures { plain_operator result ≡ operator_of (plain_binary operator) }
{
    match operator {
        BinaryOperator::Add => CppBinary::Plus,
        BinaryOperator::Subtract => CppBinary::Minus,
        BinaryOperator::Multiply => CppBinary::Times,
    }
}
