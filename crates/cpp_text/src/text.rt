//! The one text of a C++ tree.

ghost use Rattle.std.specs.Prelude.{◌≡◌, suc, [], ◌∷◌, ◌++◌, codes, map, IfOk, OnOk, decimal, string_bytes};
ghost use Rattle.cpp_ast.specs.Plain.{plain_type, plain_zero, plain_binary, plain_expr, plain_row, plain_value, plain_stmt, plain_block, plain_declaration, plain_definition, plain_module, plain};
ghost use Rattle.cpp_meaning.specs.Text.{type_text, zero_text, operator_text, row_text, is_plain as is_plain_character, character_text, quoted, expr_text, operands_text, value_text, indent, stmt_text, block_text, declaration_text, definition_text, header_text, source_text, includes_text, header_file, source_file, header_files, source_files, files_of};
ghost use Rattle.cpp_meaning.specs.Tree.{Main};
ghost use Rattle.cpp_text.specs.Plain.{plain_file, plain_files};

use crate::file::File;
use cpp_ast::{
    CppBinary, CppDeclaration, CppDefinition, CppExpr, CppModule, CppProgram, CppRow, CppStmt,
    CppType, CppValue, CppZero,
};
use itoa::Buffer;
use std::alloc::{AllocError, Global};

/// The C++ files of a program, in the order in which they are written.
pub fn cpp_files(alloc: Global, program: &CppProgram) -> Result<Vec<File>, AllocError>
    ensures { IfOk result (λ files. plain_files files.items ≡ files_of (plain program.now)) }
{
    let modules = program.modules.as_slice();
    let mut files = Vec::new(alloc);
    files.push(forward_file(alloc)?)?;
    push_headers(alloc, &mut files, modules)?;
    push_sources(alloc, &mut files, modules)?;
    Ok(files)
}

// The header that declares every class.
fn forward_file(alloc: Global) -> Result<File, AllocError>
    ensures { IfOk result (λ file. plain_file file ≡ record { name = codes "shed-forward.hpp"; bytes = codes "#pragma once\n#include \"shed-support.hpp\"\n" }) }
{
    Ok(File {
        name: String::from_str(alloc, "shed-forward.hpp")?,
        bytes: Vec::from_slice(alloc, b"#pragma once\n#include \"shed-support.hpp\"\n")?,
    })
}

fn push_headers(
    alloc: Global,
    files: &mut Vec<File>,
    modules: &[CppModule],
) -> Result<(), AllocError>
    ensures { OnOk result (plain_files files.new.items ≡ plain_files files.old.items ++ header_files (map plain_module modules.now)) }
{
    for module in modules {
        files.push(header_of(alloc, module)?)?;
    }
    Ok(())
}

fn push_sources(
    alloc: Global,
    files: &mut Vec<File>,
    modules: &[CppModule],
) -> Result<(), AllocError>
    ensures { OnOk result (plain_files files.new.items ≡ plain_files files.old.items ++ source_files (map plain_module modules.now) (map plain_module modules.now)) }
{
    for module in modules {
        files.push(source_of(alloc, modules, module)?)?;
    }
    Ok(())
}

fn header_of(alloc: Global, module: &CppModule) -> Result<File, AllocError>
    ensures { IfOk result (λ file. plain_file file ≡ header_file (plain_module «module».now)) }
{
    let name = file_name(alloc, module.name.as_str(), ".hpp")?;
    let mut bytes = Vec::from_slice(alloc, b"#pragma once\n#include \"shed-forward.hpp\"\n")?;
    push_declarations(&mut bytes, module.header.as_slice())?;
    Ok(File { name, bytes })
}

fn source_of(alloc: Global, modules: &[CppModule], module: &CppModule) -> Result<File, AllocError>
    ensures { IfOk result (λ file. plain_file file ≡ source_file (map plain_module modules.now) (plain_module «module».now)) }
{
    let name = file_name(alloc, module.name.as_str(), ".cpp")?;
    let mut bytes = Vec::from_slice(
        alloc,
        b"#include \"shed-support.hpp\"\n#include \"shed-forward.hpp\"\n",
    )?;
    push_includes(&mut bytes, modules)?;
    push_definitions(&mut bytes, module.source.as_slice())?;
    Ok(File { name, bytes })
}

/// The name of a module's file of a kind.
pub fn file_name(alloc: Global, module: &str, ending: &str) -> Result<String, AllocError>
    ensures { IfOk result (λ name. string_bytes name ≡ «module».now ++ ending.now) }
{
    let mut name = String::from_str(alloc, module)?;
    name.push_str(ending)?;
    Ok(name)
}

fn push_includes(out: &mut Vec<u8>, modules: &[CppModule]) -> Result<(), AllocError>
    ensures { OnOk result (out.new.items ≡ out.old.items ++ includes_text (map plain_module modules.now)) }
{
    for module in modules {
        out.extend_from_slice(b"#include \"")?;
        out.extend_from_slice(module.name.as_bytes())?;
        out.extend_from_slice(b".hpp\"\n")?;
    }
    Ok(())
}

fn push_declarations(out: &mut Vec<u8>, items: &[CppDeclaration]) -> Result<(), AllocError>
    ensures { OnOk result (out.new.items ≡ out.old.items ++ header_text (map plain_declaration items.now)) }
{
    for item in items {
        push_declaration(out, item)?;
    }
    Ok(())
}

fn push_declaration(out: &mut Vec<u8>, item: &CppDeclaration) -> Result<(), AllocError>
    ensures { OnOk result (out.new.items ≡ out.old.items ++ declaration_text (plain_declaration item.now)) }
{
    match item {
        CppDeclaration::Extern(ty, name) => {
            out.extend_from_slice(b"extern ")?;
            out.extend_from_slice(type_name(*ty).as_bytes())?;
            out.extend_from_slice(b" ")?;
            out.extend_from_slice(name.as_bytes())?;
            out.extend_from_slice(b";\n")
        }
        CppDeclaration::BodyHead(name) => {
            out.extend_from_slice(b"void ")?;
            out.extend_from_slice(name.as_bytes())?;
            out.extend_from_slice(b"();\n")
        }
    }
}

fn push_definitions(out: &mut Vec<u8>, items: &[CppDefinition]) -> Result<(), AllocError>
    ensures { OnOk result (out.new.items ≡ out.old.items ++ source_text (map plain_definition items.now)) }
{
    for item in items {
        push_definition(out, item)?;
    }
    Ok(())
}

fn push_definition(out: &mut Vec<u8>, item: &CppDefinition) -> Result<(), AllocError>
    ensures { OnOk result (out.new.items ≡ out.old.items ++ definition_text (plain_definition item.now)) }
{
    match item {
        CppDefinition::Variable(ty, name, zero) => push_variable(out, *ty, name.as_str(), *zero),
        CppDefinition::Body(name, block) => {
            out.extend_from_slice(b"void ")?;
            out.extend_from_slice(name.as_bytes())?;
            out.extend_from_slice(b"() {\n")?;
            push_block(out, 1, block.as_slice())?;
            out.extend_from_slice(b"}\n")
        }
        CppDefinition::Main(name) => { push_main(out, name) }
    }
}

fn push_main(out: &mut Vec<u8>, body: &str) -> Result<(), AllocError>
    ensures { OnOk result (out.new.items ≡ out.old.items ++ definition_text (Main body.now)) }
{
    out.extend_from_slice(b"int main() { return shed::start(&")?;
    out.extend_from_slice(body.as_bytes())?;
    out.extend_from_slice(b"); }\n")?;
    Ok(())
}

// A variable with its first value, global or local.
fn push_variable(
    out: &mut Vec<u8>,
    ty: CppType,
    name: &str,
    zero: CppZero,
) -> Result<(), AllocError>
    ensures { OnOk result (out.new.items ≡ out.old.items ++ (type_text (plain_type ty) ++ (codes " " ++ (name.now ++ (codes " = " ++ (zero_text (plain_zero zero) ++ codes ";\n")))))) }
{
    out.extend_from_slice(type_name(ty).as_bytes())?;
    out.extend_from_slice(b" ")?;
    out.extend_from_slice(name.as_bytes())?;
    out.extend_from_slice(b" = ")?;
    out.extend_from_slice(zero_value(zero).as_bytes())?;
    out.extend_from_slice(b";\n")
}

// The statements of a body or of a block in it, each at this depth.
#[cycle(statements)]
fn push_block(out: &mut Vec<u8>, depth: u32, block: &[CppStmt]) -> Result<(), AllocError>
    ensures { OnOk result (out.new.items ≡ out.old.items ++ block_text depth (plain_block block.now)) }
{
    for stmt in block {
        push_indent(out, depth)?;
        push_stmt(out, depth, stmt)?;
    }
    Ok(())
}

// A statement that begins at this depth.
#[cycle(statements)]
#[tactic(auto, using(crate::proofs::CppViews::stmt_views))]
fn push_stmt(out: &mut Vec<u8>, depth: u32, stmt: &CppStmt) -> Result<(), AllocError>
    ensures { OnOk result (out.new.items ≡ out.old.items ++ stmt_text depth (plain_stmt stmt.now)) }
{
    match stmt {
        CppStmt::Declare(ty, name, zero) => push_variable(out, *ty, name.as_str(), *zero),
        CppStmt::Assign(name, value) => {
            out.extend_from_slice(name.as_bytes())?;
            out.extend_from_slice(b" = ")?;
            push_value(out, value)?;
            out.extend_from_slice(b";\n")
        }
        CppStmt::Perform(value) => {
            push_value(out, value)?;
            out.extend_from_slice(b";\n")
        }
        CppStmt::If(condition, body) => {
            push_head(out, "if (", condition)?;
            push_inner(out, depth, body.as_slice())?;
            out.extend_from_slice(b"}\n")
        }
        CppStmt::IfElse(condition, body, otherwise) => {
            push_head(out, "if (", condition)?;
            push_inner(out, depth, body.as_slice())?;
            out.extend_from_slice(b"} else {\n")?;
            push_inner(out, depth, otherwise.as_slice())?;
            out.extend_from_slice(b"}\n")
        }
        CppStmt::While(condition, body) => {
            push_head(out, "while (", condition)?;
            push_inner(out, depth, body.as_slice())?;
            out.extend_from_slice(b"}\n")
        }
    }
}

// The block of a statement of this depth, and the indentation before the bracket that closes it.
#[cycle(statements)]
fn push_inner(out: &mut Vec<u8>, depth: u32, block: &[CppStmt]) -> Result<(), AllocError>
    ensures { OnOk result (out.new.items ≡ out.old.items ++ (block_text (suc depth) (plain_block block.now) ++ indent depth)) }
{
    let inner = depth.checked_add(1).ok_or(AllocError)?;
    push_block(out, inner, block)?;
    push_indent(out, depth)
}

// What is tested, between the word and the bracket that opens a block.
fn push_head(out: &mut Vec<u8>, word: &str, condition: &CppExpr) -> Result<(), AllocError>
    ensures { OnOk result (out.new.items ≡ out.old.items ++ (word.now ++ (expr_text (plain_expr condition.now) ++ codes ") {\n"))) }
{
    out.extend_from_slice(word.as_bytes())?;
    push_expr(out, condition)?;
    out.extend_from_slice(b") {\n")
}

// Two spaces a level.
fn push_indent(out: &mut Vec<u8>, depth: u32) -> Result<(), AllocError>
    ensures { OnOk result (out.new.items ≡ out.old.items ++ indent depth) }
{
    for _level in 0..depth {
        out.extend_from_slice(b"  ")?;
    }
    Ok(())
}

fn push_value(out: &mut Vec<u8>, value: &CppValue) -> Result<(), AllocError>
    ensures { OnOk result (out.new.items ≡ out.old.items ++ value_text (plain_value value.now)) }
{
    match value {
        CppValue::Operand(operand) => push_expr(out, operand),
        CppValue::CallRow(row, operands) => {
            out.extend_from_slice(row_head(*row).as_bytes())?;
            match operands.as_slice() {
                [] => out.extend_from_slice(b")"),
                [first, others @ ..] => {
                    push_expr(out, first)?;
                    push_operands(out, others)
                }
            }
        }
    }
}

// Further operands, and the bracket that closes a call.
fn push_operands(out: &mut Vec<u8>, operands: &[CppExpr]) -> Result<(), AllocError>
    ensures { OnOk result (out.new.items ≡ out.old.items ++ operands_text (map plain_expr operands.now)) }
{
    for operand in operands {
        out.extend_from_slice(b", ")?;
        push_expr(out, operand)?;
    }
    out.extend_from_slice(b")")
}

#[tactic(auto, using(crate::proofs::CppViews::views))]
fn push_expr(out: &mut Vec<u8>, expr: &CppExpr) -> Result<(), AllocError>
    ensures { OnOk result (out.new.items ≡ out.old.items ++ expr_text (plain_expr expr.now)) }
{
    match expr {
        CppExpr::Named(name) => out.extend_from_slice(name.as_bytes()),
        CppExpr::Number(value) => push_number(out, *value),
        CppExpr::Literal(text) => {
            out.extend_from_slice(b"\"")?;
            push_quoted(out, text.as_slice())
        }
        CppExpr::Operate(operator, left, right) => {
            out.extend_from_slice(b"(")?;
            push_expr(out, left.get())?;
            out.extend_from_slice(operator_sign(*operator).as_bytes())?;
            push_expr(out, right.get())?;
            out.extend_from_slice(b")")
        }
        CppExpr::Negate(operand) => {
            out.extend_from_slice(b"(-")?;
            push_expr(out, operand.get())?;
            out.extend_from_slice(b")")
        }
    }
}

fn push_number(out: &mut Vec<u8>, value: u32) -> Result<(), AllocError>
    ensures { OnOk result (out.new.items ≡ out.old.items ++ decimal value) }
{
    let mut buffer = Buffer::new();
    out.extend_from_slice(buffer.format(value).as_bytes())
}

// The characters of a text, and the quote that closes it.
fn push_quoted(out: &mut Vec<u8>, text: &[u8]) -> Result<(), AllocError>
    ensures { OnOk result (out.new.items ≡ out.old.items ++ quoted text.now) }
{
    for character in text {
        push_character(out, *character)?;
    }
    out.extend_from_slice(b"\"_t")
}

fn push_character(out: &mut Vec<u8>, character: u8) -> Result<(), AllocError>
    ensures { OnOk result (out.new.items ≡ out.old.items ++ character_text character) }
{
    if is_plain(character) {
        return out.extend_from_slice(&[character]);
    }
    let high = b'0' + character / 64 % 8;
    let middle = b'0' + character / 8 % 8;
    let low = b'0' + character % 8;
    out.extend_from_slice(&[b'\\', high, middle, low])
}

// Whether a character stands for itself in a text.
fn is_plain(character: u8) -> bool
    ensures { result ≡ is_plain_character character }
{
    (32..=126).contains(&character) && character != b'"' && character != b'?' && character != b'\\'
}

fn type_name(ty: CppType) -> &'static str
    ensures { result.now ≡ type_text (plain_type ty) }
{
    match ty {
        CppType::Int32 => "int32_t",
        CppType::Truth => "bool",
        CppType::Text => "shed::str*",
    }
}

fn zero_value(zero: CppZero) -> &'static str
    ensures { result.now ≡ zero_text (plain_zero zero) }
{
    match zero {
        CppZero::Number => "0",
        CppZero::Truth => "false",
        CppZero::Pointer => "nullptr",
    }
}

fn operator_sign(operator: CppBinary) -> &'static str
    ensures { result.now ≡ operator_text (plain_binary operator) }
{
    match operator {
        CppBinary::Plus => " + ",
        CppBinary::Minus => " - ",
        CppBinary::Times => " * ",
        CppBinary::Less => " < ",
        CppBinary::LessOrEqual => " <= ",
        CppBinary::Greater => " > ",
        CppBinary::GreaterOrEqual => " >= ",
        CppBinary::Equal => " == ",
        CppBinary::NotEqual => " != ",
    }
}

// The name of a row, and the bracket that opens a call.
fn row_head(row: CppRow) -> &'static str
    ensures { result.now ≡ row_text (plain_row row) }
{
    match row {
        CppRow::TextOf => "shed::text_of(",
        CppRow::Write => "shed::write(",
    }
}
