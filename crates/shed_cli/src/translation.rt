//! From the words and the folder to the files that are to be written.

ghost use Rattle.std.specs.Prelude.{◌≡◌, ◌≤◌, ◌++◌, [], true, codes, map, string_bytes, IfOk, IsErrOf, option_map, vec_items};
ghost use Rattle.py_built.specs.PlainTrees.{plain as plain_source};
ghost use Rattle.shed_meaning.specs.Fault.{located};
ghost use Rattle.py_meaning.specs.Rules.{are_reads_sure};
ghost use Rattle.shed_base.specs.Outside.{Rose};
ghost use Rattle.shed_meaning.specs.Outcome.{GivesModule, Missing, TooLarge};
ghost use Rattle.shed_cli.specs.Judging.{IsFaulty};
ghost use Rattle.py_lexer.specs.PlainTokens.{plain_place};
ghost use Rattle.cpp_text.specs.Plain.{plain_files};
ghost use Rattle.shed_cli.specs.Judging.{Judged, JudgedText, RefusesFor, IsTranslation};

use crate::judgement::Judgement;
use crate::status::Status;
use crate::tables::{make_file, types_table};
use crate::words::read_words;
use cpp_emit::emit;
use cpp_text::file::File;
use cpp_text::{cpp_files, file_name};
use py_built::tree::Module;
use shed_base::{Folder, IoRefusal, NoMemory};
use shed_source::fault::Fault;
use shed_source::read_source;
use std::alloc::{AllocError, Global};

// The most bytes of a module.
const MOST_BYTES: usize = 1_048_576;

/// What is to be done for these words. Nothing is written yet.
pub fn judge<F: Folder>(alloc: Global, words: &[String], folder: &mut F) -> Judgement
    ensures judged { Judged (map string_bytes words.now) (F.files folder.old) (F.read_faults folder.old) (F.read_faults folder.new) result }
    ensures kept { F.files folder.new ≡ F.files folder.old }
    ensures later { F.read_faults folder.old ≤ F.read_faults folder.new }
    ensures others { F.write_faults folder.new ≡ F.write_faults folder.old }
{
    let Some(name) = read_words(words) else {
        return Judgement::Unread;
    };
    match read_module(alloc, folder, name) {
        Ok(Some(text)) => judge_text(alloc, name, text.as_slice()),
        Ok(None) => missing(alloc, name),
        Err(IoRefusal::Failed) => Judgement::ReadFailed,
        Err(IoRefusal::NoMemory) => Judgement::OutOfMemory,
    }
}

// The text of a module, if there is a file of it, and one byte more than a module may have, if it
// has as many.
fn read_module<F: Folder>(
    alloc: Global,
    folder: &mut F,
    name: &str,
) -> Result<Option<Vec<u8>>, IoRefusal>
    ensures gives { IfOk result (λ found. GivesModule (F.files folder.old) name.now (option_map vec_items found)) }
    ensures kept { F.files folder.new ≡ F.files folder.old }
    ensures later { F.read_faults folder.old ≤ F.read_faults folder.new }
    ensures others { F.write_faults folder.new ≡ F.write_faults folder.old }
    ensures failed { IsErrOf result IoRefusal.Failed → Rose (F.read_faults folder.old) (F.read_faults folder.new) }
{
    match file_name(alloc, name, ".py") {
        Ok(file) => folder.read_file(alloc, file.as_str(), MOST_BYTES + 1),
        Err(_) => Err(IoRefusal::NoMemory),
    }
}

fn judge_text(alloc: Global, name: &str, text: &[u8]) -> Judgement
    ensures { JudgedText name.now text.now result }
{
    if text.len() > MOST_BYTES {
        return too_large(alloc, name);
    }
    match read_source(alloc, text) {
        Ok(Ok(module)) => match translate(alloc, &module, name) {
            Ok(files) => Judgement::Ready(files),
            Err(_) => Judgement::OutOfMemory,
        },
        Ok(Err(fault)) => faulty(alloc, name, &fault),
        Err(_) => Judgement::OutOfMemory,
    }
}

/// The files of a module's translation, in the order in which they are written.
fn translate(alloc: Global, module: &Module, name: &str) -> Result<Vec<File>, NoMemory>
    ensures { IfOk result (λ files. are_reads_sure [] (plain_source «module».now) ≡ true → IsTranslation name.now (plain_source «module».now) (plain_files files.items)) }
{
    let program = emit(alloc, module, name)?;
    let mut files = cpp_files(alloc, &program)?;
    files.push(make_file(alloc, module, name)?)?;
    files.push(types_table(alloc, module, name)?)?;
    Ok(files)
}

fn missing(alloc: Global, name: &str) -> Judgement
    ensures { RefusesFor (Missing name.now) result }
{
    match format!(in alloc; "{name}.py: M1 Missing {name}\n") {
        Ok(message) => Judgement::Refused(Status::SourceRefused, message),
        Err(_) => Judgement::OutOfMemory,
    }
}

fn too_large(alloc: Global, name: &str) -> Judgement
    ensures { RefusesFor (TooLarge name.now) result }
{
    match format!(in alloc; "shed: M6 TooLarge {name}\n") {
        Ok(message) => Judgement::Refused(Status::LimitPassed, message),
        Err(_) => Judgement::OutOfMemory,
    }
}

fn faulty(alloc: Global, name: &str, fault: &Fault) -> Judgement
    ensures { IsFaulty name.now fault.now result }
{
    let status = if fault.limit {
        Status::LimitPassed
    } else {
        Status::SourceRefused
    };
    match message(alloc, name, fault) {
        Ok(message) => Judgement::Refused(status, message),
        Err(_) => Judgement::OutOfMemory,
    }
}

fn message(alloc: Global, name: &str, fault: &Fault) -> Result<String, AllocError>
    ensures { IfOk result (λ m. string_bytes m ≡ located name.now (plain_place fault.now.place) ++ (string_bytes fault.now.said ++ codes "\n")) }
{
    let line = fault.place.line;
    let column = fault.place.column;
    let said = fault.said.as_str();
    format!(in alloc; "{name}.py:{line}:{column}: {said}\n")
}
