//! Writing: messages to a sink, and files to a folder.

ghost use Rattle.std.specs.Prelude.{◌≡◌, ℕ, ◌≤◌, take, length, IfOk, IfErr, OnOk, OnErr, IsErrOf, ◌⊎◌};
ghost use Rattle.shed_base.specs.Outside.{Rose, appended};
ghost use Rattle.shed_meaning.specs.Outcome.{with_files, BreaksOff, Says};
ghost use Rattle.cpp_text.specs.Plain.{plain_files};
ghost use Rattle.shed_cli.specs.Judging.{number_of};

use crate::status::Status;
use cpp_text::file::File;
use shed_base::{Folder, IoRefusal, Sink};

/// Writes a message to err, and answers the status that is wanted, or that of a write that failed.
pub fn report<E: Sink>(err: &mut E, message: &str, wanted: Status) -> Status
    ensures says { Says (E.held err.old) (E.held err.new) (E.faults err.old) (E.faults err.new) message.now (number_of wanted) (number_of result) }
    ensures later { E.faults err.old ≤ E.faults err.new }
{
    match write_all(err, message.as_bytes()) {
        Ok(()) => wanted,
        Err(IoRefusal::Failed) => Status::WriteFault,
        Err(IoRefusal::NoMemory) => Status::NoMemory,
    }
}

// Writes all of a piece, in as many calls as it takes.
fn write_all<E: Sink>(err: &mut E, piece: &[u8]) -> Result<(), IoRefusal>
    ensures all { OnOk result (E.held err.new ≡ appended (E.held err.old) piece.now) }
    ensures part { OnErr result ((n : ℕ) × (E.held err.new ≡ appended (E.held err.old) (take n piece.now))) }
    ensures later { E.faults err.old ≤ E.faults err.new }
    ensures failed { IsErrOf result IoRefusal.Failed → Rose (E.faults err.old) (E.faults err.new) }
{
    let mut done = 0;
    while done < piece.len() {
        match err.write(&piece[done..]) {
            Ok(count) => done += count,
            Err(refusal) => return Err(refusal),
        }
    }
    Ok(())
}

/// Writes files, one after the other, until one can't be written.
pub fn write_files<F: Folder>(folder: &mut F, files: &[File]) -> Result<(), IoRefusal>
    ensures all { OnOk result (F.files folder.new ≡ with_files (F.files folder.old) (plain_files files.now)) }
    ensures part { IsErrOf result IoRefusal.Failed → BreaksOff (plain_files files.now) (F.files folder.old) (F.files folder.new) }
    ensures whole { IsErrOf result IoRefusal.NoMemory → (k : ℕ) × (F.files folder.new ≡ with_files (F.files folder.old) (take k (plain_files files.now))) }
    ensures later { F.write_faults folder.old ≤ F.write_faults folder.new }
    ensures others { F.read_faults folder.new ≡ F.read_faults folder.old }
    ensures failed { IsErrOf result IoRefusal.Failed → Rose (F.write_faults folder.old) (F.write_faults folder.new) }
{
    for file in files {
        match folder.write_file(file.name.as_str(), file.bytes.as_slice()) {
            Ok(()) => {}
            Err(refusal) => return Err(refusal),
        }
    }
    Ok(())
}
