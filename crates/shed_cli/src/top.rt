//! The top call: all that the program does.

ghost use Rattle.std.specs.Prelude.{◌≡◌, ◌≤◌, map, string_bytes};
ghost use Rattle.shed_meaning.specs.Outcome.{Ends, Causes};
ghost use Rattle.shed_cli.specs.Judging.{number_of};

use crate::judgement::Judgement;
use crate::status::Status;
use crate::translation::judge;
use crate::writing::{report, write_files};
use shed_base::{Folder, IoRefusal, Sink, Source};
use std::alloc::Global;

const USAGE: &str =
    "usage: shed translate [-l] [-b] [-w] [-o] [-a] [-m FILE] NAME | run [--ticks N] NAME | bulk SEED COUNT\n";

/// Does what the words say, over a folder, and answers with the status.
///
/// `translate NAME` reads `NAME.py` and writes its C++, a makefile and the types table. What was
/// refused, and why, is written to `err`; `input` and `out` are left alone.
pub fn shed<F: Folder, I: Source, O: Sink, E: Sink>(
    alloc: Global,
    words: &[String],
    folder: &mut F,
    input: &mut I,
    out: &mut O,
    err: &mut E,
) -> Status
    // How the call ends: the cause, what stands behind it, and what folder, err and out hold then.
    ensures outcome { Ends (map string_bytes words.now)
        (record { files = F.files folder.old; out = O.held out.old; err = E.held err.old; read_faults = F.read_faults folder.old; write_faults = F.write_faults folder.old; err_faults = E.faults err.old })
        (record { files = F.files folder.new; out = O.held out.new; err = E.held err.new; read_faults = F.read_faults folder.new; write_faults = F.write_faults folder.new; err_faults = E.faults err.new })
        (number_of result) }

    // What each status answers for, and completeness.
    ensures causes { Causes (map string_bytes words.now)
        (record { files = F.files folder.old; out = O.held out.old; err = E.held err.old; read_faults = F.read_faults folder.old; write_faults = F.write_faults folder.old; err_faults = E.faults err.old })
        (record { files = F.files folder.new; out = O.held out.new; err = E.held err.new; read_faults = F.read_faults folder.new; write_faults = F.write_faults folder.new; err_faults = E.faults err.new })
        (number_of result) }
    ensures input_kept { I.left input.new ≡ I.left input.old }
    ensures later { (F.read_faults folder.old ≤ F.read_faults folder.new) × (F.write_faults folder.old ≤ F.write_faults folder.new) × (E.faults err.old ≤ E.faults err.new) }
{
    carry_out(alloc, words, folder, out, err)
}

fn carry_out<F: Folder, O: Sink, E: Sink>(
    alloc: Global,
    words: &[String],
    folder: &mut F,
    out: &mut O,
    err: &mut E,
) -> Status
    ensures outcome { Ends (map string_bytes words.now)
        (record { files = F.files folder.old; out = O.held out.old; err = E.held err.old; read_faults = F.read_faults folder.old; write_faults = F.write_faults folder.old; err_faults = E.faults err.old })
        (record { files = F.files folder.new; out = O.held out.new; err = E.held err.new; read_faults = F.read_faults folder.new; write_faults = F.write_faults folder.new; err_faults = E.faults err.new })
        (number_of result) }
    ensures later { (F.read_faults folder.old ≤ F.read_faults folder.new) × (F.write_faults folder.old ≤ F.write_faults folder.new) × (E.faults err.old ≤ E.faults err.new) }
{
    match judge(alloc, words, folder) {
        Judgement::Unread => report(err, USAGE, Status::WordsRefused),
        Judgement::Refused(status, message) => report(err, message.as_str(), status),
        Judgement::ReadFailed => report(err, "shed: read fault\n", Status::ReadFault),
        Judgement::OutOfMemory => report(err, "shed: no memory\n", Status::NoMemory),
        Judgement::Ready(files) => match write_files(folder, files.as_slice()) {
            Ok(()) => Status::Done,
            Err(IoRefusal::Failed) => report(err, "shed: write fault\n", Status::WriteFault),
            Err(IoRefusal::NoMemory) => report(err, "shed: no memory\n", Status::NoMemory),
        },
    }
}
