//! The program `shed`: it makes the real folder, input and sinks, and calls `shed_cli::shed`.
#![tactic(auto)]

use shed_base::{RealFolder, Sink, StdSink, StdSource};
use shed_cli::{Status, shed};
use std::alloc::AllocError;
use std::env;
use std::io::ErrorKind;
use std::process::ExitCode;

fn main(rt: HostRuntime) -> ExitCode {
    ExitCode::from(run(rt).number())
}

// Want of memory for the words is the one thing that is answered before the call.
fn run(rt: HostRuntime) -> Status {
    let mut err = StdSink::new(rt.stderr());
    let Ok(words) = words(&rt) else {
        let _ = err.write(b"shed: no memory\n");
        return Status::NoMemory;
    };
    let mut folder = RealFolder::new(rt.alloc(), rt);
    let mut input = StdSource::new(rt.stdin());
    let mut out = StdSink::new(rt.stdout());
    shed(
        rt.alloc(),
        words.as_slice(),
        &mut folder,
        &mut input,
        &mut out,
        &mut err,
    )
}

// The words behind the program's name. Words that are no text say nothing, as no words do.
fn words(rt: &HostRuntime) -> Result<Vec<String>, AllocError> {
    match env::args(rt) {
        Ok(args) => args.skip(1).collect(rt.alloc()),
        Err(error) if error.kind() == ErrorKind::OutOfMemory => Err(AllocError),
        Err(_) => Ok(Vec::new(rt.alloc())),
    }
}
