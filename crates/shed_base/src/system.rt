//! The world outside as the system has it. Nothing is told of what it holds, and each of these
//! types is seen as its counts of faults.
ghost use Rattle.std.specs.Prelude.{◌≡◌, ℕ, ◌≤◌, ◌++◌, None, IfOk, codes, string_bytes};
ghost use Rattle.shed_base.specs.Outside.{Rose};

use crate::outside::{Folder, Sink, Source};
use crate::refusals::{Failed, IoRefusal};
use std::alloc::{AllocError, Global};
use std::io::{ErrorKind, Read, Write};
use std::marker::Model;
use std::rt::Files;
use std::{fs, io};

/// Input from a reader of the system, such as standard input.
#[derive(Drop)]
pub struct StdSource<R> {
    reader: R,
    faults: u64,
}

impl<R> Model for StdSource<R> {
    ghost Value = { ℕ };

    ghost view = { λ s. s.faults };
}

impl<R: Read + Drop> StdSource<R> {
    /// A source without faults so far.
    pub fn new(reader: R) -> StdSource<R>
        ensures { result ≡ 0 }
    {
        StdSource { reader, faults: 0 }
    }
}

impl<R: Read + Drop> Source for StdSource<R> {
    ghost left = { λ _. None };

    ghost faults = { λ faults. faults };

    fn read(&mut self, into: &mut [u8]) -> Result<usize, Failed> {
        match self.reader.read(into) {
            Ok(count) => Ok(count),
            Err(_) => {
                self.faults = self.faults.saturating_add(1);
                Err(Failed)
            }
        }
    }
}

/// Output to a writer of the system, such as standard output. The writer keeps no buffer of its
/// own, else a fault would show only after the call that caused it.
#[derive(Drop)]
pub struct StdSink<W> {
    writer: W,
    faults: u64,
}

impl<W> Model for StdSink<W> {
    ghost Value = { ℕ };

    ghost view = { λ s. s.faults };
}

impl<W: Write + Drop> StdSink<W> {
    /// A sink without faults so far.
    pub fn new(writer: W) -> StdSink<W>
        ensures { result ≡ 0 }
    {
        StdSink { writer, faults: 0 }
    }
}

impl<W: Write + Drop> Sink for StdSink<W> {
    ghost held = { λ _. None };

    ghost faults = { λ faults. faults };

    fn write(&mut self, piece: &[u8]) -> Result<usize, IoRefusal> {
        match self.writer.write(piece) {
            // Where no byte is taken, a loop that writes the rest would never end.
            Ok(0) if !piece.is_empty() => Err(counted(&mut self.faults)),
            Ok(count) => Ok(count),
            Err(error) => Err(refusal_of(&error, &mut self.faults)),
        }
    }
}

/// The files of the current folder.
#[derive(Drop)]
pub struct RealFolder<R> {
    files: R,
    alloc: Global,
    read_faults: u64,
    write_faults: u64,
}

impl<R> Model for RealFolder<R> {
    ghost Value = { ℕ × ℕ };

    ghost view = { λ f. (f.read_faults, f.write_faults) };
}

impl<R: Files + Drop> RealFolder<R> {
    /// The current folder, without faults so far.
    pub fn new(alloc: Global, files: R) -> RealFolder<R>
        ensures { result ≡ (0, 0) }
    {
        RealFolder {
            files,
            alloc,
            read_faults: 0,
            write_faults: 0,
        }
    }
}

impl<R: Files + Drop> Folder for RealFolder<R> {
    ghost files = { λ _. None };

    ghost read_faults = { λ faults. faults.0 };

    ghost write_faults = { λ faults. faults.1 };

    fn read_file(
        &mut self,
        alloc: Global,
        name: &str,
        most: usize,
    ) -> Result<Option<Vec<u8>>, IoRefusal> {
        let path = path_of(self.alloc, name)?;
        match read_front(&self.files, alloc, path.as_str(), most) {
            Ok(bytes) => Ok(Some(bytes)),
            Err(error) if error.kind() == ErrorKind::NotFound => Ok(None),
            Err(error) => Err(refusal_of(&error, &mut self.read_faults)),
        }
    }

    fn write_file(&mut self, name: &str, bytes: &[u8]) -> Result<(), IoRefusal> {
        let path = path_of(self.alloc, name)?;
        let mut file = match fs::create(&self.files, path.as_str()) {
            Ok(file) => file,
            Err(error) => return Err(refusal_of(&error, &mut self.write_faults)),
        };
        // The file is empty by now, so want of memory is a fault here too.
        match file.write_all(bytes) {
            Ok(()) => Ok(()),
            Err(_) => Err(counted(&mut self.write_faults)),
        }
    }
}

/// A name as a path from the current folder, whatever it begins with.
fn path_of(alloc: Global, name: &str) -> Result<String, AllocError>
    ensures { IfOk result (λ path. string_bytes path ≡ codes "./" ++ name.now) }
{
    format!(in alloc; "./{name}")
}

/// Reads no more than the first `most` bytes of a file.
fn read_front<R: Files>(files: &R, alloc: Global, path: &str, most: usize) -> io::Result<Vec<u8>> {
    let file = fs::open(files, path)?;
    let mut bytes = Vec::new(alloc);
    file.take(most as u64).read_to_end(&mut bytes)?;
    Ok(bytes)
}

/// Counts a fault.
fn counted(faults: &mut u64) -> IoRefusal
    ensures refusal { result ≡ IoRefusal.Failed }
    ensures rose { Rose faults.old faults.new }
    ensures later { faults.old ≤ faults.new }
{
    *faults = faults.saturating_add(1);
    IoRefusal::Failed
}

/// What an error of the system is to a caller: want of memory, or else a fault, which is counted.
fn refusal_of(error: &io::Error, faults: &mut u64) -> IoRefusal
    ensures rose { result ≡ IoRefusal.Failed → Rose faults.old faults.new }
    ensures later { faults.old ≤ faults.new }
{
    if error.kind() == ErrorKind::OutOfMemory {
        IoRefusal::NoMemory
    } else {
        counted(faults)
    }
}
