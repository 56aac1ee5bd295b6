//! What every layer of the compiler speaks of: places in the source, names, and the world outside.
//!
//! All input and output goes through the traits `Source`, `Sink` and `Folder`. Objects in memory
//! tell what they hold, so a contract above can say what was read and written. The objects of the
//! system tell nothing, and only count their faults.
#![tactic(auto)]

mod calls;
mod memory_folder;
mod memory_sink;
mod memory_source;
mod names;
mod outside;
mod place;
mod refusals;
mod system;
mod width;

pub use memory_folder::MemoryFolder;
pub use memory_sink::MemorySink;
pub use memory_source::MemorySource;
pub use names::{Name, Names, kept_place, one_place, special_names};
pub use outside::{Folder, Sink, Source};
pub use place::Place;
pub use refusals::{Failed, IoRefusal, NoMemory};
pub use system::{RealFolder, StdSink, StdSource};
pub use width::Width;

#[cfg(test)]
mod tests;
