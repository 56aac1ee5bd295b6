//! What the command finds out before it writes anything.

use crate::status::Status;
use cpp_text::file::File;

/// Why nothing is to be written, or the files that are.
#[derive(Debug, Drop)]
pub enum Judgement {
    /// The words say nothing.
    Unread,
    /// The module is refused, with this status and this message.
    Refused(Status, String),
    /// The module could not be read.
    ReadFailed,
    /// Memory ran out.
    OutOfMemory,
    /// The files of the translation, in the order in which they are written.
    Ready(Vec<File>),
}
