//! Files as they are to be written.

/// A file of the folder: its name and its bytes.
#[derive(Debug, Drop)]
pub struct File {
    pub name: String,
    pub bytes: Vec<u8>,
}
