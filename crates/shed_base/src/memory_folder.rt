ghost use Rattle.std.specs.Prelude.{◌≡◌, ◌≤◌, Some, option_map, option_copied, vec_items, IfOk, IsErrOf, OnOk, OnErr};
ghost use Rattle.shed_base.specs.Outside.{Rose};
ghost use Rattle.shed_base.specs.Files.{ReadsFile, WritesFile, file_of};
ghost use Rattle.shed_base.specs.Memory.{next_fails, is_failed, FailsAsListed, new_folder, after_put, after_file_read, after_file_write};

use crate::calls::CallCount;
use crate::outside::Folder;
use crate::refusals::{IoRefusal, NoMemory};
use std::alloc::Global;
use std::collections::VecDeque;
use std::marker::Model;

#[derive(Debug, Drop)]
pub(crate) struct StoredFile {
    name: String,
    bytes: Vec<u8>,
}

/// A folder that is a map from names to bytes, for tests.
///
/// It keeps each write, so its memory grows with what was written to it.
#[derive(Debug, Drop)]
pub struct MemoryFolder {
    alloc: Global,
    // The newest write comes first, so a write is one step: done, or not.
    log: VecDeque<StoredFile>,
    calls: CallCount,
    read_faults: u64,
    write_faults: u64,
}

impl Model for MemoryFolder {
    ghost use Rattle.shed_base.specs.Memory.{FolderState, folder_code};

    ghost Value = { FolderState };

    ghost coded = { folder_code };

    ghost use Rattle.shed_base.specs.Log.{files_of};

    ghost view = { λ f. record { files = files_of f.log.items; calls = f.calls; read_faults = f.read_faults; write_faults = f.write_faults } };
}

impl MemoryFolder {
    /// An empty folder. `fails` has the numbers, from 0, of the calls that are to fail, reads and
    /// writes counted together; a write that fails leaves the first half of its bytes.
    pub fn new(alloc: Global, fails: Vec<u64>) -> MemoryFolder
        ensures { result ≡ new_folder fails.items }
    {
        MemoryFolder {
            alloc,
            log: VecDeque::new(alloc),
            calls: CallCount::new(fails),
            read_faults: 0,
            write_faults: 0,
        }
    }

    /// Puts a file in place. This is no call that is counted, and never one that is to fail.
    pub fn put(&mut self, name: &str, bytes: &[u8]) -> Result<(), NoMemory>
        ensures ok { OnOk result (self.new ≡ after_put self.old name.now bytes.now) }
        ensures err { OnErr result (self.new ≡ self.old) }
    {
        let name = String::from_str(self.alloc, name)?;
        let bytes = Vec::from_slice(self.alloc, bytes)?;
        self.log.push_front(StoredFile { name, bytes })?;
        Ok(())
    }

    /// The contents of a file, and None where there is no file of that name.
    pub fn file(&self, name: &str) -> Option<&[u8]>
        ensures { option_copied result ≡ file_of self.now.files name.now }
    {
        for file in &self.log {
            if name == file.name.as_str() {
                return Some(file.bytes.as_slice());
            }
        }
        None
    }
}

impl Folder for MemoryFolder {
    ghost files = { λ f. Some f.files };

    ghost read_faults = { λ f. f.read_faults };

    ghost write_faults = { λ f. f.write_faults };

    fn read_file(
        &mut self,
        alloc: Global,
        name: &str,
        most: usize,
    ) -> Result<Option<Vec<u8>>, IoRefusal>
        ensures gives { IfOk result (λ found.
            ReadsFile (Some self.old.files) name.now most (option_map vec_items found)) }
        ensures kept { Some self.new.files ≡ Some self.old.files }
        ensures later { self.old.read_faults ≤ self.new.read_faults }
        ensures others { self.new.write_faults ≡ self.old.write_faults }
        ensures failed { IsErrOf result IoRefusal.Failed →
            Rose self.old.read_faults self.new.read_faults }

        // It fails exactly as listed.
        ensures listed { is_failed result ≡ next_fails self.old.calls }
        ensures after { self.new ≡ after_file_read self.old result }
    {
        if self.calls.next_fails() {
            self.read_faults = self.read_faults.saturating_add(1);
            return Err(IoRefusal::Failed);
        }
        match self.file(name) {
            None => Ok(None),
            Some(bytes) => {
                let front = &bytes[..most.min(bytes.len())];
                Ok(Some(Vec::from_slice(alloc, front)?))
            }
        }
    }

    fn write_file(&mut self, name: &str, bytes: &[u8]) -> Result<(), IoRefusal>
        ensures written { WritesFile (Some self.old.files) (Some self.new.files)
            name.now bytes.now result }
        ensures later { self.old.write_faults ≤ self.new.write_faults }
        ensures others { self.new.read_faults ≡ self.old.read_faults }
        ensures failed { IsErrOf result IoRefusal.Failed →
            Rose self.old.write_faults self.new.write_faults }

        // It fails exactly as listed, unless memory runs out.
        ensures listed { FailsAsListed (next_fails self.old.calls) result }
        ensures after { self.new ≡ after_file_write self.old name.now bytes.now result }
    {
        if self.calls.next_fails() {
            self.put(name, &bytes[..bytes.len() / 2])?;
            self.write_faults = self.write_faults.saturating_add(1);
            return Err(IoRefusal::Failed);
        }
        self.put(name, bytes)?;
        Ok(())
    }
}
