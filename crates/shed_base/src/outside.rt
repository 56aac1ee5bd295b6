ghost use Rattle.std.specs.Prelude.{◌≡◌, ℕ, ◌<◌, ◌≤◌, List, length, take, Option, option_map, vec_items, IfOk, IsErr, IsErrOf};
ghost use Rattle.shed_base.specs.Outside.{Rose, appended, put_back, ZeroExactlyAtEnd};
ghost use Rattle.shed_base.specs.Files.{Files, ReadsFile, WritesFile};

use crate::refusals::{Failed, IoRefusal};
use std::alloc::Global;

/// Input, read from its front.
pub trait Source {
    /// The bytes that are left, where they are told.
    ghost left: { Self → Option (List ℕ) };

    /// How many calls failed. It never falls, and stays at the last value of a `u64`.
    ghost faults: { Self → ℕ };

    /// Takes the first bytes that are left into the first places of `into`, and answers how many.
    ///
    /// 0 for a slice that is not empty is the end of the input. `Failed` takes no byte; the places
    /// of `into` may hold anything then.
    fn read(&mut self, into: &mut [u8]) -> Result<usize, Failed>
        ensures count { IfOk result (λ n. n ≤ length into.new) }
        ensures taken { IfOk result (λ n.
            left self.old ≡ put_back (take n into.new) (left self.new)) }
        ensures end { IfOk result (λ n. 0 < length into.new → ZeroExactlyAtEnd n (left self.old)) }
        ensures kept { IsErr result → left self.new ≡ left self.old }
        ensures later { faults self.old ≤ faults self.new }
        ensures failed { IsErr result → Rose (faults self.old) (faults self.new) };
}

/// Output, written at its end.
pub trait Sink {
    /// The bytes that were taken, where they are told.
    ghost held: { Self → Option (List ℕ) };

    /// How many calls failed. It never falls, and stays at the last value of a `u64`.
    ghost faults: { Self → ℕ };

    /// Appends the first bytes of `piece`, and answers how many: at least one, if it has any.
    ///
    /// After `Failed` some first bytes of the piece may stand at the end, and after `NoMemory` none.
    fn write(&mut self, piece: &[u8]) -> Result<usize, IoRefusal>
        ensures count { IfOk result (λ n. n ≤ length piece.now) }
        ensures some { IfOk result (λ n. 0 < length piece.now → 0 < n) }
        ensures written { IfOk result (λ n.
            held self.new ≡ appended (held self.old) (take n piece.now)) }
        ensures part { IsErrOf result IoRefusal.Failed →
            (n : ℕ) × (held self.new ≡ appended (held self.old) (take n piece.now)) }
        ensures kept { IsErrOf result IoRefusal.NoMemory → held self.new ≡ held self.old }
        ensures later { faults self.old ≤ faults self.new }
        ensures failed { IsErrOf result IoRefusal.Failed →
            Rose (faults self.old) (faults self.new) };
}

/// Files by their names.
pub trait Folder {
    /// The files, where they are told.
    ghost files: { Self → Option Files };

    /// How many reads failed. It never falls, and stays at the last value of a `u64`.
    ghost read_faults: { Self → ℕ };

    /// How many writes failed. It never falls, and stays at the last value of a `u64`.
    ghost write_faults: { Self → ℕ };

    /// Gives the first `most` bytes of a file, all where it is shorter, and None where there is no
    /// file of that name.
    fn read_file(
        &mut self,
        alloc: Global,
        name: &str,
        most: usize,
    ) -> Result<Option<Vec<u8>>, IoRefusal>
        ensures gives { IfOk result (λ found.
            ReadsFile (files self.old) name.now most (option_map vec_items found)) }
        ensures kept { files self.new ≡ files self.old }
        ensures later { read_faults self.old ≤ read_faults self.new }
        ensures others { write_faults self.new ≡ write_faults self.old }
        ensures failed { IsErrOf result IoRefusal.Failed →
            Rose (read_faults self.old) (read_faults self.new) };

    /// Writes a file, in place of one of that name if there is one.
    ///
    /// After `Failed` a prefix of the bytes stands under the name, and after `NoMemory` nothing has
    /// changed.
    fn write_file(&mut self, name: &str, bytes: &[u8]) -> Result<(), IoRefusal>
        ensures written { WritesFile (files self.old) (files self.new) name.now bytes.now result }
        ensures later { write_faults self.old ≤ write_faults self.new }
        ensures others { read_faults self.new ≡ read_faults self.old }
        ensures failed { IsErrOf result IoRefusal.Failed →
            Rose (write_faults self.old) (write_faults self.new) };
}
