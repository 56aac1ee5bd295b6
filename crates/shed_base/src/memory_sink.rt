ghost use Rattle.std.specs.Prelude.{◌≡◌, ℕ, ◌<◌, ◌≤◌, length, take, min, Some, IfOk, IsErrOf};
ghost use Rattle.shed_base.specs.Outside.{Rose, appended};
ghost use Rattle.shed_base.specs.Memory.{next_fails, is_failed, new_sink, after_write};

use crate::calls::CallCount;
use crate::outside::Sink;
use crate::refusals::IoRefusal;
use std::alloc::Global;
use std::marker::Model;

/// Output that is a list of bytes, for tests.
#[derive(Debug, Drop)]
pub struct MemorySink {
    bytes: Vec<u8>,
    most: usize,
    calls: CallCount,
    faults: u64,
}

impl Model for MemorySink {
    ghost use Rattle.std.specs.Prelude.{◌≤◌};
    ghost use Rattle.shed_base.specs.Memory.{SinkState};

    ghost Value = { SinkState };

    ghost view = { λ s. record { bytes = s.bytes.items; most = s.most; calls = s.calls; faults = s.faults } };

    ghost invariant = { λ s. 1 ≤ s.most };
}

impl MemorySink {
    /// An empty sink that takes at most `most` bytes at once. `fails` has the numbers, from 0, of
    /// the calls that are to fail; they take no byte.
    pub fn new(alloc: Global, most: usize, fails: Vec<u64>) -> MemorySink
        requires { 1 ≤ most }
        ensures { result ≡ new_sink most fails.items }
    {
        MemorySink {
            bytes: Vec::new(alloc),
            most,
            calls: CallCount::new(fails),
            faults: 0,
        }
    }

    /// The bytes that were taken.
    pub fn bytes(&self) -> &[u8]
        ensures { result.now ≡ self.now.bytes }
    {
        self.bytes.as_slice()
    }
}

impl Sink for MemorySink {
    ghost held = { λ s. Some s.bytes };

    ghost faults = { λ s. s.faults };

    fn write(&mut self, piece: &[u8]) -> Result<usize, IoRefusal>
        ensures count { IfOk result (λ n. n ≤ length piece.now) }
        ensures some { IfOk result (λ n. 0 < length piece.now → 0 < n) }
        ensures written { IfOk result (λ n.
            Some self.new.bytes ≡ appended (Some self.old.bytes) (take n piece.now)) }
        ensures part { IsErrOf result IoRefusal.Failed →
            (n : ℕ) × (Some self.new.bytes ≡ appended (Some self.old.bytes) (take n piece.now)) }
        ensures kept { IsErrOf result IoRefusal.NoMemory →
            Some self.new.bytes ≡ Some self.old.bytes }
        ensures later { self.old.faults ≤ self.new.faults }
        ensures failed { IsErrOf result IoRefusal.Failed → Rose self.old.faults self.new.faults }

        // It fails exactly as listed, and takes as much as it may.
        ensures listed { is_failed result ≡ next_fails self.old.calls }
        ensures exact { IfOk result (λ n. n ≡ min (length piece.now) self.old.most) }
        ensures after { self.new ≡ after_write self.old piece.now result }
    {
        if self.calls.next_fails() {
            self.faults = self.faults.saturating_add(1);
            return Err(IoRefusal::Failed);
        }
        let count = piece.len().min(self.most);
        if self.bytes.extend_from_slice(&piece[..count]).is_err() {
            return Err(IoRefusal::NoMemory);
        }
        Ok(count)
    }
}
