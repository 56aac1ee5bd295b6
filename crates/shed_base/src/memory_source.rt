ghost use Rattle.std.specs.Prelude.{◌≡◌, ◌<◌, ◌≤◌, length, take, Some, IfOk, IsErr, is_err};
ghost use Rattle.shed_base.specs.Outside.{Rose, put_back, ZeroExactlyAtEnd};
ghost use Rattle.shed_base.specs.Memory.{next_fails, next_count, new_source, after_read};

use crate::calls::CallCount;
use crate::outside::Source;
use crate::refusals::Failed;
use std::marker::Model;

/// Input that is a list of bytes, for tests.
#[derive(Debug, Drop)]
pub struct MemorySource {
    bytes: Vec<u8>,
    taken: usize,
    most: usize,
    calls: CallCount,
    faults: u64,
}

impl Model for MemorySource {
    ghost use Rattle.std.specs.Prelude.{◌≤◌, length, drop};
    ghost use Rattle.shed_base.specs.Memory.{SourceState};

    ghost Value = { SourceState };

    ghost view = { λ s. record { rest = drop s.taken s.bytes.items; most = s.most; calls = s.calls; faults = s.faults } };

    ghost invariant = { λ s. (s.taken ≤ length s.bytes.items) × (1 ≤ s.most) };
}

impl MemorySource {
    /// A source of these bytes that gives at most `most` of them at once. `fails` has the numbers,
    /// from 0, of the calls that are to fail; they take no byte.
    pub fn new(bytes: Vec<u8>, most: usize, fails: Vec<u64>) -> MemorySource
        requires { 1 ≤ most }
        ensures { result ≡ new_source bytes.items most fails.items }
    {
        MemorySource {
            bytes,
            taken: 0,
            most,
            calls: CallCount::new(fails),
            faults: 0,
        }
    }
}

impl Source for MemorySource {
    ghost left = { λ s. Some s.rest };

    ghost faults = { λ s. s.faults };

    fn read(&mut self, into: &mut [u8]) -> Result<usize, Failed>
        ensures count { IfOk result (λ n. n ≤ length into.new) }
        ensures taken { IfOk result (λ n.
            Some self.old.rest ≡ put_back (take n into.new) (Some self.new.rest)) }
        ensures end { IfOk result (λ n.
            0 < length into.new → ZeroExactlyAtEnd n (Some self.old.rest)) }
        ensures kept { IsErr result → Some self.new.rest ≡ Some self.old.rest }
        ensures later { self.old.faults ≤ self.new.faults }
        ensures failed { IsErr result → Rose self.old.faults self.new.faults }

        // It fails exactly as listed, and gives as much as there is and may be given.
        ensures listed { is_err result ≡ next_fails self.old.calls }
        ensures exact { IfOk result (λ n. n ≡ next_count self.old (length into.old)) }
        ensures after { self.new ≡ after_read self.old result }
    {
        if self.calls.next_fails() {
            self.faults = self.faults.saturating_add(1);
            return Err(Failed);
        }
        let rest = &self.bytes[self.taken..];
        let count = rest.len().min(into.len()).min(self.most);
        into[..count].copy_from_slice(&rest[..count]);
        self.taken += count;
        Ok(count)
    }
}
