ghost use Rattle.std.specs.Prelude.{◌≡◌};
ghost use Rattle.shed_base.specs.Memory.{next_fails, no_calls, one_more};

use std::marker::Model;

/// Counts the calls on an object in memory, and knows which of them are to fail.
#[derive(Debug, Drop)]
pub(crate) struct CallCount {
    listed: Vec<u64>,
    // Wider than the numbers in the list, so that no call past them meets one.
    made: u128,
}

impl Model for CallCount {
    ghost use Rattle.shed_base.specs.Memory.{Calls};

    ghost Value = { Calls };

    ghost view = { λ c. record { listed = c.listed.items; made = c.made } };
}

impl CallCount {
    pub(crate) fn new(listed: Vec<u64>) -> CallCount
        ensures { result ≡ no_calls listed.items }
    {
        CallCount { listed, made: 0 }
    }

    /// Counts a call, and tells whether it is to fail.
    pub(crate) fn next_fails(&mut self) -> bool
        ensures fails { result ≡ next_fails self.old }
        ensures counted { self.new ≡ one_more self.old }
    {
        let fails = self
            .listed
            .iter()
            .any(|&number| u128::from(number) == self.made);
        self.made = self.made.saturating_add(1);
        fails
    }
}
