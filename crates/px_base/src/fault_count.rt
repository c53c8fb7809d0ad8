//! Counts of faults.

ghost use Rattle.std.specs.Prelude.{◌≡◌, ◌≤◌};
ghost use Rattle.px_base.specs.Outside.{HasCause, Rose, counted, counted_after};

use std::marker::Model;

/// A count of faults, up to 2^64 - 1, where it stands still.
#[derive(Drop)]
pub struct FaultCount {
    faults: u64,
}

impl Model for FaultCount {
    ghost use Rattle.std.specs.Prelude.{ℕ};

    ghost Value = { ℕ };

    ghost view = { λ a. a.faults };
}

impl FaultCount {
    /// No fault yet.
    pub fn new() -> FaultCount
        ensures { result ≡ 0 }
    {
        FaultCount { faults: 0 }
    }

    /// Counts a fault.
    pub fn count(&mut self)
        ensures counted { self.new ≡ counted self.old }
        ensures no_less { self.old ≤ self.new }
        ensures rose { Rose self.old self.new }
    {
        self.faults = self.faults.saturating_add(1);
    }

    /// Counts a fault where this answer is an error, and hands the answer on.
    pub fn count_err<T, E>(&mut self, answer: Result<T, E>) -> Result<T, E>
        ensures same { result ≡ answer }
        ensures counted { self.new ≡ counted_after answer self.old }
        ensures cause { HasCause self.old self.new answer }
    {
        if answer.is_err() {
            self.count();
        }
        answer
    }
}
