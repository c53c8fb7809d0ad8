//! A clock in memory: a list of moments, of which the last goes on.

ghost use Rattle.std.specs.Prelude.{◌≡◌, ◌≤◌, length, IfOk};
ghost use Rattle.px_base.specs.Moments.{Gives, moment_after, told_given};
ghost use Rattle.px_base.specs.Outside.{counted};

use crate::Moment;
use crate::clock::Clock;
use crate::memory::OutOfMemory;
use std::alloc::Global;
use std::marker::Model;

/// A clock in memory. It gives its moments in order, and then the last one at each call.
#[derive(Drop)]
pub struct MemoryClock {
    moments: Vec<u32>,
    calls: u64,
}

impl Model for MemoryClock {
    ghost use Rattle.std.specs.Prelude.{◌≤◌, vec_len};
    ghost use Rattle.px_base.specs.Moments.{MemoryClockState};

    ghost Value = { MemoryClockState };

    ghost view = { λ a. record { moments = a.moments.items; calls = a.calls } };

    ghost invariant = { λ a. 1 ≤ vec_len a.moments };
}

impl MemoryClock {
    /// A clock that gives these moments, in seconds since 1 January 1970. Takes memory.
    pub fn new(alloc: Global, moments: &[u32]) -> Result<MemoryClock, OutOfMemory>
        requires { 1 ≤ length moments.now }
        ensures { IfOk result (λ clock. clock ≡ record { moments = moments.now; calls = 0 }) }
    {
        Ok(MemoryClock {
            moments: Vec::from_slice(alloc, moments)?,
            calls: 0,
        })
    }

    /// How many moments were given so far, up to 2^64 - 1.
    pub fn calls(&self) -> u64
        ensures { result ≡ self.now.calls }
    {
        self.calls
    }
}

impl Clock for MemoryClock {
    ghost use Rattle.px_base.specs.Moments.{told_given};

    ghost given = { told_given };

    /// The next moment, or the last one again.
    fn now(&mut self) -> Moment
        ensures given { Gives (told_given self.old) (told_given self.new) result }
        ensures moment { result ≡ moment_after self.old.calls self.old.moments }
        ensures calls { self.new ≡ record self.old { calls = counted self.old.calls } }
    {
        let last = self.moments.len() - 1;
        let place = (self.calls as usize).min(last);
        self.calls = self.calls.saturating_add(1);
        Moment::new(self.moments[place])
    }
}
