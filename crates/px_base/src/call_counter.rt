//! How the calls of a form in memory are numbered.

ghost use Rattle.std.specs.Prelude.{◌≡◌, ◌↔◌, [], false, true, IfOk, IsTrue};
ghost use Rattle.px_base.specs.Counter.{IsListed, counter_after_call, new_counter};

use crate::memory::OutOfMemory;
use std::alloc::Global;
use std::marker::Model;

/// How many calls were made, up to 2^64 - 1; the numbers of those that are to fail, from 1; and whether one found no
/// memory.
#[derive(Drop)]
pub struct CallCounter {
    numbered: u64,
    failing: Vec<u64>,
    starved: bool,
}

impl Model for CallCounter {
    ghost use Rattle.px_base.specs.Counter.{CallCounterState};

    ghost Value = { CallCounterState };

    ghost view = { λ a. record { numbered = a.numbered; failing = a.failing.items; starved = a.starved } };
}

impl CallCounter {
    /// No call yet; those of these numbers are to fail. Takes memory.
    pub fn new(alloc: Global, failing: &[u64]) -> Result<CallCounter, OutOfMemory>
        ensures { IfOk result (λ counter. counter ≡ new_counter failing.now) }
    {
        Ok(CallCounter {
            numbered: 0,
            failing: Vec::from_slice(alloc, failing)?,
            starved: false,
        })
    }

    /// Whether the next call is listed to fail.
    pub fn next_is_listed(&self) -> bool
        ensures listed { IsTrue result ↔ IsListed self.now }
        ensures none { self.now.failing ≡ [] → result ≡ false }
    {
        !self.failing.is_empty() && self.failing.contains(&self.numbered.saturating_add(1))
    }

    /// Numbers a call, and says whether it is listed to fail.
    pub fn count(&mut self) -> bool
        ensures listed { IsTrue result ↔ IsListed self.old }
        ensures none { self.old.failing ≡ [] → result ≡ false }
        ensures call { self.new ≡ counter_after_call self.old }
    {
        let listed = self.next_is_listed();
        self.numbered = self.numbered.saturating_add(1);
        listed
    }

    /// Says that a call found no memory.
    pub fn starve(&mut self)
        ensures { self.new ≡ record self.old { starved = true } }
    {
        self.starved = true;
    }

    /// Whether a call found no memory.
    pub fn starved(&self) -> bool
        ensures { result ≡ self.now.starved }
    {
        self.starved
    }
}
