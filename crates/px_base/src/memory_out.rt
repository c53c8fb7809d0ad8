//! An output in memory: a record of what was shown.

ghost use Rattle.std.specs.Prelude.{◌≡◌, Some, IfOk, OnOk, OnErr};
ghost use Rattle.px_base.specs.Counter.{HasCauses};
ghost use Rattle.px_base.specs.Forms.{IsShowing, new_out_state};
ghost use Rattle.px_base.specs.Outside.{Gains, GainsPrefix, HasCause};

use crate::call_counter::CallCounter;
use crate::fault_count::FaultCount;
use crate::memory::OutOfMemory;
use crate::out::{Out, OutDown};
use std::alloc::Global;
use std::marker::Model;

/// An output in memory. The calls of `put` are numbered from 1; a call whose number is listed fails, and shows
/// nothing. A call that finds no memory fails too.
#[derive(Drop)]
pub struct MemoryOut {
    shown: Vec<u8>,
    calls: CallCounter,
    faults: FaultCount,
}

impl Model for MemoryOut {
    ghost use Rattle.px_base.specs.Counter.{HasCauses};
    ghost use Rattle.px_base.specs.Forms.{MemoryOutState};

    ghost Value = { MemoryOutState };

    ghost view = { λ a. record { shown = a.shown.items; calls = a.calls; faults = a.faults } };

    ghost invariant = { λ a. HasCauses a.calls a.faults };
}

impl MemoryOut {
    /// An output whose calls of these numbers fail. Takes memory.
    pub fn new(alloc: Global, failing: &[u64]) -> Result<MemoryOut, OutOfMemory>
        ensures { IfOk result (λ out. out ≡ new_out_state failing.now) }
    {
        Ok(MemoryOut {
            shown: Vec::new(alloc),
            calls: CallCounter::new(alloc, failing)?,
            faults: FaultCount::new(),
        })
    }

    /// The octets shown so far.
    pub fn shown(&self) -> &[u8]
        ensures { result.now ≡ self.now.shown }
    {
        self.shown.as_slice()
    }

    /// Whether a call found no memory. While it is false, and no call is listed to fail, no fault is counted.
    pub fn starved(&self) -> bool
        ensures value { result ≡ self.now.calls.starved }
        ensures faults { HasCauses self.now.calls self.now.faults }
    {
        self.calls.starved()
    }
}

impl Out for MemoryOut {
    ghost use Rattle.std.specs.Prelude.{Some};

    ghost shown = { λ a. Some a.shown };

    ghost faults = { λ a. a.faults };

    /// Shows all of these octets; a call that is listed, or finds no memory for them, fails and shows none.
    fn put(&mut self, bytes: &[u8]) -> Result<(), OutDown>
        ensures ok { OnOk result (Gains (Some self.old.shown) (Some self.new.shown) bytes.now) }
        ensures err { OnErr result (GainsPrefix (Some self.old.shown) (Some self.new.shown) bytes.now) }
        ensures faults { HasCause self.old.faults self.new.faults result }
        ensures showing { IsShowing self.old self.new bytes.now result }
    {
        if self.calls.count() {
            self.faults.count();
            return Err(OutDown);
        }
        if self.shown.extend_from_slice(bytes).is_err() {
            self.calls.starve();
            self.faults.count();
            return Err(OutDown);
        }
        Ok(())
    }
}
