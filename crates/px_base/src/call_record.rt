//! The calls that reached a form in memory.

ghost use Rattle.std.specs.Prelude.{◌≡◌, ◌∷◌, ◌++◌, [], None, false, not, IfOk, IsTrue, OnErr};
ghost use Rattle.px_base.specs.Outside.{Grows};
ghost use Rattle.px_base.specs.CallRecords.{IsAdded, no_calls, told, without_call};

use crate::memory::OutOfMemory;
use std::alloc::Global;
use std::marker::Model;

/// The calls that reached a form in memory, in order. They are told until one finds no memory to be recorded.
#[derive(Drop)]
pub struct CallRecord<C> {
    calls: Vec<C>,
    untold: bool,
}

impl<C> Model for CallRecord<C> {
    ghost use Rattle.px_base.specs.CallRecords.{CallRecordState};

    ghost Value = { CallRecordState C };

    ghost view = { λ a. record { calls = a.calls.items; untold = a.untold } };
}

impl<C: Drop> CallRecord<C> {
    /// No call yet. Takes no memory.
    pub fn new(alloc: Global) -> CallRecord<C>
        ensures { result ≡ no_calls }
    {
        CallRecord {
            calls: Vec::new(alloc),
            untold: false,
        }
    }

    /// The calls so far, but for those that found no memory to be recorded.
    pub fn calls(&self) -> &[C]
        ensures { result.now ≡ self.now.calls }
    {
        self.calls.as_slice()
    }

    /// Whether the calls are told: each so far found the memory to be recorded.
    pub fn is_told(&self) -> bool
        ensures { result ≡ not self.now.untold }
    {
        !self.untold
    }

    /// Records a call, where there was memory for it. Takes memory.
    pub fn add(&mut self, made: Result<C, OutOfMemory>)
        ensures ok { IfOk made (λ call. Grows (told self.old) (told self.new) (call ∷ [])) }
        ensures err { OnErr made (told self.new ≡ None) }
        ensures added { IfOk made (IsAdded self.old self.new) }
        ensures lost { OnErr made (self.new ≡ without_call self.old) }
    {
        if !push(&mut self.calls, made) {
            self.untold = true;
        }
    }
}

/// Puts a call at the end, and says whether there was memory for it.
fn push<C: Drop>(calls: &mut Vec<C>, made: Result<C, OutOfMemory>) -> bool
    ensures recorded { IsTrue result → IfOk made (λ call. calls.new.items ≡ calls.old.items ++ call ∷ []) }
    ensures err { OnErr made (result ≡ false) }
    ensures same { result ≡ false → calls.new.items ≡ calls.old.items }
{
    match made {
        Ok(call) => calls.push(call).is_ok(),
        Err(_) => false,
    }
}
