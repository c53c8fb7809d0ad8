//! A shelf in memory: contents under names, and a count of calls.

ghost use Rattle.std.specs.Prelude.{◌≡◌, ◌⊎◌, Err, Some, IfOk, OnOk, OnErr};
ghost use Rattle.px_base.specs.Counter.{HasCauses};
ghost use Rattle.px_base.specs.Outside.{HasCause};
ghost use Rattle.px_base.specs.ShelfForms.{IsKeeping, IsLoading, holding_of, new_shelf_state};
ghost use Rattle.px_base.specs.Shelves.{HasLoadCause, IsWithin, Keeps, KeepsOthers, Loads, SameOthers, content_of, load_answer};
ghost use Rattle.std.specs.Option.{option_copied};

use crate::FileBytes;
use crate::call_counter::CallCounter;
use crate::fault_count::FaultCount;
use crate::memory::OutOfMemory;
use crate::shelf::{Shelf, ShelfDown, ShelfRefusal};
use std::alloc::Global;
use std::collections::BTreeMap;
use std::marker::Model;

/// A shelf in memory. The calls of `load` and `keep` are numbered together from 1; a call whose number is listed
/// fails, and changes nothing that is held. Keeping that finds no memory fails too.
#[derive(Drop)]
pub struct MemoryShelf {
    alloc: Global,
    held: BTreeMap<String, FileBytes>,
    calls: CallCounter,
    faults: FaultCount,
}

impl Model for MemoryShelf {
    ghost use Rattle.px_base.specs.Counter.{HasCauses};
    ghost use Rattle.px_base.specs.ShelfForms.{MemoryShelfState, holding_of};

    ghost Value = { MemoryShelfState };

    ghost view = { λ a. record { held = holding_of a.held.entries; calls = a.calls; faults = a.faults } };

    ghost invariant = { λ a. HasCauses a.calls a.faults };
}

impl MemoryShelf {
    /// A shelf that has no names yet, and whose calls of these numbers fail. Takes memory.
    pub fn new(alloc: Global, failing: &[u64]) -> Result<MemoryShelf, OutOfMemory>
        ensures { IfOk result (λ shelf. shelf ≡ new_shelf_state failing.now) }
    {
        Ok(MemoryShelf {
            alloc,
            held: BTreeMap::new(alloc),
            calls: CallCounter::new(alloc, failing)?,
            faults: FaultCount::new(),
        })
    }

    /// The content of this name, if there is any. It counts as no call.
    pub fn content(&self, name: &str) -> Option<&FileBytes>
        ensures { option_copied result ≡ content_of self.now.held name.now }
    {
        content_in(&self.held, name)
    }

    /// Whether a call found no memory. While it is false, and no call is listed to fail, no fault is counted.
    pub fn starved(&self) -> bool
        ensures value { result ≡ self.now.calls.starved }
        ensures faults { HasCauses self.now.calls self.now.faults }
    {
        self.calls.starved()
    }
}

impl Shelf for MemoryShelf {
    ghost use Rattle.std.specs.Prelude.{Some};

    ghost held = { λ a. Some a.held };

    ghost faults = { λ a. a.faults };

    /// The content of this name, of at most `most` octets; a call that is listed fails. Want of memory is told by
    /// `starved`, and is no fault.
    fn load(&mut self, alloc: Global, name: &str, most: usize) -> Result<FileBytes, ShelfRefusal>
        ensures most { IsWithin most result }
        ensures answer { Loads (Some self.old.held) name.now most result }
        ensures held { Some self.new.held ≡ Some self.old.held }
        ensures faults { HasLoadCause self.old.faults self.new.faults result }
        ensures loading { IsLoading self.old self.new name.now most result }
    {
        if self.calls.count() {
            self.faults.count();
            return Err(ShelfRefusal::Fault);
        }
        let answer = copy_of(alloc, content_in(&self.held, name), most);
        if let Err(ShelfRefusal::OutOfMemory) = &answer {
            self.calls.starve();
        }
        answer
    }

    /// Sets the content of this name; a call that is listed, or finds no memory, fails and changes nothing held.
    fn keep(&mut self, name: &str, bytes: &[u8]) -> Result<(), ShelfDown>
        ensures ok { OnOk result (Keeps (Some self.old.held) (Some self.new.held) name.now bytes.now) }
        ensures err { OnErr result (KeepsOthers (Some self.old.held) (Some self.new.held) name.now) }
        ensures faults { HasCause self.old.faults self.new.faults result }
        ensures keeping { IsKeeping self.old self.new name.now bytes.now result }
    {
        if self.calls.count() {
            self.faults.count();
            return Err(ShelfDown);
        }
        if put(self.alloc, &mut self.held, name, bytes).is_err() {
            self.calls.starve();
            self.faults.count();
            return Err(ShelfDown);
        }
        Ok(())
    }
}

/// The content of this name.
#[tactic(auto, using(crate::proofs::ShelfStates::held_names))]
fn content_in<'a>(held: &'a BTreeMap<String, FileBytes>, name: &str) -> Option<&'a FileBytes>
    ensures { option_copied result ≡ content_of (holding_of held.now.entries) name.now }
{
    held.get(name)
}

/// A copy of this content, if there is any, of at most `most` octets.
fn copy_of(
    alloc: Global,
    content: Option<&FileBytes>,
    most: usize,
) -> Result<FileBytes, ShelfRefusal>
    ensures { (result ≡ load_answer (option_copied content.entry) most) ⊎ (result ≡ Err ShelfRefusal.OutOfMemory) }
{
    let content = content.ok_or(ShelfRefusal::NoSuch)?;
    if content.len() > most {
        return Err(ShelfRefusal::TooLong);
    }
    FileBytes::copy_of(alloc, content.as_slice()).map_err(|_| ShelfRefusal::OutOfMemory)
}

/// Puts a copy of these octets under this name, or changes nothing where there is no memory.
fn put(
    alloc: Global,
    held: &mut BTreeMap<String, FileBytes>,
    name: &str,
    bytes: &[u8],
) -> Result<(), OutOfMemory>
    ensures this { OnOk result (content_of (holding_of held.new.entries) name.now ≡ Some bytes.now) }
    ensures others { OnOk result (SameOthers (holding_of held.old.entries) (holding_of held.new.entries) name.now) }
    ensures err { OnErr result (held.new.entries ≡ held.old.entries) }
{
    let name = String::from_str(alloc, name)?;
    let content = FileBytes::copy_of(alloc, bytes)?;
    held.insert(name, content)?;
    Ok(())
}
