//! What was done to a disk in memory since it was made, and what stands on it.

ghost use Rattle.std.specs.Prelude.{◌≡◌, ◌+◌, ◌<◌, ◌≤◌, ◌^◌, [], ◌∷◌, ◌++◌, length, vec_capacity};
ghost use Rattle.std.specs.Prelude.{vec_len, false, true, IfOk, MatchResult, OnOk, OnErr};
ghost use Rattle.disk_model.specs.Calls.{LosesWrite, RecordsCut};
ghost use Rattle.disk_model.specs.Surface.{IsImage, surface_after, sync_of, write_of};
ghost use Rattle.disk_model.specs.Undone.{Undoes};
ghost use Rattle.disk_model.specs.declared.disk_call.DiskCall.TheVariants as DiskCall;

use crate::crash::lose_power;
use crate::limits::ends_within;
use crate::open_write::OpenWrite;
use crate::past::{First, Past, Told};
use crate::undoing::overwrite_keeping;
use px_base::OutOfMemory;
use std::alloc::Global;

/// What a new disk has room for beside its octets, so that short ones never move as they grow.
const ROOM: usize = 131_072;

/// What was done to a disk, for proofs alone; the octets that a read gives, how many were synced last, and the writes
/// since then with the octets that they found, by which they can be undone; and whether the disk is down. While it
/// isn't, there is room for one write more, so that one that finds no memory leaves its range open.
#[derive(Drop)]
pub(crate) struct History {
    alloc: Global,
    past: Past,
    present: Vec<u8>,
    /// How many octets were synced last.
    synced: usize,
    /// The writes since then, in order.
    writes: Vec<OpenWrite>,
    /// The octets that these found, one write behind another.
    kept: Vec<u8>,
    down: bool,
    ghost content: { present.items ≡ (surface_after past.first past.calls).content },
    ghost image: { IsImage (surface_after past.first past.calls) present.items },
    ghost most: { (surface_after past.first past.calls).most ≤ 2 ^ 63 },
    ghost room: { down ≡ false → vec_len writes < vec_capacity writes },
    ghost undoes: { Undoes past.first past.calls synced writes.items kept.items present.items },
}

impl History {
    /// A quiet disk with these octets.
    pub(crate) fn new(alloc: Global, bytes: &[u8]) -> Result<History, OutOfMemory>
        ensures first { IfOk result (λ history. history.past.first ≡ bytes.now) }
        ensures calls { IfOk result (λ history. history.past.calls ≡ []) }
        ensures up { IfOk result (λ history. history.down ≡ false) }
    {
        Ok(History {
            alloc,
            past: Past::new(&First { bytes }),
            present: octets_with_room(alloc, bytes)?,
            synced: bytes.len(),
            writes: Vec::with_capacity(alloc, 1)?,
            kept: Vec::new(alloc),
            down: false,
        })
    }

    /// The allocator.
    pub(crate) fn alloc(&self) -> Global {
        self.alloc
    }

    /// Whether it is down.
    pub(crate) fn is_down(&self) -> bool
        ensures { result ≡ self.now.down }
    {
        self.down
    }

    /// The octets that a read gives.
    pub(crate) fn present(&self) -> &[u8]
        ensures content { result.now ≡ (surface_after self.now.past.first self.now.past.calls).content }
        ensures most { length result.now ≤ 2 ^ 63 }
    {
        self.present.as_slice()
    }

    /// Writes octets, or changes nothing where there is no memory, or where they would end past 2^63.
    fn write(&mut self, at: u64, bytes: &[u8]) -> Result<(), OutOfMemory>
        ensures first { self.new.past.first ≡ self.old.past.first }
        ensures ok { OnOk result (self.new.past.calls ≡ self.old.past.calls ++ DiskCall.Write at bytes.now ∷ []) }
        ensures err { OnErr result (self.new.past.calls ≡ self.old.past.calls) }
        ensures down { self.new.down ≡ self.old.down }
    {
        self.writes.reserve(2)?;
        let found = overwrite_keeping(&mut self.present, &mut self.kept, at, bytes)?;
        let written = OpenWrite {
            at,
            count: bytes.len() as u64,
            found,
            passed: true,
        };
        self.writes.push(written).unwrap();
        self.past = self.past.then(&Told::Write { at, bytes });
        Ok(())
    }

    /// Fails to write so many octets, and is down. Takes no memory.
    fn break_off(&mut self, at: u64, count: u64)
        requires up { self.old.down ≡ false }
        requires ends { at + count ≤ 2 ^ 63 }
        ensures first { self.new.past.first ≡ self.old.past.first }
        ensures calls { self.new.past.calls ≡ self.old.past.calls ++ DiskCall.TornWrite at count ∷ [] }
        ensures down { self.new.down ≡ true }
    {
        self.down = true;
        let torn = OpenWrite {
            at,
            count,
            found: 0,
            passed: false,
        };
        self.writes.push(torn).unwrap();
        self.past = self.past.then(&Told::TornWrite { at, count });
    }

    /// Fails to write so many octets, and is down where there is no memory for a further call.
    pub(crate) fn tear(&mut self, at: u64, count: u64) -> Result<(), OutOfMemory>
        requires up { self.old.down ≡ false }
        requires ends { at + count ≤ 2 ^ 63 }
        ensures first { self.new.past.first ≡ self.old.past.first }
        ensures calls { self.new.past.calls ≡ self.old.past.calls ++ DiskCall.TornWrite at count ∷ [] }
        ensures ok { OnOk result (self.new.down ≡ false) }
        ensures err { OnErr result (self.new.down ≡ true) }
    {
        self.break_off(at, count);
        self.writes.reserve(1)?;
        self.down = false;
        Ok(())
    }

    /// Writes octets, or fails to. A write that finds no memory fails too, and the disk is down. A range that would end
    /// past 2^63 is want of memory as well, and changes nothing, as does a write to a disk that is down.
    pub(crate) fn write_at(&mut self, at: u64, bytes: &[u8], fails: bool) -> Result<(), OutOfMemory>
        ensures first { self.new.past.first ≡ self.old.past.first }
        ensures up { OnOk result ((self.old.down ≡ false) × (self.new.down ≡ false)) }
        ensures ends { OnOk result (at + length bytes.now ≤ 2 ^ 63) }
        ensures ok { OnOk result (self.new.past.calls ≡ self.old.past.calls ++ write_of fails at bytes.now ∷ []) }
        ensures err { OnErr result
            (LosesWrite self.old.past.calls self.new.past.calls self.old.down self.new.down at (length bytes.now)) }
    {
        if self.down || !ends_within(at, bytes) {
            return Err(OutOfMemory);
        }
        if fails {
            return self.tear(at, bytes.len() as u64);
        }
        if self.write(at, bytes).is_err() {
            self.break_off(at, bytes.len() as u64);
            return Err(OutOfMemory);
        }
        Ok(())
    }

    /// Syncs what was written, or fails to. It changes nothing where the disk is down.
    pub(crate) fn sync(&mut self, fails: bool) -> Result<(), OutOfMemory>
        ensures first { self.new.past.first ≡ self.old.past.first }
        ensures up { OnOk result (self.old.down ≡ false) }
        ensures ok { OnOk result (self.new.past.calls ≡ self.old.past.calls ++ sync_of fails ∷ []) }
        ensures err { OnErr result (self.new.past.calls ≡ self.old.past.calls) }
        ensures down { self.new.down ≡ self.old.down }
    {
        if self.down {
            return Err(OutOfMemory);
        }
        if fails {
            self.past = self.past.then(&Told::FailedSync);
            return Ok(());
        }
        self.past = self.past.then(&Told::Sync);
        self.synced = self.present.len();
        self.writes.clear();
        self.kept.clear();
        Ok(())
    }

    /// Loses power: what is left is picked by this number. It costs the octets in the open ranges, and those behind
    /// what was synced. It changes nothing where there is no memory.
    pub(crate) fn lose_power(&mut self, pick: u64) -> Result<(), OutOfMemory>
        ensures first { self.new.past.first ≡ self.old.past.first }
        ensures calls { MatchResult result
            (λ _. RecordsCut self.old.past.first self.old.past.calls self.new.past.calls pick)
            (λ _. self.new.past.calls ≡ self.old.past.calls) }
        ensures up { OnOk result (self.new.down ≡ false) }
    {
        self.writes.reserve(1)?;
        lose_power(
            self.alloc,
            &mut self.present,
            self.synced,
            self.writes.as_slice(),
            self.kept.as_mut_slice(),
            pick,
        )?;
        self.past = self.past.then(&Told::PowerCut {
            left: self.present.as_slice(),
        });
        self.synced = self.present.len();
        self.writes.clear();
        self.kept.clear();
        self.down = false;
        Ok(())
    }
}

/// These octets, with room for more.
fn octets_with_room(alloc: Global, bytes: &[u8]) -> Result<Vec<u8>, OutOfMemory>
    ensures { IfOk result (λ octets. octets.items ≡ bytes.now) }
{
    let mut octets = Vec::with_capacity(alloc, bytes.len().saturating_add(ROOM))?;
    octets.extend_from_slice(bytes)?;
    Ok(octets)
}
