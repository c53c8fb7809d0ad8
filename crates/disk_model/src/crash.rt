//! What a crash leaves, as a number picks it.

ghost use Rattle.std.specs.Prelude.{◌≡◌, ◌/◌, ◌%◌, ◌≤◌, ◌^◌, ℕ, Some, length, OnErr, OnOk};
ghost use Rattle.disk_model.specs.Crash.{IsCrash, IsFilled, Tears};
ghost use Rattle.px_base.specs.Octets.{IsOctets};
ghost use Rattle.disk_model.specs.Open.{LeaveOpen};
ghost use Rattle.disk_model.specs.Surface.{IsImage, surface_after};
ghost use Rattle.disk_model.specs.Undone.{StandsOpen, calls_of, standing_open, synced_before};

use crate::open_write::{OpenWrite, Written};
use crate::undoing::undo;
use px_base::OutOfMemory;
use std::alloc::Global;

/// What becomes of the octets that may be any octet: each is this one, or is drawn.
#[derive(Clone, Copy)]
struct Pick {
    octet: Option<u8>,
    drawn: u64,
}

impl Pick {
    /// By the number's remainder by 4: at 2 each is the octet that the next eight bits are, else each is drawn.
    fn new(number: u64) -> Pick
        ensures { number % 4 ≡ 2 → result.octet ≡ Some (number / 4 % 256) }
    {
        Pick {
            octet: (number % 4 == 2).then_some((number / 4 % 256) as u8),
            drawn: number,
        }
    }

    /// The next number, as SplitMix64 draws it.
    fn draw(&mut self) -> u64
        ensures { self.new.octet ≡ self.old.octet }
    {
        self.drawn = self.drawn.wrapping_add(0x9E37_79B9_7F4A_7C15);
        let mixed = (self.drawn ^ (self.drawn >> 30)).wrapping_mul(0xBF58_476D_1CE4_E5B9);
        let mixed = (mixed ^ (mixed >> 27)).wrapping_mul(0x94D0_49BB_1331_11EB);
        mixed ^ (mixed >> 31)
    }

    /// A length from the least to the greatest, which it is where all are one octet.
    fn length(&mut self, least: u64, greatest: u64) -> u64
        requires ordered { least ≤ greatest }
        requires most { greatest ≤ 2 ^ 63 }
        ensures least { least ≤ result }
        ensures greatest { result ≤ greatest }
        ensures filled { (octet : ℕ) → self.old.octet ≡ Some octet → result ≡ greatest }
        ensures same { self.new.octet ≡ self.old.octet }
    {
        if self.octet.is_some() {
            return greatest;
        }
        least + self.draw() % (greatest - least + 1)
    }

    /// The octet that stands where this one was to be written over that one.
    fn octet(&mut self, old: u8, new: u8) -> u8
        ensures filled { (octet : ℕ) → self.old.octet ≡ Some octet → result ≡ octet }
        ensures same { self.new.octet ≡ self.old.octet }
    {
        match self.octet {
            Some(octet) => octet,
            None => match self.draw() % 4 {
                0 => old,
                1 => new,
                _ => (self.draw() % 256) as u8,
            },
        }
    }
}

/// How many octets there have been at most, where these were synced before these writes.
fn greatest_length(synced: &[u8], writes: &[OpenWrite]) -> u64
    requires { LeaveOpen synced.now (calls_of writes.now) }
    ensures most { result ≡ (surface_after synced.now (calls_of writes.now)).most }
    ensures least { length synced.now ≤ result }
{
    let mut most = synced.len() as u64;
    for write in writes {
        most = most.max(write.end());
    }
    most
}

/// Turns the present octets into what a crash leaves, as this number picks it, where so many of them were synced before
/// these writes, which found the octets that are kept. It costs the octets in the ranges of these writes, and those
/// behind what was synced. It changes nothing where there is no memory.
pub(crate) fn lose_power(
    alloc: Global,
    present: &mut Vec<u8>,
    synced: usize,
    writes: &[OpenWrite],
    kept: &mut [u8],
    pick: u64,
) -> Result<(), OutOfMemory>
    requires { StandsOpen synced writes.now kept.old present.old.items }
    ensures crash { OnOk result
        (IsCrash (standing_open synced writes.now kept.old present.old.items) pick present.new.items) }
    ensures octets { OnErr result (present.new.items ≡ present.old.items) }
    ensures kept { OnErr result (kept.new ≡ kept.old) }
{
    if pick % 4 == 0 {
        restore(present, synced, writes, kept);
        return Ok(());
    }
    if pick % 4 == 1 {
        return Ok(());
    }
    tear_all(alloc, present, synced, writes, kept, Pick::new(pick))
}

/// Turns the present octets into those that were synced, where so many were before these writes.
fn restore(present: &mut Vec<u8>, synced: usize, writes: &[OpenWrite], kept: &mut [u8])
    ensures synced { present.new.items ≡ synced_before synced writes.now kept.old present.old.items }
    ensures octets { IsOctets present.new.items }
{
    undo(present.as_mut_slice(), writes, kept);
    present.truncate(synced);
}

/// The same where other octets are put in the ranges of these writes.
fn tear_all(
    alloc: Global,
    present: &mut Vec<u8>,
    synced: usize,
    writes: &[OpenWrite],
    kept: &mut [u8],
    pick: Pick,
) -> Result<(), OutOfMemory>
    requires { StandsOpen synced writes.now kept.old present.old.items }
    ensures image { OnOk result
        (IsImage (standing_open synced writes.now kept.old present.old.items) present.new.items) }
    ensures filled { (octet : ℕ) → pick.octet ≡ Some octet → OnOk result
        (IsFilled (standing_open synced writes.now kept.old present.old.items) octet present.new.items) }
    ensures octets { OnErr result (present.new.items ≡ present.old.items) }
    ensures kept { OnErr result (kept.new ≡ kept.old) }
{
    let mut pick = pick;
    let greatest = greatest_length(&present[..synced], writes);
    let length = pick.length(synced as u64, greatest) as usize;
    let mut behind = Vec::with_capacity(alloc, present.len() - synced)?;
    present.reserve(length.saturating_sub(present.len()))?;
    undo(present.as_mut_slice(), writes, kept);
    behind.extend_from_slice(&present[synced..]).unwrap();
    present.truncate(synced);
    present.resize(length, pick.octet(0, 0)).unwrap();
    let mut rest: &[u8] = kept;
    for write in writes {
        let (over, later) = rest.split_at(write.found.min(rest.len()));
        let written = Written {
            over,
            behind: behind.as_slice(),
            synced,
        };
        tear(present.as_mut_slice(), write, &written, &mut pick);
        rest = later;
    }
    Ok(())
}

/// Puts other octets in the range of a write, as picked for each; those past the end are left out.
fn tear(image: &mut [u8], write: &OpenWrite, written: &Written<'_>, pick: &mut Pick)
    ensures tears { Tears write.now.at write.now.count pick.old.octet image.old image.new }
    ensures same { pick.new.octet ≡ pick.old.octet }
    ensures octets { IsOctets image.new }
{
    let length = image.len() as u64;
    for place in write.at.min(length)..write.end().min(length) {
        let old = image[place as usize];
        let new = written.octet(write, place).unwrap_or(old);
        image[place as usize] = pick.octet(old, new);
    }
}
