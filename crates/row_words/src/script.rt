//! The turns of a row, with the moments that its clock gives.

ghost use Rattle.std.specs.Prelude.{◌≡◌, ◌≤◌, ◌++◌, length, IfOk, OnOk};
ghost use Rattle.std.specs.List.{AllByRecursion};
ghost use Rattle.px_base.specs.Polling.{IsTurn, octets_heard};

use crate::turns::turns_of;
use crate::{read_numbers, read_octets};
use anyhow::{Result, ensure};
use px_base::{MemoryAir, MemoryClock, OutOfMemory, ROOM, Turn};
use std::alloc::Global;

/// An air that brings the turns of a row, if a poll brings at most this number of octets, and whose calls of these
/// numbers fail; and the clock. Takes memory.
pub fn read_air(
    alloc: Global,
    failing: &str,
    turns: &str,
    poll: usize,
) -> Result<(MemoryAir, MemoryClock)> {
    let failing = read_numbers(alloc, failing)?;
    let script = Script::read(alloc, turns, poll)?;
    Ok(script.open(alloc, failing.as_slice())?)
}

/// The turns so far, the moment of each, and that of the next one.
#[derive(Drop)]
pub struct Script {
    turns: Vec<Turn>,
    moments: Vec<u32>,
    moment: u32,
}

impl Script {
    /// Reads the turns of a row, which are separated by blanks, if a poll brings at most this number of octets.
    pub fn read(alloc: Global, text: &str, poll: usize) -> Result<Script>
        ensures turns { IfOk result (λ script. AllByRecursion IsTurn script.turns.items) }
    {
        ensure!(poll >= 1 && poll <= ROOM, "a poll of {poll} octets");
        let mut script = Script::new(alloc);
        for word in text.split_whitespace() {
            script.read_word(alloc, word, poll)?;
        }
        Ok(script)
    }

    /// No turns, at the moment 1.
    fn new(alloc: Global) -> Script
        ensures turns { AllByRecursion IsTurn result.turns.items }
    {
        Script {
            turns: Vec::new(alloc),
            moments: Vec::new(alloc),
            moment: 1,
        }
    }

    /// Reads a word: a moment, quiet turns at moments that go up, a turn without octets, or octets.
    fn read_word(&mut self, alloc: Global, word: &str, poll: usize) -> Result<()>
        requires some { 1 ≤ poll }
        requires most { poll ≤ 512 }
        requires turns { AllByRecursion IsTurn self.old.turns.items }
        ensures turns { OnOk result (AllByRecursion IsTurn self.new.turns.items) }
    {
        if let Some(moment) = word.strip_prefix('@') {
            self.moment = moment.parse::<u32>()?;
            return Ok(());
        }
        if let Some(count) = word.strip_prefix('+') {
            return Ok(self.add_quiet(count.parse::<u32>()?)?);
        }
        match word {
            "quiet" => Ok(self.add(Turn::Quiet)?),
            "end" => Ok(self.add(Turn::End)?),
            "fail" => Ok(self.add(Turn::Fail)?),
            octets => {
                let octets = read_octets(alloc, octets)?;
                Ok(self.add_octets(alloc, octets.as_slice(), poll)?)
            }
        }
    }

    /// This number of quiet turns, each at the moment after the one before.
    fn add_quiet(&mut self, count: u32) -> Result<(), OutOfMemory>
        requires turns { AllByRecursion IsTurn self.old.turns.items }
        ensures turns { OnOk result (AllByRecursion IsTurn self.new.turns.items) }
    {
        for _ in 0..count {
            self.moment = self.moment.wrapping_add(1);
            self.add(Turn::Quiet)?;
        }
        Ok(())
    }

    /// The turns that bring these octets, at the moment.
    #[tactic(auto, using(crate::proofs::TurnsKept::turns_join, crate::proofs::TurnsKept::octets_join))]
    fn add_octets(&mut self, alloc: Global, octets: &[u8], poll: usize) -> Result<(), OutOfMemory>
        requires some { 1 ≤ poll }
        requires most { poll ≤ 512 }
        requires turns { AllByRecursion IsTurn self.old.turns.items }
        ensures turns { OnOk result (AllByRecursion IsTurn self.new.turns.items) }
        ensures octets { OnOk result
            (octets_heard self.new.turns.items ≡ octets_heard self.old.turns.items ++ octets.now) }
    {
        let mut turns = turns_of(alloc, octets, poll)?;
        self.turns.append(&mut turns)?;
        self.moments.resize(self.turns.len(), self.moment)?;
        Ok(())
    }

    /// One turn more, at the moment.
    #[tactic(auto, using(crate::proofs::TurnsKept::turns_push))]
    fn add(&mut self, turn: Turn) -> Result<(), OutOfMemory>
        requires turn { IsTurn turn }
        requires turns { AllByRecursion IsTurn self.old.turns.items }
        ensures turns { OnOk result (AllByRecursion IsTurn self.new.turns.items) }
    {
        self.turns.push(turn)?;
        self.moments.push(self.moment)?;
        Ok(())
    }

    /// An air that brings these turns, and whose calls of these numbers fail, and the clock.
    pub fn open(
        self,
        alloc: Global,
        failing: &[u64],
    ) -> Result<(MemoryAir, MemoryClock), OutOfMemory>
        requires turns { AllByRecursion IsTurn self.turns.items }
    {
        let Script {
            turns,
            mut moments,
            moment,
        } = self;
        moments.push(moment)?;
        let air = MemoryAir::new(alloc, turns, failing)?;
        let clock = MemoryClock::new(alloc, moments.as_slice())?;
        Ok((air, clock))
    }
}
