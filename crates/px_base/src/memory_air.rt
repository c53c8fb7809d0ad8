//! An air in memory: a script of turns to hear, and a record of what was heard and said.

ghost use Rattle.std.specs.Prelude.{◌≡◌, [], ◌∷◌, ◌++◌, true, false, drop, Some, IfOk, IsErr, OnOk, OnErr, IsTrue};
ghost use Rattle.std.specs.List.{AllByRecursion};
ghost use Rattle.px_base.specs.Counter.{HasCauses};
ghost use Rattle.px_base.specs.Forms.{IsPoll, IsSaying, has_fail, is_fail, new_air_state, next_turn as next_of, told_heard};
ghost use Rattle.px_base.specs.Outside.{Gains, GainsPrefix, HasCause};
ghost use Rattle.px_base.specs.Polling.{Hears, IsPolled, IsTurn, turn_of};

use crate::air::{Air, AirDown, Polled, Turn};
use crate::call_counter::CallCounter;
use crate::fault_count::FaultCount;
use crate::memory::OutOfMemory;
use std::alloc::Global;
use std::collections::VecDeque;
use std::marker::Model;

/// An air in memory. Each poll answers the next turn, and `End` after the last one. The calls of `poll` and `put`
/// are numbered together from 1; a call whose number is listed fails, and takes no turn. A call that finds no
/// memory fails too.
#[derive(Drop)]
pub struct MemoryAir {
    coming: VecDeque<Turn>,
    heard: Vec<Turn>,
    said: Vec<u8>,
    calls: CallCounter,
    read_faults: FaultCount,
    write_faults: FaultCount,
    untold: bool,
}

impl Model for MemoryAir {
    ghost use Rattle.px_base.specs.Forms.{MemoryAirState, IsAirState};

    ghost Value = { MemoryAirState };

    ghost use Rattle.px_base.specs.Views.{air_state};

    ghost view = { air_state };

    ghost invariant = { λ a. IsAirState (air_state a) };
}

impl MemoryAir {
    /// An air that answers these turns in order, and whose calls of these numbers fail. Takes memory.
    pub fn new(alloc: Global, turns: Vec<Turn>, failing: &[u64]) -> Result<MemoryAir, OutOfMemory>
        requires { AllByRecursion IsTurn turns.items }
        ensures { IfOk result (λ air. air ≡ new_air_state turns.items failing.now) }
    {
        Ok(MemoryAir {
            coming: VecDeque::from_vec(turns),
            heard: Vec::new(alloc),
            said: Vec::new(alloc),
            calls: CallCounter::new(alloc, failing)?,
            read_faults: FaultCount::new(),
            write_faults: FaultCount::new(),
            untold: false,
        })
    }

    /// The octets said so far.
    pub fn said(&self) -> &[u8]
        ensures { result.now ≡ self.now.said }
    {
        self.said.as_slice()
    }

    /// The answers so far, with their octets, but for those of polls that found no memory to record them.
    pub fn heard(&self) -> &[Turn]
        ensures { result.now ≡ self.now.heard }
    {
        self.heard.as_slice()
    }

    /// Whether a call found no memory. While it is false, and no call is listed to fail, saying counts no fault,
    /// and hearing counts none where no turn fails.
    pub fn starved(&self) -> bool
        ensures value { result ≡ self.now.calls.starved }
        ensures read { has_fail self.now.heard ≡ false → HasCauses self.now.calls self.now.read_faults }
        ensures write { HasCauses self.now.calls self.now.write_faults }
    {
        self.calls.starved()
    }
}

impl Air for MemoryAir {
    ghost use Rattle.std.specs.Prelude.{Some};
    ghost use Rattle.px_base.specs.Forms.{told_heard};

    ghost heard = { told_heard };

    ghost said = { λ a. Some a.said };

    ghost read_faults = { λ a. a.read_faults };

    ghost write_faults = { λ a. a.write_faults };

    /// Answers the next turn; a call that is listed, or finds no memory to record the turn, fails.
    fn poll(&mut self, room: &mut [u8; 512]) -> Result<Polled, AirDown>
        ensures count { IfOk result IsPolled }
        ensures heard { Hears (told_heard self.old) (told_heard self.new) (turn_of result room.new) }
        ensures said { Some self.new.said ≡ Some self.old.said }
        ensures read_faults { HasCause self.old.read_faults self.new.read_faults result }
        ensures write_faults { self.new.write_faults ≡ self.old.write_faults }
        ensures turn { IsPoll self.old self.new (turn_of result room.new) }
    {
        let listed = self.calls.count();
        let turn = next_turn(&mut self.coming, listed);
        let answer = answer_of(&turn, room);
        if !record(&mut self.heard, turn) {
            self.calls.starve();
            self.untold = true;
            self.read_faults.count();
            return Err(AirDown);
        }
        self.read_faults.count_err(answer)
    }

    /// Says all of these octets; a call that is listed, or finds no memory for them, fails and says none.
    fn put(&mut self, bytes: &[u8]) -> Result<(), AirDown>
        ensures ok { OnOk result (Gains (Some self.old.said) (Some self.new.said) bytes.now) }
        ensures err { OnErr result (GainsPrefix (Some self.old.said) (Some self.new.said) bytes.now) }
        ensures heard { told_heard self.new ≡ told_heard self.old }
        ensures write_faults { HasCause self.old.write_faults self.new.write_faults result }
        ensures read_faults { self.new.read_faults ≡ self.old.read_faults }
        ensures saying { IsSaying self.old self.new bytes.now result }
    {
        if self.calls.count() {
            self.write_faults.count();
            return Err(AirDown);
        }
        if self.said.extend_from_slice(bytes).is_err() {
            self.calls.starve();
            self.write_faults.count();
            return Err(AirDown);
        }
        Ok(())
    }
}

/// Takes the next turn, which is `End` after the last one; or fails, and takes none.
fn next_turn(coming: &mut VecDeque<Turn>, fails: bool) -> Turn
    requires { AllByRecursion IsTurn coming.old.items }
    ensures turn { IsTurn result }
    ensures fails { IsTrue fails → (result ≡ Turn.Fail) × (coming.new.items ≡ coming.old.items) }
    ensures next { fails ≡ false → (result ≡ next_of coming.old.items) × (coming.new.items ≡ drop 1 coming.old.items) }
    ensures turns { AllByRecursion IsTurn coming.new.items }
{
    if fails {
        return Turn::Fail;
    }
    coming.pop_front().unwrap_or(Turn::End)
}

/// Records a turn that was heard, and says whether there was memory for it.
#[tactic(auto, using(crate::proofs::Turns::heard_steps))]
fn record(heard: &mut Vec<Turn>, turn: Turn) -> bool
    ensures recorded { IsTrue result → heard.new.items ≡ heard.old.items ++ turn ∷ [] }
    ensures none { result ≡ false → heard.new.items ≡ heard.old.items }
    ensures before { IsTrue result → has_fail heard.new.items ≡ false → has_fail heard.old.items ≡ false }
    ensures last { IsTrue result → has_fail heard.new.items ≡ false → is_fail turn ≡ false }
{
    heard.push(turn).is_ok()
}

/// What a poll answers for this turn, whose octets it puts at the front of the room.
fn answer_of(turn: &Turn, room: &mut [u8; 512]) -> Result<Polled, AirDown>
    requires { IsTurn turn.now }
    ensures count { IfOk result IsPolled }
    ensures turn { turn_of result room.new ≡ turn.now }
    ensures fail { IsErr result → is_fail turn.now ≡ true }
{
    match turn {
        Turn::Bytes(octets) => {
            let octets = octets.as_slice();
            room[..octets.len()].copy_from_slice(octets);
            Ok(Polled::Bytes(octets.len()))
        }
        Turn::Quiet => Ok(Polled::Quiet),
        Turn::Fail => Err(AirDown),
        Turn::End => Ok(Polled::End),
    }
}
