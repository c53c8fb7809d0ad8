//! The turns of an air that brings given octets.

ghost use Rattle.std.specs.Prelude.{◌≡◌, ◌≤◌, ◌++◌, length, IfOk, OnOk};
ghost use Rattle.std.specs.List.{AllByRecursion};
ghost use Rattle.px_base.specs.Polling.{IsTurn, octets_heard};

use px_base::{FileBytes, OutOfMemory, Turn};
use std::alloc::Global;

/// The turns that bring these octets, this number in each but the last.
pub fn turns_of(alloc: Global, octets: &[u8], poll: usize) -> Result<Vec<Turn>, OutOfMemory>
    requires some { 1 ≤ poll }
    requires most { poll ≤ 512 }
    ensures turns { IfOk result (λ turns. AllByRecursion IsTurn turns.items) }
    ensures octets { IfOk result (λ turns. octets_heard turns.items ≡ octets.now) }
{
    let mut turns = Vec::new(alloc);
    let mut rest = octets;
    while !rest.is_empty() {
        let (piece, later) = rest.split_at(poll.min(rest.len()));
        push_turn(&mut turns, FileBytes::copy_of(alloc, piece)?)?;
        rest = later;
    }
    Ok(turns)
}

/// Puts a turn of these octets at the end.
#[tactic(auto, using(crate::proofs::TurnsKept::turns_push, crate::proofs::TurnsKept::octets_push))]
fn push_turn(turns: &mut Vec<Turn>, octets: FileBytes) -> Result<(), OutOfMemory>
    requires turns { AllByRecursion IsTurn turns.old.items }
    requires some { 1 ≤ length octets }
    requires most { length octets ≤ 512 }
    ensures turns { OnOk result (AllByRecursion IsTurn turns.new.items) }
    ensures octets { OnOk result (octets_heard turns.new.items ≡ octets_heard turns.old.items ++ octets) }
{
    turns.push(Turn::Bytes(octets))?;
    Ok(())
}
