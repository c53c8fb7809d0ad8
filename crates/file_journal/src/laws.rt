//! Laws of what the octets of a journal stand for.

ghost use Rattle.file_journal.specs.Laws.{IsOneReading, IsOneWalk};
ghost use Rattle.file_journal.specs.Layout.{Blocks};
ghost use Rattle.file_journal.specs.Walk.{IsOneStep, StandsForSame};

use crate::Ledger;

/// What is read from a gate on is what the octets from there stand for, and they stand for nothing else.
pub fn reading_law()
    ensures { IsOneReading }
{}

/// What records come to is the state after them, where each is allowed by the state before it; else damage at the gate
/// of the first that isn't; or, where the reading is broken behind records that are allowed, there. It is nothing else.
pub fn walk_law<L: Ledger>()
    ensures { (held : Blocks) → IsOneWalk (L.steps.step held) }
{}

/// A record that a ledger's state allows, put at the end of a store, takes what the store stands for to the state after
/// it.
pub fn append_law<L: Ledger>()
    ensures { (held : Blocks) → IsOneStep (L.steps.step held) }
{}

/// The same store stands for the same state of a ledger, also where a recovery gives it its block number.
pub fn recovery_law<L: Ledger>()
    ensures { (held : Blocks) → StandsForSame (L.steps.step held) }
{}
