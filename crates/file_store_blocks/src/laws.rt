//! Laws of stores of placed files.

ghost use Rattle.file_store_blocks.specs.Laws.{PlacedLaw, RecordsLaw, SealsLaw, SeenLaw, StandingLaw, StoreLaw};
ghost use Rattle.file_store_blocks.specs.PlacedForm.{placed_form, placed_steps};
ghost use Rattle.file_store_blocks.specs.Seen.{seen};
ghost use Rattle.file_journal.specs.Steps.{IsSeenBy};

/// Each command whose condition holds keeps the rules of a store of placed files, and the seals.
pub fn placed_law()
    ensures { PlacedLaw }
{}

/// Seals are kept whatever the blocks hold that no sealed file has.
pub fn seals_law()
    ensures { SealsLaw }
{}

/// A command whose condition holds is seen as one of the store of files, whose condition holds too.
pub fn seen_law()
    ensures { SeenLaw }
{}

/// If the seals are kept, what is seen keeps the rules of a store.
pub fn store_law()
    ensures { StoreLaw }
{}

/// A record is read as a command exactly when it is that command's record, and each command that can be written has
/// one.
pub fn records_law()
    ensures { RecordsLaw }
{}

/// What blocks hold that a store doesn't use changes nothing of what octets stand for.
pub fn journal_law()
    ensures { IsSeenBy placed_steps seen placed_form }
{}

/// What octets stand for: what the store after the commands that their records are is seen as, and no other. A store
/// for which octets stand keeps its rules and its seals.
pub fn standing_law()
    ensures { StandingLaw }
{}
