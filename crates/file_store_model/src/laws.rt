//! Laws of the store's commands.

ghost use Rattle.file_store_model.specs.Follows.{FollowsLaw};
ghost use Rattle.file_store_model.specs.Laws.{CommandsLaw, NumbersLaw};

/// Each command whose condition holds keeps the rules of a store and each complete entry, and the next
/// number never falls.
pub fn commands_law()
    ensures { CommandsLaw }
{}

/// A number whose entry was dropped never gets an entry again.
pub fn numbers_law()
    ensures { NumbersLaw }
{}

/// Commands keep complete entries, take no octets from an entry that is there, and give no number twice. Those of one
/// caller leave the entries of all others as they are. Octets stay octets, and complete files keep the rules of file
/// headers.
pub fn follows_law()
    ensures { FollowsLaw }
{}
