//! Laws of every table.

ghost use Rattle.file_store_blocks.specs.BlockTable.Laws.{PlacesLaw, RulesLaw};

/// A block is taken exactly when it is in a run, and it is at one place of one run.
pub fn places_law()
    ensures { PlacesLaw }
{}

/// Each call keeps the rules of a table.
pub fn rules_law()
    ensures { RulesLaw }
{}
