//! Laws of the lists.

ghost use Rattle.ftl0_session.specs.Lists.Laws.{KeptLaw, OthersLaw, SelectionLaw, TakingLaw};

/// A caller has what it selected last, whatever up to 63 selections of other callers come after it.
pub fn selection_law()
    ensures { SelectionLaw }
{}

/// When a caller selects, another one's list goes exactly when it is the first of 64 and the caller had none.
pub fn others_law()
    ensures { OthersLaw }
{}

/// Taking numbers moves no list, and changes the caller's alone.
pub fn taking_law()
    ensures { TakingLaw }
{}

/// What is selected and taken leaves at most one list of a caller, at most 64, each of at most 1,024 numbers.
pub fn kept_law()
    ensures { KeptLaw }
{}
