//! Laws of the definitions, each the contract of a function that does nothing.

ghost use Rattle.px_base.specs.CallOctets.{CallOctetsLaw};
ghost use Rattle.px_base.specs.CallSign.{OneCall};

/// Each text is the text of at most one call.
pub fn one_call()
    ensures { OneCall }
{}

/// Octets are read as a call exactly where they are that call's octets.
pub fn call_octets_law()
    ensures { CallOctetsLaw }
{}
