//! Laws of the definitions, each the contract of a function that does nothing.

ghost use Rattle.std.specs.Prelude.{ℕ, List};
ghost use Rattle.command_words.specs.Laws.{Determined, HasMeaning, OnlyOne};

/// Each list of words has exactly one meaning: it isn't in the command set, it asks for one session, for one service,
/// for a client to send one file, to fetch one or to ask for one list, for the frames of one name, for the check, the
/// header, the making or the body of one file, or for the rehearsal of one schedule or of rounds that one seed draws.
pub fn one_meaning()
    ensures some { HasMeaning }
    ensures only_one { (words : List (List ℕ)) → OnlyOne words }
    ensures determined { (words : List (List ℕ)) → Determined words }
{}
