//! The tokens of a selection, in hexadecimal.

ghost use Rattle.std.specs.Prelude.{◌≡◌, ◌∷◌, [], ℕ, List, MatchResult, Ok};
ghost use Rattle.hex.specs.Hex.{decode_of};
ghost use Rattle.air_schedule.specs.Causes.{IsCause};
ghost use Rattle.air_schedule.specs.Schedule.{AreTokens};
ghost use Rattle.air_schedule.specs.Text.{words_of};

use crate::fault::LineFault;
use std::alloc::Global;

/// How many octets the tokens have at most.
const MOST_TOKENS: usize = 2_047;

/// The tokens that a word writes in hexadecimal, two digits an octet, in either case. Takes memory.
pub(crate) fn read_tokens(alloc: Global, word: &str) -> Result<Vec<u8>, LineFault>
    ensures { MatchResult result
        (λ tokens. AreTokens tokens.items × (decode_of word.now ≡ Ok tokens.items)
        × (words_of word.now ≡ word.now ∷ []))
        (IsCause ((hex tokens : List ℕ) → words_of word.now ≡ hex ∷ [] → decode_of hex ≡ Ok tokens
        → AreTokens tokens → ⊥)) }
{
    if word.is_empty() || word.len() > 2 * MOST_TOKENS {
        return Err(LineFault::NoLine);
    }
    match hex::decode(alloc, word) {
        Ok(tokens) => Ok(tokens),
        Err(refused) => Err(LineFault::from(refused)),
    }
}
