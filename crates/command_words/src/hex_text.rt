//! Octets written in hexadecimal.

ghost use Rattle.std.specs.Prelude.{◌≡◌, ℕ, List, IfOk, IsTrue, false};
ghost use Rattle.command_words.specs.Clients.{HexText};

use px_base::OutOfMemory;
use std::alloc::Global;

/// How many octets HEX may write at most.
pub(crate) const MOST_TOKENS: usize = 2_047;

/// Whether this text is hexadecimal of at most 2,047 octets, two digits an octet, in either case. Takes no memory.
pub(crate) fn is_hex(text: &str) -> bool
    ensures some { IsTrue result → (octets : List ℕ) × HexText text.now octets }
    ensures none { result ≡ false → (octets : List ℕ) → HexText text.now octets → ⊥ }
{
    if text.len() > 2 * MOST_TOKENS {
        return false;
    }
    let mut room = [0; MOST_TOKENS];
    hex::decode_to_slice(text, &mut room[..text.len() / 2]).is_ok()
}

/// The octets of this text. Takes memory.
pub(crate) fn octets_of(alloc: Global, text: &str) -> Result<Vec<u8>, OutOfMemory>
    requires { (octets : List ℕ) × HexText text.now octets }
    ensures { IfOk result (λ octets. HexText text.now octets.items) }
{
    match hex::decode(alloc, text) {
        Ok(octets) => Ok(octets),
        Err(_) => Err(OutOfMemory),
    }
}
