//! The word AIR.

ghost use Rattle.std.specs.Prelude.{◌≡◌, IfNone, IfSome, IsTrue, false};
ghost use Rattle.command_words.specs.Airs.{IsAirOf};
ghost use Rattle.command_words.specs.Words.{IsAir, IsHostPort};

use crate::number::read_number;

/// What the word AIR names.
#[derive(Clone, Copy, Debug, PartialEq, Eq)]
pub enum AirWord {
    /// Nothing, `none`.
    Nothing,
    /// Standard input and output, `-`.
    Standard,
    /// A host and port, `host:port`: the word itself is their address. The host is any text without a colon that isn't
    /// empty, and the port a number from 1 to 65,535.
    HostPort,
}

/// What this word AIR names, and it names nothing else; or `None` where it has none of the three forms. A program picks its
/// air by the answer. Takes no memory.
pub fn read_air(air: &str) -> Option<AirWord>
    ensures some { IfSome result (λ which. IsAirOf air.now which) }
    ensures only { IfSome result (λ which. (other : AirWord) → IsAirOf air.now other → other ≡ which) }
    ensures none { IfNone result ((which : AirWord) → IsAirOf air.now which → ⊥) }
{
    if air == "none" {
        return Some(AirWord::Nothing);
    }
    if air == "-" {
        return Some(AirWord::Standard);
    }
    if is_host_port(air) {
        return Some(AirWord::HostPort);
    }
    None
}

/// Whether this word AIR names an air: standard input and output, or a host and port.
pub(crate) fn names_air(air: &str) -> bool
    ensures some { IsTrue result → IsAir air.now }
    ensures none { result ≡ false → IsAir air.now → ⊥ }
{
    match read_air(air) {
        Some(AirWord::Standard) => true,
        Some(AirWord::HostPort) => true,
        Some(AirWord::Nothing) => false,
        None => false,
    }
}

/// Whether this is text without a colon, a colon, and the number of a port.
fn is_host_port(word: &str) -> bool
    ensures some { IsTrue result → IsHostPort word.now }
    ensures none { result ≡ false → IsHostPort word.now → ⊥ }
{
    let Some((host, port)) = word.split_once(':') else {
        return false;
    };
    if host.is_empty() {
        return false;
    }
    read_number(1, 65_535, port).is_some()
}
