//! The address field (AX.25 2.0, 2.2.13): entries of seven octets, each six characters and the SSID octet.

ghost use Rattle.std.specs.Prelude.{◌≡◌, ◌+◌, ◌*◌, ◌/◌, ◌<◌, ◌≤◌, length, map, take, min, IfOk, IfErr};
ghost use Rattle.std.specs.List.{prefix_len};
ghost use Rattle.ax25_frames.specs.Addresses.{BeginsUnended};
ghost use Rattle.ax25_frames.specs.Faults.{FaultAt};
ghost use Rattle.ax25_frames.specs.Reading.{EntryAt, HasAddresses, RepeatersAt, characters_begun as octets_begun, is_blank as is_blank_octet, is_character as is_character_octet, run_length};

use crate::FrameFault;
use px_base::Call;

/// How many octets an entry has.
pub(crate) const ENTRY_LEN: usize = 7;

/// How many of them are characters.
const CHARACTERS: usize = 6;

/// How many repeater entries there may be (2.2.13.2).
const MOST_REPEATERS: u8 = 8;

/// A blank, shifted left by one.
const BLANK: u8 = 0x40;

/// An address entry.
#[derive(Clone, Copy)]
pub(crate) struct Entry {
    /// The station.
    pub(crate) call: Call,
    /// Bit 7 of the SSID octet: the C bit of destination and source (2.4.1.2), the H bit of a repeater.
    pub(crate) c_or_h_bit: bool,
    /// The end bit: no entry follows.
    pub(crate) is_last: bool,
}

/// The address field of a frame.
#[derive(Clone, Copy)]
pub(crate) struct Addresses {
    pub(crate) dest: Call,
    pub(crate) src: Call,
    /// How many repeater entries there are.
    pub(crate) via: u8,
    /// The C bit of the destination.
    pub(crate) command: bool,
}

/// Reads the address field at the front.
pub(crate) fn read_addresses(bytes: &[u8]) -> Result<Addresses, FrameFault>
    ensures addresses { IfOk result (λ read. HasAddresses bytes.now read.dest read.src read.via read.command) }
    ensures fault { IfErr result (λ fault. FaultAt fault bytes.now) }
{
    let dest = read_entry(bytes, 0)?;
    if dest.is_last {
        return Err(FrameFault::BadAddress { at: CHARACTERS });
    }
    let src = read_entry(bytes, 1)?;
    let via = if src.is_last {
        0
    } else {
        read_repeaters(bytes)?
    };
    Ok(Addresses {
        dest: dest.call,
        src: src.call,
        via,
        command: dest.c_or_h_bit,
    })
}

/// Reads the repeater entries after destination and source, and says how many there are.
fn read_repeaters(bytes: &[u8]) -> Result<u8, FrameFault>
    requires { BeginsUnended bytes.now 2 }
    ensures repeaters { IfOk result (λ via. RepeatersAt bytes.now via × (1 ≤ via) × (via ≤ 8)) }
    ensures fault { IfErr result (λ fault. FaultAt fault bytes.now) }
{
    for via in 0..MOST_REPEATERS {
        let repeater = read_entry(bytes, 2 + usize::from(via))?;
        if repeater.is_last {
            return Ok(via + 1);
        }
    }
    Err(FrameFault::TooManyAddresses)
}

/// Reads the entry after this many entries, none of which has the end bit.
fn read_entry(bytes: &[u8], before: usize) -> Result<Entry, FrameFault>
    requires unended { BeginsUnended bytes.now before }
    requires few { before < 10 }
    ensures entry { IfOk result (λ entry. EntryAt bytes.now before entry.call entry.c_or_h_bit entry.is_last) }
    ensures fault { IfErr result (λ fault. FaultAt fault bytes.now) }
{
    let (_, octets) = bytes.split_at(ENTRY_LEN * before);
    let begun = characters_begun(octets);
    if begun < CHARACTERS.min(octets.len()) {
        return Err(FrameFault::BadAddress {
            at: ENTRY_LEN * before + begun,
        });
    }
    if octets.len() < ENTRY_LEN {
        return Err(FrameFault::Short { at: bytes.len() });
    }
    let ssid_octet = octets[CHARACTERS];
    Ok(Entry {
        call: Call {
            chars: characters(octets),
            ssid: ssid_octet / 2 % 16,
        },
        c_or_h_bit: ssid_octet >= 128,
        is_last: ssid_octet % 2 == 1,
    })
}

/// Whether an octet is an upper-case letter or a digit, shifted left by one.
fn is_character(octet: u8) -> bool
    ensures { result ≡ is_character_octet octet }
{
    octet % 2 == 0 && matches!(octet / 2, b'A'..=b'Z' | b'0'..=b'9')
}

/// How many octets at the front begin the characters of some entry, at most six: letters and digits, then blanks.
#[tactic(auto, unfolding(crate::specs::Reading::characters_begun))]
fn characters_begun(octets: &[u8]) -> usize
    ensures { result ≡ octets_begun octets.now }
{
    let run = run_of_characters(octets);
    if run == 0 {
        return 0;
    }
    let (_, rest) = octets.split_at(run);
    run + run_of_blanks(rest, CHARACTERS - run)
}

/// How many letters and digits stand at the front, at most six.
fn run_of_characters(octets: &[u8]) -> usize
    ensures count { result ≡ run_length octets.now }
    ensures most { result ≤ 6 }
    ensures inside { result ≤ length octets.now }
{
    octets
        .iter()
        .take(CHARACTERS)
        .take_while(|octet| is_character(**octet))
        .count()
}

/// How many blanks stand at the front, at most so many.
fn run_of_blanks(octets: &[u8], most: usize) -> usize
    ensures count { result ≡ prefix_len is_blank_octet (take most octets.now) }
    ensures most { result ≤ most }
{
    octets
        .iter()
        .take(most)
        .take_while(|octet| **octet == BLANK)
        .count()
}

/// The first six octets, each shifted right by one.
fn characters(octets: &[u8]) -> [u8; 6]
    requires { 6 ≤ length octets.now }
    ensures { result ≡ map (λ octet. octet / 2) (take 6 octets.now) }
{
    let mut chars = [0; CHARACTERS];
    chars.copy_from_slice(&octets[..CHARACTERS]);
    chars.map(|octet| octet / 2)
}
