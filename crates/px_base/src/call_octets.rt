//! A call as seven octets, as records of a disk keep it: six characters, then the SSID (AX.25 2.0, 2.2.13).

ghost use Rattle.std.specs.Prelude.{◌≡◌, ◌≤◌, length, IfSome};
ghost use Rattle.px_base.specs.CallSign.{IsCall};
ghost use Rattle.px_base.specs.CallOctets.{are_blanks as all_blanks, base_count as count_of_base, call_in, call_octets, is_spelled as are_spelled};

use crate::call::{Call, is_call_char};

/// The octets of a call.
pub const CALL_OCTETS: usize = 7;

/// The highest SSID.
const LAST_SSID: u8 = 15;

/// The octets of a call: its six characters, then its SSID. Takes no memory.
pub fn write_call(call: &Call) -> [u8; CALL_OCTETS]
    ensures { result ≡ call_octets call.now }
{
    let [a, b, c, d, e, f] = call.chars;
    [a, b, c, d, e, f, call.ssid]
}

/// The call that these octets write; `None` exactly where they aren't seven, or write no call. Takes no memory.
pub fn read_call(octets: &[u8]) -> Option<Call>
    ensures call { result ≡ call_in octets.now }
    ensures valid { IfSome result IsCall }
{
    if octets.len() != CALL_OCTETS {
        return None;
    }
    let mut chars = [b' '; 6];
    chars.copy_from_slice(&octets[..6]);
    let ssid = octets[6];
    if is_spelled(&chars) && ssid <= LAST_SSID {
        Some(Call { chars, ssid })
    } else {
        None
    }
}

/// Whether these are the characters of a call: at least one upper-case letter or digit, and then blanks alone.
fn is_spelled(chars: &[u8; 6]) -> bool
    ensures { result ≡ are_spelled chars.now }
{
    let count = base_count(chars);
    count >= 1 && are_blanks(&chars[count..])
}

/// Whether all of these are blanks.
fn are_blanks(chars: &[u8]) -> bool
    ensures { result ≡ all_blanks chars.now }
{
    chars.iter().all(|c| *c == b' ')
}

/// How many upper-case letters and digits these characters begin with.
fn base_count(chars: &[u8]) -> usize
    ensures count { result ≡ count_of_base chars.now }
    ensures within { result ≤ length chars.now }
{
    chars.iter().take_while(|c| is_call_char(**c)).count()
}
