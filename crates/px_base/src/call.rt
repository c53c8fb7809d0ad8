//! Calls of stations (AX.25 2.0, 2.2.13).

ghost use Rattle.std.specs.Prelude.{◌≡◌, ℕ, ◌≤◌, length, filter, IfOk, IfErr, IfSome, IfNone};
ghost use Rattle.std.specs.List.{prefix_len};
ghost use Rattle.px_base.specs.CallSign.{CallText, FailsAt, IsSpelled, ReachesInSsid, SsidText, base_length as length_of_base, call_text, is_call_char as is_char_of_call, is_no_blank, padded as padded_base, ssid_text as text_of_ssid};

use arrayvec::ArrayString;
use std::marker::Model;
use std::{fmt, str};
use thiserror::Error;

/// The call of a station: its characters and its secondary station identifier.
#[derive(Clone, Copy, Debug, PartialEq, Eq)]
pub struct Call {
    /// One to six upper-case letters or digits, padded with blanks to six.
    pub chars: [u8; 6],
    /// The secondary station identifier, 0 to 15.
    pub ssid: u8,
}

/// The text is no call.
#[derive(Clone, Copy, Debug, PartialEq, Eq, Error)]
#[error("the text is no call: only its first {at} octets begin one")]
pub struct BadCall {
    /// The length in octets of the text's longest prefix that begins the text of some call.
    pub at: usize,
}

impl Model for Call {
    ghost use Rattle.px_base.specs.CallSign.{CallSign, IsCall};

    ghost Value = { CallSign };

    ghost view = { λ a. record { chars = a.chars; ssid = a.ssid } };

    ghost invariant = { λ a. IsCall (record { chars = a.chars; ssid = a.ssid }) };

    ghost inverse = { λ v. record { chars = v.chars; ssid = v.ssid } };
}

impl Call {
    /// Reads the text of a call: one to six upper-case letters or digits, then nothing or a hyphen and a decimal
    /// number from 0 to 15 without a leading zero. The error comes exactly where the text is no call. Takes no memory.
    pub fn read(text: &str) -> Result<Call, BadCall>
        ensures call { IfOk result (λ call. CallText call text.now) }
        ensures bad { IfErr result (λ bad. FailsAt text.now bad.at) }
    {
        let octets = text.as_bytes();
        let length = base_length(octets);
        let (base, rest) = octets.split_at(length);
        if base.is_empty() {
            return Err(BadCall { at: 0 });
        }
        match read_ssid(rest) {
            Some(ssid) => Ok(Call {
                chars: padded(base),
                ssid,
            }),
            None => Err(BadCall {
                at: length + reach_in_ssid(rest),
            }),
        }
    }

    /// The text of the call, in which an SSID of 0 is left out. Takes no memory.
    pub fn text(&self) -> ArrayString<9>
        ensures text { result.bytes ≡ call_text self.now }
        ensures call { CallText self.now result.bytes }
    {
        let mut text = ArrayString::new();
        text.push_str(base_text(&self.chars));
        text.push_str(ssid_text(self.ssid));
        text
    }
}

impl fmt::Display for Call {
    ghost use Rattle.std.specs.Prelude.{Some};

    ghost output = { λ call. Some (call_text call) };

    fn fmt<W: fmt::Write>(&self, f: &mut fmt::Formatter<W>) -> fmt::Result {
        f.pad(self.text().as_str())
    }
}

/// Whether a call may have this character: an upper-case letter or a digit.
pub(crate) fn is_call_char(c: u8) -> bool
    ensures { result ≡ is_char_of_call c }
{
    matches!(c, b'A'..=b'Z' | b'0'..=b'9')
}

/// How many characters of a call a text begins with, at most six.
fn base_length(text: &[u8]) -> usize
    ensures { result ≡ length_of_base text.now }
{
    text.iter()
        .take(6)
        .take_while(|c| is_call_char(**c))
        .count()
}

/// These characters, padded with blanks to six.
fn padded(base: &[u8]) -> [u8; 6]
    requires { length base.now ≤ 6 }
    ensures { result ≡ padded_base base.now }
{
    let mut chars = [b' '; 6];
    chars[..base.len()].copy_from_slice(base);
    chars
}

/// The SSID that this part of a call's text gives.
fn read_ssid(text: &[u8]) -> Option<u8>
    ensures some { IfSome result (λ ssid. SsidText ssid text.now) }
    ensures none { IfNone result ((ssid : ℕ) → SsidText ssid text.now → ⊥) }
{
    match text {
        [] => Some(0),
        [b'-', digit @ b'0'..=b'9'] => Some(*digit - b'0'),
        [b'-', b'1', digit @ b'0'..=b'5'] => Some(10 + (*digit - b'0')),
        _ => None,
    }
}

/// How many octets of this text begin the text of some SSID.
#[tactic(auto, using(crate::proofs::Ssid::reaches))]
fn reach_in_ssid(text: &[u8]) -> usize
    ensures { ReachesInSsid text.now result }
{
    match text {
        [b'-', b'1', b'0'..=b'5', ..] => 3,
        [b'-', b'0'..=b'9', ..] => 2,
        [b'-', ..] => 1,
        _ => 0,
    }
}

/// The characters of a call without their padding.
fn base_text(chars: &[u8; 6]) -> &str
    requires { IsSpelled chars.now }
    ensures base { result.now ≡ filter is_no_blank chars.now }
    ensures fits { length result.now ≤ 6 }
{
    match str::from_utf8(&chars[..unpadded_length(chars)]) {
        Ok(text) => text,
        Err(_) => "",
    }
}

/// How many characters there are before the first blank.
fn unpadded_length(chars: &[u8; 6]) -> usize
    ensures value { result ≡ prefix_len is_no_blank chars.now }
    ensures within { result ≤ 6 }
{
    chars.iter().take_while(|c| **c != b' ').count()
}

/// A hyphen and the SSID, or nothing where it is 0.
fn ssid_text(ssid: u8) -> &'static str
    requires { ssid ≤ 15 }
    ensures ssid { result.now ≡ text_of_ssid ssid }
    ensures fits { length result.now ≤ 3 }
{
    match ssid {
        0 => "",
        1 => "-1",
        2 => "-2",
        3 => "-3",
        4 => "-4",
        5 => "-5",
        6 => "-6",
        7 => "-7",
        8 => "-8",
        9 => "-9",
        10 => "-10",
        11 => "-11",
        12 => "-12",
        13 => "-13",
        14 => "-14",
        _ => "-15",
    }
}
