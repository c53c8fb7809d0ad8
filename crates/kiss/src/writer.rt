//! Writing KISS text.

ghost use Rattle.std.specs.Prelude.{◌≡◌, ◌↔◌, ◌++◌, ◌<◌, ◌+◌, ◌≤◌, length, IsErr, OnOk, OnErr};
ghost use Rattle.arrayvec.specs.ArrayVec.{array_vec_len};
ghost use Rattle.kiss.specs.KissText.{kiss_text, escape_octet};

use crate::octets::{DATA_ON_PORT_0, FEND, FESC, MOST_OCTETS, TFEND, TFESC};
use arrayvec::ArrayVec;
use thiserror::Error;

/// The frame has more than 400 octets.
#[derive(Clone, Copy, Debug, PartialEq, Eq, Error)]
#[error("the frame has more than 400 octets")]
pub struct TooLong;

/// Replaces `out` by the KISS text of the frame `bytes` as data on port 0: FEND, the type octet,
/// the octets escaped, FEND ("Asynchronous Frame Format", "Transparency"). It has at most 803
/// octets, for which there has to be room. [`TooLong`] exactly where `bytes` has more than 400
/// octets; `out` is unchanged then. Takes no memory.
pub fn write_frame<const N: usize>(bytes: &[u8], out: &mut ArrayVec<u8, N>) -> Result<(), TooLong>
    requires { 803 ≤ N }
    ensures too_long { IsErr result ↔ (400 < length bytes.now) }
    ensures text { OnOk result (out.new.items ≡ kiss_text bytes.now) }
    ensures unchanged { OnErr result (out.new ≡ out.old) }
{
    if bytes.len() > MOST_OCTETS {
        return Err(TooLong);
    }
    out.clear();
    out.push(FEND);
    out.push(DATA_ON_PORT_0);
    for &octet in bytes {
        push_escaped(octet, out);
    }
    out.push(FEND);
    Ok(())
}

/// Adds an octet as it is sent inside a frame ("Transparency").
fn push_escaped<const N: usize>(octet: u8, out: &mut ArrayVec<u8, N>)
    requires { array_vec_len out.old + 2 ≤ N }
    ensures octets { out.new.items ≡ out.old.items ++ escape_octet octet }
    ensures len { array_vec_len out.new ≤ array_vec_len out.old + 2 }
{
    match octet {
        FEND => {
            out.push(FESC);
            out.push(TFEND);
        }
        FESC => {
            out.push(FESC);
            out.push(TFESC);
        }
        _ => out.push(octet),
    }
}
