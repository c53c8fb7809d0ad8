//! Frames from octets (AX.25 2.0, section 2).

ghost use Rattle.std.specs.Prelude.{◌≡◌, ◌≤◌, [], ◌∷◌, ◌++◌, length, IfOk, IfErr, IsOkAnd};
ghost use Rattle.ax25_frames.specs.Kinds.{FitsControl, FitsKind, fields_of, information_fields, no_fields, reject_fields};
ghost use Rattle.ax25_frames.specs.Faults.{FaultAt, IsRestFault};
ghost use Rattle.ax25_frames.specs.FrameText.{FrameText, FrameValue};
ghost use Rattle.ax25_frames.specs.Values.{kind_value, value_of};

use crate::address::{ENTRY_LEN, read_addresses};
use crate::control::{Control, poll_bit, read_control};
use crate::{Frame, FrameFault, Kind};

/// The most octets of information in I and UI (2.4.7.3).
const MOST_INFORMATION: usize = 256;

/// Reads a frame from its octets, without flags and frame check sequence (AX.25 2.0, 2.2). The frame's `via` is the
/// number of repeater entries, and `command` the destination's C bit; reserved bits, H bits and the source's C bit are
/// not looked at.
///
/// The error is the first fault, from left to right, and comes exactly where no frame has these octets. Takes no memory,
/// and lends the information out of `bytes`.
pub fn read_frame(bytes: &[u8]) -> Result<Frame<'_>, FrameFault>
    ensures frame { IfOk result (λ frame. FrameText (value_of frame) bytes.now) }
    ensures fault { IfErr result (λ fault. FaultAt fault bytes.now) }
    // Octets that some frame has give that frame.
    ensures only { (frame : FrameValue) → FrameText frame bytes.now → IsOkAnd result (λ read. value_of read ≡ frame) }
{
    let addresses = read_addresses(bytes)?;
    let len = 2 * ENTRY_LEN + ENTRY_LEN * usize::from(addresses.via);
    let Some(octet) = bytes.get(len) else {
        return Err(FrameFault::Short { at: bytes.len() });
    };
    let Some(control) = read_control(*octet) else {
        return Err(FrameFault::BadControl { octet: *octet });
    };
    let (_, rest) = bytes.split_at(len + 1);
    let kind = read_kind(control, rest, bytes.len())?;
    Ok(Frame {
        dest: addresses.dest,
        src: addresses.src,
        via: addresses.via,
        kind,
        poll: poll_bit(*octet),
        command: addresses.command,
    })
}

/// Reads what follows the control octet, up to the end of a frame of `len` octets.
fn read_kind(control: Control, rest: &[u8], len: usize) -> Result<Kind<'_>, FrameFault>
    requires { FitsControl control }
    ensures control { IfOk result (λ kind. (kind_value kind).control ≡ control) }
    ensures rest { IfOk result (λ kind. (kind_value kind).pid ++ (kind_value kind).information ≡ rest.now) }
    ensures fits { IfOk result (λ kind. FitsKind (kind_value kind)) }
    ensures fault { IfErr result (λ fault. IsRestFault (fields_of control) rest.now len fault) }
{
    match control {
        Control::I { ns, nr } => {
            let (pid, info) = read_information(rest, len)?;
            Ok(Kind::I { ns, nr, pid, info })
        }
        Control::Ui => {
            let (pid, info) = read_information(rest, len)?;
            Ok(Kind::Ui { pid, info })
        }
        Control::Frmr => Ok(Kind::Frmr(read_reject(rest, len)?)),
        Control::Rr { nr } => read_bare(Kind::Rr { nr }, rest),
        Control::Rnr { nr } => read_bare(Kind::Rnr { nr }, rest),
        Control::Rej { nr } => read_bare(Kind::Rej { nr }, rest),
        Control::Sabm => read_bare(Kind::Sabm, rest),
        Control::Disc => read_bare(Kind::Disc, rest),
        Control::Dm => read_bare(Kind::Dm, rest),
        Control::Ua => read_bare(Kind::Ua, rest),
    }
}

/// Reads the PID octet and the information of I and UI (2.2.4, 2.2.5).
fn read_information(rest: &[u8], len: usize) -> Result<(u8, &[u8]), FrameFault>
    ensures octets { IfOk result (λ read. read.0 ∷ read.1.now ≡ rest.now) }
    ensures most { IfOk result (λ read. length read.1.now ≤ 256) }
    ensures fault { IfErr result (λ fault. IsRestFault information_fields rest.now len fault) }
{
    let Some((pid, info)) = rest.split_first() else {
        return Err(FrameFault::Short { at: len });
    };
    if info.len() > MOST_INFORMATION {
        return Err(FrameFault::LongInfo { len: info.len() });
    }
    Ok((*pid, info))
}

/// Reads the three octets of FRMR (2.3.4.3.3).
fn read_reject(rest: &[u8], len: usize) -> Result<[u8; 3], FrameFault>
    ensures octets { IfOk result (λ read. read ≡ rest.now) }
    ensures len { IfOk result (λ read. length read ≡ 3) }
    ensures fault { IfErr result (λ fault. IsRestFault reject_fields rest.now len fault) }
{
    match rest {
        [first, second, third] => Ok([*first, *second, *third]),
        [] | [_] | [_, _] => Err(FrameFault::Short { at: len }),
        _ => Err(FrameFault::LongInfo { len: rest.len() }),
    }
}

/// Gives a kind that has no information, if none follows (2.3.4).
fn read_bare<'a>(kind: Kind<'a>, rest: &[u8]) -> Result<Kind<'a>, FrameFault>
    ensures kind { IfOk result (λ read. read ≡ kind.entry) }
    ensures rest { IfOk result (λ read. rest.now ≡ []) }
    ensures fault { IfErr result (λ fault. IsRestFault no_fields rest.now 0 fault) }
{
    if rest.is_empty() {
        Ok(kind)
    } else {
        Err(FrameFault::LongInfo { len: rest.len() })
    }
}
