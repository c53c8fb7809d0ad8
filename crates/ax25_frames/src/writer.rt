//! Frames as octets (AX.25 2.0, section 2).

ghost use Rattle.std.specs.Prelude.{◌≡◌, ◌+◌, ◌*◌, ◌≤◌, ◌<◌, ◌∷◌, ◌++◌, [], length, not};
ghost use Rattle.px_base.specs.CallSign.{CallSign, IsCall};
ghost use Rattle.ax25_frames.specs.Addresses.{entry_octets, sent_entry};
ghost use Rattle.px_base.specs.Octets.{IsOctets};
ghost use Rattle.ax25_frames.specs.Kinds.{CanWrite, FitsControl, FitsKind, kind_octets};
ghost use Rattle.ax25_frames.specs.FrameText.{FrameText, canonical};
ghost use Rattle.ax25_frames.specs.Values.{kind_value, value_of};

use crate::control::{Control, octet_of};
use crate::{Frame, Kind};
use arrayvec::ArrayVec;
use px_base::Call;

/// The reserved bits 5 and 6 of an SSID octet, both 1 (2.2.13.1.1).
const RESERVED: u8 = 0x60;

/// Writes a frame's octets in place of what `out` holds (AX.25 2.0, 2.2). The frame has no repeaters, its sequence
/// numbers are below 8, and an I or UI frame has at most 256 octets of information. Reserved bits are sent as 1; a
/// command has the destination's C bit 1 and the source's 0, a response 0 and 1. Takes no memory.
pub fn write_frame(frame: &Frame<'_>, out: &mut ArrayVec<u8, 400>)
    requires via { frame.now.via ≡ 0 }
    requires kind { CanWrite (kind_value frame.now.kind) }
    ensures canonical { out.new.items ≡ canonical (value_of frame.now) }
    ensures text { FrameText (value_of frame.now) out.new.items }
{
    out.clear();
    put_entry(out, &frame.dest, frame.command, false);
    put_entry(out, &frame.src, !frame.command, true);
    put_kind(out, &frame.kind, frame.poll);
}

/// Puts an address entry at the end, with bit 7 of its SSID octet and its end bit (2.2.13).
fn put_entry(out: &mut ArrayVec<u8, 400>, call: &Call, c_or_h_bit: bool, is_last: bool)
    requires { length out.old.items + 7 ≤ 400 }
    ensures octets { out.new.items ≡ out.old.items ++ entry_octets is_last (sent_entry call.now c_or_h_bit) }
    ensures len { length out.new.items ≡ length out.old.items + 7 }
    ensures call { IsCall call.now }
{
    for c in &call.chars {
        out.push(2 * *c);
    }
    out.push(u8::from(is_last) + 2 * call.ssid + RESERVED + 128 * u8::from(c_or_h_bit));
}

/// Puts the control octet, the PID where the kind has one, and the information at the end (2.3, 2.2.4, 2.2.5).
fn put_kind(out: &mut ArrayVec<u8, 400>, kind: &Kind<'_>, poll: bool)
    requires kind { CanWrite (kind_value kind.now) }
    requires room { length out.old.items ≤ 14 }
    ensures octets { out.new.items ≡ out.old.items ++ kind_octets (kind_value kind.now) poll }
    ensures fits { FitsKind (kind_value kind.now) }
{
    out.push(octet_of(control_of_kind(kind), poll));
    match kind {
        Kind::I { pid, info, .. } | Kind::Ui { pid, info } => put_information(out, *pid, info),
        Kind::Frmr(info) => put_reject(out, info),
        _ => {}
    }
}

/// Puts the PID octet and the information of I and UI at the end (2.2.4, 2.2.5).
fn put_information(out: &mut ArrayVec<u8, 400>, pid: u8, info: &[u8])
    requires { length out.old.items + 1 + length info.now ≤ 400 }
    ensures octets { out.new.items ≡ out.old.items ++ pid ∷ info.now }
    ensures range { IsOctets (pid ∷ info.now) }
{
    out.push(pid);
    out.try_extend_from_slice(info).unwrap();
}

/// Puts the three octets of FRMR at the end (2.3.4.3.3).
fn put_reject(out: &mut ArrayVec<u8, 400>, info: &[u8; 3])
    requires { length out.old.items + 3 ≤ 400 }
    ensures octets { out.new.items ≡ out.old.items ++ info.now }
    ensures range { IsOctets info.now }
    ensures len { length info.now ≡ 3 }
{
    out.try_extend_from_slice(info).unwrap();
}

/// What the control octet says of the kind (2.3.2).
fn control_of_kind(kind: &Kind<'_>) -> Control
    requires { CanWrite (kind_value kind.now) }
    ensures control { result ≡ (kind_value kind.now).control }
    ensures fits { FitsControl result }
{
    match *kind {
        Kind::I { ns, nr, .. } => Control::I { ns, nr },
        Kind::Rr { nr } => Control::Rr { nr },
        Kind::Rnr { nr } => Control::Rnr { nr },
        Kind::Rej { nr } => Control::Rej { nr },
        Kind::Sabm => Control::Sabm,
        Kind::Disc => Control::Disc,
        Kind::Dm => Control::Dm,
        Kind::Ua => Control::Ua,
        Kind::Frmr(_) => Control::Frmr,
        Kind::Ui { .. } => Control::Ui,
    }
}
