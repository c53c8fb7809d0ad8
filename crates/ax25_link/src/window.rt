//! The window: how many I frames may be outstanding, and what an N(R) means (AX.25 2.0, 2.3.2.4, 2.4.4).

ghost use Rattle.std.specs.Prelude.{◌≡◌, ◌↔◌, ◌+◌, ◌-◌, ◌%◌, ◌<◌, ◌≤◌, IsTrue};
ghost use Rattle.ax25_link.specs.Counting.{IsJudged};
ghost use Rattle.ax25_link.specs.Window.{IsGoodK};

use crate::number::{MODULUS, distance};

/// Whether this number of I frames may be outstanding, k of the standard: at least one, and fewer than there are
/// sequence numbers, so 1 to 7 (2.4.7.4).
pub fn good_k(k: u8) -> bool
    ensures { IsTrue result ↔ IsGoodK k }
{
    1 <= k && k < MODULUS
}

/// What a received N(R) means to the sender of the frames that it speaks of (2.4.4.5).
#[derive(Clone, Copy)]
pub(crate) enum Acknowledgement {
    /// This number of outstanding frames is acknowledged.
    Good(u8),
    /// It is from before the last acknowledgement.
    Stale,
    /// It speaks of a frame that was never sent.
    Bad,
}

/// What N(R) means if V(A) is `acked`, `outstanding` frames are outstanding, and the window is k.
pub(crate) fn judge(nr: u8, acked: u8, outstanding: u8, k: u8) -> Acknowledgement
    requires nr { nr < 8 }
    requires acked { acked < 8 }
    ensures { IsJudged result ((nr + (8 - acked)) % 8) outstanding k }
{
    let count = distance(acked, nr);
    if count <= outstanding {
        Acknowledgement::Good(count)
    } else if count > k {
        Acknowledgement::Stale
    } else {
        Acknowledgement::Bad
    }
}
