//! The states of a link, and what it reports (AX.25 2.0, 2.4).

ghost use Rattle.std.specs.Prelude.{◌≡◌, IsTrue};
ghost use Rattle.ax25_frames.specs.Values.{value_of};
ghost use Rattle.ax25_link.specs.Air.{is_information};

use ax25_frames::{Frame, Kind};

/// The state of a link.
///
/// AX.25 2.2 calls Down disconnected, Calling awaiting connection, Up connected or timer recovery, and Ending awaiting
/// release. A line of the picture is a frame, a call or the timer, then `/` and what is sent, and in brackets what is
/// reported: if the link goes down, why. The rows of frames are in specs/Rows.antt, the timer in specs/Timer.antt, and
/// what the layer above does in specs/Calls.antt.
///
/// ```text
///             Link::idle
///                 |
///                 v
/// +------------------------------------+
/// | Down: disconnected                 |    accept    / UA, F = P
/// |                                    |-----------------------------------------------------+
/// | SABM            / DM, F = P        |    DISC      / UA, F = P    [Disc]                  |
/// | command, P = 1  / DM, F = 1        |    DM        / -            [Dm]                    |
/// | any other       / -                |    FRMR      / -            [Frmr]                  |
/// |                                    |    bad N(R)  / FRMR, F = P  [BadNr]                 |
/// |                                    |    T1, 11th  / -            [NoAnswer]              |
/// |                                    |    abandon   / DM, F = 0                            |
/// |                                    |<---------------------------------------------+      |
/// +------------------------------------+                                              |      |
///       ^ DM        / -  [Dm]        ^ UA        / -          [Disc]                  |      |
///       | T1, 11th  / -  [NoAnswer]  | DISC      / UA, F = P  [Disc]                  |      |
///       |                            | DM        / -          [Dm]                    |      |
///       |                            | T1, 11th  / -          [NoAnswer]              |      |
///       |                            |                                                |      v
/// +------------------------+    +------------------------+              +------------------------+
/// | Calling: awaiting      |    | Ending: awaiting       |   hang_up    | Up: connected          |
/// |   connection           |    |   release              |<-------------|                        |
/// |                        |    |                        | / DISC, P = 1| as below               |
/// | DISC / DM, F = P       |    | T1 / DISC, P = 1       |              |                        |
/// | T1   / SABM, P = 1     |    | any other / -          |              |                        |
/// | any other / -          |    |                        |              |                        |
/// +------------------------+    +------------------------+              +------------------------+
///     ^           |                                                             ^            ^
///     |           |                     UA / -  [Opened]                        |            |
///     |           +-------------------------------------------------------------+            |
/// Link::call / SABM, P = 1                                                Link::answer / UA, F = P
///
/// In Up, which stays:
///   I, N(S) = V(R)                    / RR, F = P   [Bytes]     V(R) is one more
///   I, another N(S)                   / REJ, F = P              RR while a REJ is outstanding
///   RR, RNR, REJ, a command, P = 1    / RR, F = 1               peer busy after RNR, else not
///   RR, RNR, REJ, any other           / -                       the same
///   REJ, N(R) good                    / and then all outstanding I frames again
///   SABM, if this end answered        / UA, F = P   [Reopened]  all as at the beginning
///   SABM, if it called; UA; UI        / -
///   T1, I frames are outstanding      / the oldest of them, P = 1
///   T1 or T3, none are outstanding    / RR, a command, P = 1
///   octets are queued by push         / I, while fewer than k are outstanding, peer not busy
/// ```
///
/// The timer runs out at T1, 10 ticks, or in Up with nothing outstanding and no tries at T3, 60 ticks. At the 11th
/// time in a row, whichever it is, the link is down and nothing is sent. A bad N(R) is one of an I, RR, RNR or REJ
/// frame. The DISC of `hang_up` and the DM of `abandon` are sent last. A reply that is pending when the state changes
/// stays pending; an I frame doesn't.
#[derive(Clone, Copy, Debug, PartialEq, Eq)]
pub enum LinkState {
    /// SABM was sent, and isn't answered yet (2.4.3.1).
    Calling,
    /// Information goes both ways (2.4.4).
    Up,
    /// DISC was sent, and isn't answered yet (2.4.3.3).
    Ending,
    /// There is no connection (2.4.3.4).
    Down,
}

/// Why a link is down.
#[derive(Clone, Copy, Debug, PartialEq, Eq)]
pub enum Why {
    /// The peer ended it by DISC, or answered this end's DISC (2.4.3.3).
    Disc,
    /// The peer said DM: it has no connection, or refuses one (2.3.4.3.5).
    Dm,
    /// The peer refused a frame by FRMR (2.3.4.3.3).
    Frmr,
    /// The peer acknowledged a frame that was never sent (2.4.4.2).
    BadNr,
    /// The peer didn't answer: the timer ran out eleven times in a row (2.4.7.2).
    NoAnswer,
}

/// What a frame did to the link, as far as a layer above needs it.
#[derive(Clone, Copy, Debug, PartialEq, Eq)]
pub enum Heard {
    /// Nothing to report.
    Nothing,
    /// The peer answered the call: the link is up (2.4.3.1).
    Opened,
    /// The peer called again: the link is up, and all numbers and queues are as at its beginning (2.4.6).
    Reopened,
    /// The frame's information is next in the stream (2.4.4.2).
    Bytes,
    /// The link is down.
    Closed(Why),
}

/// The information of an I frame: what is next in the stream if the link reported `Bytes` for it.
pub fn information<'a>(frame: &Frame<'a>) -> &'a [u8]
    ensures { IsTrue (is_information (value_of frame.now).kind.control)
        → result.now ≡ (value_of frame.now).kind.information }
{
    match frame.kind {
        Kind::I { info, .. } => info,
        _ => &[],
    }
}
