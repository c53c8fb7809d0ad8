//! What a received frame does, state by state (AX.25 2.0, 2.4.3, 2.4.4).

ghost use Rattle.std.specs.Prelude.{◌≡◌, ◌+◌, ◌*◌, ◌<◌, ◌≤◌, None, false};
ghost use Rattle.ax25_frames.specs.Kinds.{bit, control_octet};
ghost use Rattle.ax25_frames.specs.Values.{value_of};
ghost use Rattle.ax25_link.specs.Acknowledging.{acknowledging, applying, is_bad, is_good, meaning_of};
ghost use Rattle.ax25_link.specs.Counting.{is_bad_number, is_good_number};
ghost use Rattle.ax25_link.specs.Kept.{IsFromPeer, SameStations, Steps, Takes, Tells};
ghost use Rattle.ax25_link.specs.Kept.{anew, any_supervisory_row, is_pending, outstanding_in};
ghost use Rattle.ax25_frames.specs.declared.control.Control.{Control};
ghost use Rattle.ax25_link.specs.Rows.{called_again, calling_row, closing, closing_with, down_row, ending_row, information_row, refusing, supervisory_row, up_row, with_busy};
ghost use Rattle.ax25_link.specs.Ends.{accept};

use crate::link::Link;
use crate::reply::{Reply, reject_octets};
use crate::timer::ANEW;
use crate::window::{Acknowledgement, judge};
use crate::{Heard, LinkState, Why, number};
use ax25_frames::{Frame, Kind};

impl Link {
    /// In state Calling (2.4.3.1).
    pub(crate) fn take_calling(&mut self, frame: &Frame<'_>) -> Heard
        ensures row { let f = value_of frame.now in
            Takes self.old self.new (λ w end. calling_row end f f.kind.control) result }
    {
        match frame.kind {
            Kind::Ua => {
                self.enter(LinkState::Up);
                Heard::Opened
            }
            Kind::Dm => self.close(Why::Dm),
            Kind::Disc => {
                self.reply = Some(Reply::Refuse { poll: frame.poll });
                Heard::Nothing
            }
            _ => Heard::Nothing,
        }
    }

    /// In state Ending (2.4.3.3).
    pub(crate) fn take_ending(&mut self, frame: &Frame<'_>) -> Heard
        ensures row { let f = value_of frame.now in
            Takes self.old self.new (λ w end. ending_row end f f.kind.control) result }
    {
        match frame.kind {
            Kind::Ua => self.close(Why::Disc),
            Kind::Disc => self.take_disc(frame.poll),
            Kind::Dm => self.close(Why::Dm),
            _ => Heard::Nothing,
        }
    }

    /// In state Down (2.4.3.4).
    pub(crate) fn take_down(&mut self, frame: &Frame<'_>) -> Heard
        ensures row { Takes self.old self.new (λ w end. down_row end (value_of frame.now)) result }
    {
        if matches!(frame.kind, Kind::Sabm) || frame.command && frame.poll {
            self.reply = Some(Reply::Refuse { poll: frame.poll });
        }
        Heard::Nothing
    }

    /// In state Up (2.4.4).
    pub(crate) fn take_up(&mut self, frame: &Frame<'_>) -> Heard
        requires up { self.old.state ≡ LinkState.Up }
        requires quiet { is_pending self.old ≡ false }
        requires frame { IsFromPeer self.old (value_of frame.now) }
        ensures row { let f = value_of frame.now in
            Takes self.old self.new (λ w end. up_row w end f f.kind.control) result }
    {
        match frame.kind {
            Kind::I { ns, nr, .. } => self.take_information(frame, ns, nr),
            Kind::Rr { nr } => self.take_supervisory(frame, nr, 0x01 + 32 * nr, false, false),
            Kind::Rnr { nr } => self.take_supervisory(frame, nr, 0x05 + 32 * nr, true, false),
            Kind::Rej { nr } => self.take_supervisory(frame, nr, 0x09 + 32 * nr, false, true),
            Kind::Sabm => self.take_sabm(frame),
            Kind::Disc => self.take_disc(frame.poll),
            Kind::Dm => self.close(Why::Dm),
            Kind::Frmr(_) => self.close(Why::Frmr),
            Kind::Ua | Kind::Ui { .. } => Heard::Nothing,
        }
    }

    /// An I frame in state Up (2.4.4.2, 2.4.4.3).
    fn take_information(&mut self, frame: &Frame<'_>, ns: u8, nr: u8) -> Heard
        requires quiet { is_pending self.old ≡ false }
        requires ns { ns < 8 }
        requires nr { nr < 8 }
        requires kind { (value_of frame.now).kind.control ≡ Control.I ns nr }
        ensures row { let f = value_of frame.now in
            Takes self.old self.new (λ w end. up_row w end f (Control.I ns nr)) result }
    {
        match self.apply(nr) {
            Acknowledgement::Bad => self.reject(frame, 2 * ns + 32 * nr),
            Acknowledgement::Good(_) | Acknowledgement::Stale => self.take_numbered(frame, ns),
        }
    }

    /// An S frame in state Up, with this control octet once its P/F bit is cleared. It says whether the peer is busy,
    /// and whether all outstanding frames are to be sent again (2.4.4.5 to 2.4.4.9).
    fn take_supervisory(
        &mut self,
        frame: &Frame<'_>,
        nr: u8,
        control: u8,
        is_busy: bool,
        is_reject: bool,
    ) -> Heard
        requires quiet { is_pending self.old ≡ false }
        requires nr { nr < 8 }
        requires control { control < 240 }
        requires octet { control + 16 * bit frame.now.poll
            ≡ control_octet (value_of frame.now).kind.control frame.now.poll }
        ensures row { Takes self.old self.new
            (λ w end. any_supervisory_row is_busy is_reject w end (value_of frame.now) nr) result }
    {
        match self.apply(nr) {
            Acknowledgement::Bad => self.reject(frame, control),
            Acknowledgement::Good(_) if is_reject => {
                self.again = self.queue.outstanding();
                self.answer_poll(frame, is_busy)
            }
            Acknowledgement::Good(_) | Acknowledgement::Stale => self.answer_poll(frame, is_busy),
        }
    }

    /// What N(R) means; if it isn't bad, it is applied (2.4.4.5).
    fn apply(&mut self, nr: u8) -> Acknowledgement
        requires quiet { is_pending self.old ≡ false }
        requires nr { nr < 8 }
        ensures after { Steps self.old self.new (λ w end. applying end (meaning_of w end nr)) }
        ensures bad { Tells self.old (λ w end. is_bad (meaning_of w end nr)) (is_bad_number result) }
        ensures good { Tells self.old (λ w end. is_good (meaning_of w end nr)) (is_good_number result) }
        ensures stations { SameStations self.old self.new }
    {
        let meaning = judge(nr, self.acked, self.queue.outstanding(), self.k);
        match meaning {
            Acknowledgement::Good(count) => self.acknowledge(count),
            Acknowledgement::Stale => self.acknowledge(0),
            Acknowledgement::Bad => {}
        }
        meaning
    }

    /// This number of outstanding frames is acknowledged. Ticks and tries are 0 if there are any, or if nothing is
    /// outstanding then (2.4.7.1).
    fn acknowledge(&mut self, count: u8)
        requires quiet { self.old.again ≡ 0 }
        requires reply { self.old.reply ≡ None }
        requires count { count ≤ outstanding_in self.old }
        ensures after { Steps self.old self.new (λ w end. acknowledging end (end.acked + count)) }
        ensures stations { SameStations self.old self.new }
    {
        self.queue.acknowledge(count);
        self.acked = number::after(self.acked, count);
        if count > 0 || self.queue.outstanding() == 0 {
            self.timer = ANEW;
        }
    }

    /// An I frame whose N(R) was applied: it is accepted if its number is the next one (2.4.4.2, 2.4.4.3).
    fn take_numbered(&mut self, frame: &Frame<'_>, ns: u8) -> Heard
        ensures row { Takes self.old self.new (λ w end. information_row w end (value_of frame.now) ns) result }
    {
        let poll = frame.poll;
        if ns == self.taken {
            self.taken = number::after(self.taken, 1);
            self.rejecting = false;
            self.reply = Some(Reply::Ready { poll });
            return Heard::Bytes;
        }
        self.reply = if self.rejecting {
            Some(Reply::Ready { poll })
        } else {
            Some(Reply::Reject { poll })
        };
        self.rejecting = true;
        Heard::Nothing
    }

    /// An S frame whose N(R) was applied: whether the peer is busy, and an answer to a command with P = 1 (2.4.4.7,
    /// 2.4.4.9).
    fn answer_poll(&mut self, frame: &Frame<'_>, is_busy: bool) -> Heard
        ensures row { Takes self.old self.new
            (λ w end. supervisory_row (with_busy is_busy end) (value_of frame.now)) result }
    {
        self.peer_busy = is_busy;
        if frame.command && frame.poll {
            self.reply = Some(Reply::Ready { poll: true });
        }
        Heard::Nothing
    }

    /// SABM in state Up: the end that answers begins again, the one that called ignores it (2.4.6).
    fn take_sabm(&mut self, frame: &Frame<'_>) -> Heard
        requires { self.old.state ≡ LinkState.Up }
        ensures row { Takes self.old self.new (λ w end. called_again end (value_of frame.now)) result }
    {
        if self.called {
            return Heard::Nothing;
        }
        self.begin_anew(frame.poll);
        Heard::Reopened
    }

    /// Answers a SABM with this P bit: a UA is pending, the numbers are 0, and nothing is queued (2.4.3.1, 2.4.6).
    pub(crate) fn begin_anew(&mut self, poll: bool)
        ensures { self.new ≡ anew self.old (accept poll) }
    {
        self.queue.clear();
        self.acked = 0;
        self.taken = 0;
        self.peer_busy = false;
        self.rejecting = false;
        self.timer = ANEW;
        self.again = 0;
        self.farewell = None;
        self.reply = Some(Reply::Accept { poll });
    }

    /// DISC in state Up or Ending: UA, and down (2.4.3.3).
    fn take_disc(&mut self, poll: bool) -> Heard
        ensures row { Takes self.old self.new (λ w end. closing_with end (accept poll) Why.Disc) result }
    {
        self.enter(LinkState::Down);
        self.reply = Some(Reply::Accept { poll });
        Heard::Closed(Why::Disc)
    }

    /// A frame with a bad N(R), and this control octet once its P/F bit is cleared: FRMR, and down (2.3.4.3.3, 2.4.5).
    fn reject(&mut self, frame: &Frame<'_>, control: u8) -> Heard
        requires control { control < 240 }
        requires octet { control + 16 * bit frame.now.poll
            ≡ control_octet (value_of frame.now).kind.control frame.now.poll }
        ensures row { Takes self.old self.new (λ w end. refusing w end (value_of frame.now)) result }
    {
        let octets = reject_octets(
            control + 16 * u8::from(frame.poll),
            number::after(self.acked, self.queue.outstanding()),
            !frame.command,
            self.taken,
        );
        self.enter(LinkState::Down);
        self.reply = Some(Reply::FrameReject {
            octets,
            poll: frame.poll,
        });
        Heard::Closed(Why::BadNr)
    }

    /// The link is down.
    fn close(&mut self, why: Why) -> Heard
        ensures row { Takes self.old self.new (λ w end. closing end why) result }
    {
        self.enter(LinkState::Down);
        Heard::Closed(why)
    }
}
