//! How pending frames are sent (AX.25 2.0, 2.3, 2.4.4).

ghost use Rattle.std.specs.Prelude.{◌≡◌, ◌+◌, ◌<◌, Some, true};
ghost use Rattle.ax25_frames.specs.FrameText.{FrameText, canonical};
ghost use Rattle.ax25_frames.specs.Kinds.{CanWrite};
ghost use Rattle.ax25_frames.specs.Values.{kind_value};
ghost use Rattle.ax25_link.specs.Frames.{frame_of_reply, information_again};
ghost use Rattle.ax25_link.specs.Kept.{SameStations, Steps, Writes, frame_between, has_new_in, most_pending, outstanding_in, Reads};
ghost use Rattle.ax25_link.specs.Replies.{farewell_value, reply_value};
ghost use Rattle.ax25_link.specs.Sending.{after_new, sends_again, sends_farewell, sends_new, sends_reply};

use crate::link::Link;
use crate::number;
use crate::reply::{Farewell, Reply};
use crate::timer::ANEW;
use arrayvec::ArrayVec;
use ax25_frames::{Frame, Kind, write_frame};

/// The protocol identifier of I frames: no layer 3 protocol (2.2.4).
const NO_PROTOCOL: u8 = 0xF0;

impl Link {
    /// Sends the reply or the timer's frame.
    pub(crate) fn send_reply(&mut self, reply: Reply, out: &mut ArrayVec<u8, 400>)
        requires { self.old.reply ≡ Some (reply_value reply) }
        ensures after { Steps self.old self.new (λ w end. (sends_reply w end (reply_value reply)).after) }
        ensures frame { Writes self.old (λ w end. (sends_reply w end (reply_value reply)).frame) out.new.items }
        ensures text { Reads self.old (λ w end. (sends_reply w end (reply_value reply)).frame) out.new.items }
        ensures fewer { most_pending self.new < most_pending self.old }
        ensures stations { SameStations self.old self.new }
    {
        self.write_reply(reply, out);
        self.reply = None;
    }

    /// Sends the next of the outstanding frames that are to be sent again.
    pub(crate) fn send_again(&mut self, out: &mut ArrayVec<u8, 400>)
        requires { 0 < self.old.again }
        ensures after { Steps self.old self.new (λ w end. (sends_again w end).after) }
        ensures frame { Writes self.old (λ w end. (sends_again w end).frame) out.new.items }
        ensures text { Reads self.old (λ w end. (sends_again w end).frame) out.new.items }
        ensures fewer { most_pending self.new < most_pending self.old }
        ensures stations { SameStations self.old self.new }
    {
        let place = self.queue.outstanding() - self.again;
        self.write_information(place, false, out);
        self.again -= 1;
    }

    /// Sends a new I frame, which is then outstanding.
    pub(crate) fn send_new(&mut self, out: &mut ArrayVec<u8, 400>)
        requires { has_new_in self.old ≡ true }
        ensures after { Steps self.old self.new (λ w end. (sends_new w end).after) }
        ensures frame { Writes self.old (λ w end. (sends_new w end).frame) out.new.items }
        ensures text { Reads self.old (λ w end. (sends_new w end).frame) out.new.items }
        ensures fewer { most_pending self.new < most_pending self.old }
        ensures stations { SameStations self.old self.new }
    {
        let place = self.cut_new();
        self.write_information(place, false, out);
    }

    /// Sends the last frame of an end that hangs up.
    pub(crate) fn send_farewell(&mut self, farewell: Farewell, out: &mut ArrayVec<u8, 400>)
        requires { self.old.farewell ≡ Some (farewell_value farewell) }
        ensures after { Steps self.old self.new (λ w end. (sends_farewell end (farewell_value farewell)).after) }
        ensures frame { let last = farewell_value farewell in
            Writes self.old (λ w end. (sends_farewell end last).frame) out.new.items }
        ensures text { let last = farewell_value farewell in
            Reads self.old (λ w end. (sends_farewell end last).frame) out.new.items }
        ensures fewer { most_pending self.new < most_pending self.old }
        ensures stations { SameStations self.old self.new }
    {
        self.farewell = None;
        match farewell {
            Farewell::Disconnect => self.write(Kind::Disc, true, true, out),
            Farewell::Refuse => self.write(Kind::Dm, false, false, out),
        }
    }

    /// Makes the piece of a new I frame, and says its place among those of the outstanding frames. The timer begins
    /// again if nothing was outstanding (2.4.7.1).
    fn cut_new(&mut self) -> u8
        requires { has_new_in self.old ≡ true }
        ensures after { Steps self.old self.new (λ w end. after_new end) }
        ensures place { result ≡ outstanding_in self.old }
        ensures inside { result < outstanding_in self.new }
        ensures fewer { most_pending self.new < most_pending self.old }
        ensures stations { SameStations self.old self.new }
    {
        let place = self.queue.outstanding();
        if place == 0 {
            self.timer = ANEW;
        }
        self.queue.send();
        place
    }

    /// Writes the reply or the timer's frame.
    fn write_reply(&self, reply: Reply, out: &mut ArrayVec<u8, 400>)
        requires { self.now.reply ≡ Some (reply_value reply) }
        ensures frame { Writes self.now (λ w end. frame_of_reply w end (reply_value reply)) out.new.items }
        ensures text { Reads self.now (λ w end. frame_of_reply w end (reply_value reply)) out.new.items }
    {
        let nr = self.taken;
        match reply {
            Reply::Ready { poll } => self.write(Kind::Rr { nr }, poll, false, out),
            Reply::Reject { poll } => self.write(Kind::Rej { nr }, poll, false, out),
            Reply::Accept { poll } => self.write(Kind::Ua, poll, false, out),
            Reply::Refuse { poll } => self.write(Kind::Dm, poll, false, out),
            Reply::FrameReject { octets, poll } => {
                self.write(Kind::Frmr(octets), poll, false, out)
            }
            Reply::Call => self.write(Kind::Sabm, true, true, out),
            Reply::Disconnect => self.write(Kind::Disc, true, true, out),
            Reply::Enquiry => self.write(Kind::Rr { nr }, true, true, out),
            Reply::Oldest => self.write_information(0, true, out),
        }
    }

    /// Writes the outstanding I frame at this place, the oldest being at 0 (2.3.4.1).
    fn write_information(&self, place: u8, poll: bool, out: &mut ArrayVec<u8, 400>)
        requires { place < outstanding_in self.now }
        ensures frame { Writes self.now (λ w end. information_again w end (end.acked + place) poll) out.new.items }
        ensures text { Reads self.now (λ w end. information_again w end (end.acked + place) poll) out.new.items }
    {
        let kind = Kind::I {
            ns: number::after(self.acked, place),
            nr: self.taken,
            pid: NO_PROTOCOL,
            info: &[],
        };
        self.write(kind, poll, true, out);
        self.queue.put_piece(place, out);
    }

    /// Writes a frame to the peer.
    fn write(&self, kind: Kind<'_>, poll: bool, command: bool, out: &mut ArrayVec<u8, 400>)
        requires { CanWrite (kind_value kind) }
        ensures octets { out.new.items ≡ canonical (frame_between self.now (kind_value kind.entry) poll command) }
        ensures text { FrameText (frame_between self.now (kind_value kind.entry) poll command) out.new.items }
    {
        let frame = Frame {
            dest: self.peer,
            src: self.me,
            via: 0,
            kind,
            poll,
            command,
        };
        write_frame(&frame, out);
    }
}
