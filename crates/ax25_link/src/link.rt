//! One end of a link in connected mode (AX.25 2.0, 2.4).

ghost use Rattle.std.specs.Prelude.{◌≡◌, ◌↔◌, ◌<◌, ◌≤◌, IsTrue, true, false, IfOk};
ghost use Rattle.ax25_frames.specs.Kinds.{FitsControl};
ghost use Rattle.ax25_frames.specs.Values.{kind_value, value_of};
ghost use Rattle.ax25_link.specs.Calls.{after_abandon, after_hang_up, after_push, pushed_count};
ghost use Rattle.ax25_link.specs.Ends.{answering_end, calling_end, free_octets, idle_end, oldest};
ghost use Rattle.ax25_link.specs.Kept.{Fits, GivesNext, HasStations, IsFromPeer, IsUnchanged, SameStations, StandsFor, Steps, Tells, has_new_in, is_pending, is_there, most_pending, outstanding_in};
ghost use Rattle.ax25_link.specs.Replies.{reply_value};
ghost use Rattle.ax25_link.specs.Rows.{after_frame, entering, heard_of};
ghost use Rattle.ax25_link.specs.Sending.{next_sending};
ghost use Rattle.ax25_link.specs.Timer.{after_tick, limit, timer_reply, told_of_tick};
ghost use Rattle.ax25_link.specs.Window.{IsGoodK, window_of};

use crate::number::MODULUS;
use crate::reply::{Farewell, Reply, without_information};
use crate::send_queue::SendQueue;
use crate::timer::{ANEW, Expiry, T1, T3, Timer};
use crate::{Heard, LinkState, Why};
use arrayvec::ArrayVec;
use ax25_frames::{Frame, Kind};
use px_base::{Call, OutOfMemory};
use std::alloc::Global;
use std::marker::Model;

/// One end of a link in connected mode (AX.25 2.0, 2.4). After each frame and each tick the frames that are pending
/// are handed out by `next_out`, and only then it takes the next frame or tick. Contracts see what it keeps; they
/// speak of the ends that it stands for, which also have all that was pushed, sent and taken.
#[derive(Drop)]
pub struct Link {
    /// This station.
    pub(crate) me: Call,
    /// The other station.
    pub(crate) peer: Call,
    /// Whether this end called the other one.
    pub(crate) called: bool,
    /// How many I frames may be outstanding.
    pub(crate) k: u8,
    pub(crate) state: LinkState,
    /// V(A): the number of the oldest I frame that isn't acknowledged (2.3.2.4.4).
    pub(crate) acked: u8,
    /// V(R): the number of the next I frame to be accepted (2.3.2.4.3).
    pub(crate) taken: u8,
    /// Whether the peer said RNR last.
    pub(crate) peer_busy: bool,
    /// Whether a REJ is outstanding.
    pub(crate) rejecting: bool,
    pub(crate) queue: SendQueue,
    pub(crate) timer: Timer,
    pub(crate) reply: Option<Reply>,
    /// How many of the outstanding frames, the newest ones, are still to be sent again.
    pub(crate) again: u8,
    pub(crate) farewell: Option<Farewell>,
}

impl Model for Link {
    ghost use Rattle.ax25_link.specs.Kept.{Kept, IsKept};

    ghost Value = { Kept };

    ghost use Rattle.ax25_link.specs.Views.{kept_in};

    ghost view = { kept_in };

    ghost invariant = { λ a. IsKept (kept_in a) };
}

impl Link {
    /// The end that calls: state Calling, with a SABM with P = 1 pending (2.4.3.1). At most k I frames are outstanding
    /// at a time; `good_k(k)` holds. Takes memory, and fails only if there is none.
    pub fn call(alloc: Global, me: Call, peer: Call, k: u8) -> Result<Link, OutOfMemory>
        requires { IsGoodK k }
        ensures end { IfOk result (λ link. StandsFor (window_of k) link (calling_end me peer)) }
        ensures stations { IfOk result (λ link. HasStations link true me peer k) }
    {
        let mut link = Link::idle(alloc, me, k)?;
        link.peer = peer;
        link.called = true;
        link.state = LinkState::Calling;
        link.reply = Some(Reply::Call);
        Ok(link)
    }

    /// The end that answers a SABM with this P bit: state Up, with a UA with F = `poll` pending (2.4.3.1). At most k I
    /// frames are outstanding at a time; `good_k(k)` holds. Takes memory, and fails only if there is none.
    pub fn answer(
        alloc: Global,
        me: Call,
        peer: Call,
        k: u8,
        poll: bool,
    ) -> Result<Link, OutOfMemory>
        requires { IsGoodK k }
        ensures end { IfOk result (λ link. StandsFor (window_of k) link (answering_end me peer poll)) }
        ensures stations { IfOk result (λ link. HasStations link false me peer k) }
    {
        let mut link = Link::idle(alloc, me, k)?;
        link.accept(peer, poll);
        Ok(link)
    }

    /// An end before its first link: state Down, with nothing pending. It has no peer until `accept` gives it one; its
    /// own station is in that place. At most k I frames are outstanding at a time; `good_k(k)` holds. Takes memory, and
    /// fails only if there is none.
    pub fn idle(alloc: Global, me: Call, k: u8) -> Result<Link, OutOfMemory>
        requires { IsGoodK k }
        ensures end { IfOk result (λ link. StandsFor (window_of k) link (idle_end me)) }
        ensures stations { IfOk result (λ link. HasStations link false me me k) }
    {
        let queue = SendQueue::new(alloc)?;
        Ok(Link {
            me,
            peer: me,
            called: false,
            k,
            state: LinkState::Down,
            acked: 0,
            taken: 0,
            peer_busy: false,
            rejecting: false,
            queue,
            timer: ANEW,
            reply: None,
            again: 0,
            farewell: None,
        })
    }

    /// Answers a SABM of the peer with this P bit, in state Down and while nothing is pending: the link is then as
    /// `answer` makes it, whatever it was before (2.4.3.1). Takes no memory.
    pub fn accept(&mut self, peer: Call, poll: bool)
        requires down { self.old.state ≡ LinkState.Down }
        requires quiet { is_pending self.old ≡ false }
        ensures end { StandsFor (window_of self.old.k) self.new (answering_end self.old.me peer poll) }
        ensures stations { HasStations self.new false self.old.me peer self.old.k }
    {
        self.peer = peer;
        self.called = false;
        self.state = LinkState::Up;
        self.begin_anew(poll);
    }

    /// Takes a frame for which `is_from_peer` holds, while nothing is pending (2.4.3, 2.4.4): the frame's row of the
    /// table in docs/FORMATS.md. A frame that the row ignores changes nothing. `Bytes` says that the frame's
    /// information is next in the stream. Takes no memory.
    pub fn take(&mut self, frame: &Frame<'_>) -> Heard
        requires quiet { is_pending self.old ≡ false }
        requires frame { IsFromPeer self.old (value_of frame.now) }
        ensures after { Steps self.old self.new (λ w end. after_frame w end (value_of frame.now)) }
        ensures heard { Tells self.old (λ w end. heard_of w end (value_of frame.now)) result }
        ensures stations { SameStations self.old self.new }
    {
        match self.state {
            LinkState::Calling => self.take_calling(frame),
            LinkState::Up => self.take_up(frame),
            LinkState::Ending => self.take_ending(frame),
            LinkState::Down => self.take_down(frame),
        }
    }

    /// Whether a frame is from the peer to this station, without repeaters and with sequence numbers below 8: what
    /// `take` asks of it.
    pub fn is_from_peer(&self, frame: &Frame<'_>) -> bool
        ensures { IsTrue result ↔ IsFromPeer self.now (value_of frame.now) }
    {
        frame.dest == self.me
            && frame.src == self.peer
            && frame.via == 0
            && has_low_numbers(&frame.kind)
    }

    /// Queues the first octets of these, as many as `free` says, in state Up, and says how many. Takes no memory.
    pub fn push(&mut self, bytes: &[u8]) -> usize
        requires { self.old.state ≡ LinkState.Up }
        ensures count { Tells self.old (λ w end. pushed_count end bytes.now) result }
        ensures after { Steps self.old self.new (λ w end. after_push end bytes.now) }
        ensures stations { SameStations self.old self.new }
    {
        self.queue.push(bytes)
    }

    /// How many octets can be queued: 4,096 less those that are queued or unacknowledged.
    pub fn free(&self) -> usize
        ensures { Tells self.now (λ w end. free_octets end) result }
    {
        self.queue.free()
    }

    /// Replaces `out` by the octets of the next pending frame, which is then sent. It is false, and changes nothing,
    /// exactly when nothing is pending. Takes no memory.
    pub fn next_out(&mut self, out: &mut ArrayVec<u8, 400>) -> bool
        ensures pending { result ≡ is_pending self.old }
        ensures none { result ≡ false → IsUnchanged self.old self.new out.old.items out.new.items }
        ensures fewer { result ≡ true → most_pending self.new < most_pending self.old }
        ensures next { GivesNext self.old self.new out.old.items out.new.items result }
        ensures stations { SameStations self.old self.new }
    {
        if let Some(reply) = self.reply {
            self.send_reply(reply, out);
        } else if self.again > 0 {
            self.send_again(out);
        } else if self.has_new() {
            self.send_new(out);
        } else if let Some(farewell) = self.farewell {
            self.send_farewell(farewell, out);
        } else {
            return false;
        }
        true
    }

    /// Whether a frame is to be handed out.
    pub fn pending(&self) -> bool
        ensures value { result ≡ is_pending self.now }
        ensures next { Tells self.now (λ w end. is_there (next_sending w end)) result }
    {
        self.reply.is_some() || self.again > 0 || self.has_new() || self.farewell.is_some()
    }

    /// Counts a tick while nothing is pending (2.4.7.1). It is `NoAnswer`, and the link down, exactly when the timer
    /// runs out for the eleventh time in a row. Takes no memory.
    pub fn tick(&mut self) -> Option<Why>
        requires { is_pending self.old ≡ false }
        ensures after { Steps self.old self.new (λ w end. after_tick end) }
        ensures told { Tells self.old (λ w end. told_of_tick end) result }
        ensures stations { SameStations self.old self.new }
    {
        if matches!(self.state, LinkState::Down) {
            return None;
        }
        let reply = self.timer_frame();
        let limit = self.limit();
        match self.timer.tick(limit) {
            Expiry::Waits => None,
            Expiry::Asks => {
                self.reply = Some(reply);
                None
            }
            Expiry::GivesUp => {
                self.enter(LinkState::Down);
                Some(Why::NoAnswer)
            }
        }
    }

    /// Ends the link, in state Up: the octets that weren't sent are dropped, the state is Ending, and a DISC with
    /// P = 1 is pending (2.4.3.3). Takes no memory.
    pub fn hang_up(&mut self)
        requires { self.old.state ≡ LinkState.Up }
        ensures after { Steps self.old self.new (λ w end. after_hang_up end) }
        ensures stations { SameStations self.old self.new }
    {
        self.enter(LinkState::Ending);
        self.queue.drop_unsent();
        self.farewell = Some(Farewell::Disconnect);
    }

    /// Gives the link up, in state Up: the state is Down, and a DM with F = 0 is pending (2.3.4.3.5). Takes no
    /// memory.
    pub fn abandon(&mut self)
        requires { self.old.state ≡ LinkState.Up }
        ensures after { Steps self.old self.new (λ w end. after_abandon end) }
        ensures stations { SameStations self.old self.new }
    {
        self.enter(LinkState::Down);
        self.farewell = Some(Farewell::Refuse);
    }

    /// The state.
    #[tactic(auto, using(crate::proofs::StandLemmas::fits))]
    pub fn state(&self) -> LinkState
        ensures value { result ≡ self.now.state }
        ensures end { Tells self.now (λ w end. end.state) result }
        ensures fits { Fits self.now }
    {
        self.state
    }

    /// Changes the state: ticks and tries are 0, and no I frame is pending except in state Up.
    pub(crate) fn enter(&mut self, state: LinkState)
        ensures after { Steps self.old self.new (λ w end. entering end state) }
        ensures state { self.new.state ≡ state }
        ensures stations { SameStations self.old self.new }
    {
        self.state = state;
        self.timer = ANEW;
        self.again = 0;
        self.reply = without_information(self.reply);
    }

    /// How many ticks make the timer run out (2.4.7.1).
    fn limit(&self) -> u8
        ensures end { Tells self.now (λ w end. limit end) result }
        ensures most { result ≤ 60 }
    {
        let is_silent = matches!(self.state, LinkState::Up)
            && self.queue.outstanding() == 0
            && self.timer.tries == 0;
        if is_silent { T3 } else { T1 }
    }

    /// What is sent once the timer has run out (2.4.7.1).
    fn timer_frame(&self) -> Reply
        ensures end { Tells self.now (λ w end. timer_reply end.state end) (reply_value result) }
        ensures oldest { reply_value result ≡ oldest → 1 ≤ outstanding_in self.now }
    {
        match self.state {
            LinkState::Calling => Reply::Call,
            LinkState::Ending | LinkState::Down => Reply::Disconnect,
            LinkState::Up => {
                if self.queue.outstanding() == 0 {
                    Reply::Enquiry
                } else {
                    Reply::Oldest
                }
            }
        }
    }

    /// Whether a new I frame is to be sent: the link is up, the peer isn't busy, the window has room, and there are
    /// octets that weren't sent (2.4.4.1).
    fn has_new(&self) -> bool
        ensures { result ≡ has_new_in self.now }
    {
        matches!(self.state, LinkState::Up)
            && self.queue.outstanding() < self.k
            && !self.peer_busy
            && self.queue.has_unsent()
    }
}

/// Whether its sequence numbers are below 8.
fn has_low_numbers(kind: &Kind<'_>) -> bool
    ensures { IsTrue result ↔ FitsControl (kind_value kind.now).control }
{
    match kind {
        Kind::I { ns, nr, .. } => *ns < MODULUS && *nr < MODULUS,
        Kind::Rr { nr } | Kind::Rnr { nr } | Kind::Rej { nr } => *nr < MODULUS,
        _ => true,
    }
}
