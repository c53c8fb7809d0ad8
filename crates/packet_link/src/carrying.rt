//! One end of a link that carries packets.

ghost use Rattle.std.specs.Prelude.{◌≡◌, ◌<◌, ◌≤◌, [], length, false, true, IfOk, IfSome, IsTrue, None};
ghost use Rattle.ax25_frames.specs.Values.{value_of};
ghost use Rattle.ax25_link.specs.Air.{is_information};
ghost use Rattle.ax25_link.specs.Calls.{after_abandon, after_hang_up, after_push};
ghost use Rattle.ax25_link.specs.Ends.{answering_end, calling_end, free_octets};
ghost use Rattle.ax25_link.specs.Kept.{Fits, HasStations, IsFromPeer, StandsFor, Steps, Tells};
ghost use Rattle.ax25_link.specs.Kept.{is_pending};
ghost use Rattle.ax25_link.specs.Queue.{room_of};
ghost use Rattle.ax25_link.specs.Rows.{after_frame, heard_of};
ghost use Rattle.ax25_link.specs.Timer.{after_tick, told_of_tick};
ghost use Rattle.ax25_link.specs.Window.{IsGoodK, window_of};
ghost use Rattle.ftl0_packets.specs.Reading.{is_whole, read_item};
ghost use Rattle.ftl0_packets.specs.Values.{item_of};
ghost use Rattle.packet_link.specs.PacketLink.{FindsNone, FindsPacket, GivesFrame, IsOpen, KeepsReader};
ghost use Rattle.packet_link.specs.PacketLink.{PacketLinkState as LinkValue, StandsForSome, idle_link, octets_in};
ghost use Rattle.packet_link.specs.Queuing.{enough_free};

use arrayvec::ArrayVec;
use ax25_frames::Frame;
use ax25_link::{Heard, Link, LinkState, Why};
use ftl0_packets::{Malformed, Packet, PacketFed, PacketReader};
use px_base::{Call, OutOfMemory};
use std::alloc::Global;
use std::marker::Model;

/// How many octets are free on the link at least when a packet that is due is queued.
const ENOUGH_FREE: usize = 1280;

/// One end of a link that carries packets, with the reader of those that come. After each frame and each tick the
/// frames that are pending are handed out by `next_out`, and only then it takes the next frame or tick. Contracts see
/// it as a `PacketLinkState`, and speak of the ends that its link stands for.
#[derive(Drop)]
pub struct PacketLink {
    link: Link,
    reader: PacketReader,
}

impl Model for PacketLink {
    ghost use Rattle.packet_link.specs.PacketLink.{PacketLinkState};

    ghost Value = { PacketLinkState };

    ghost use Rattle.packet_link.specs.Inside.{IsInside, packet_link_state};

    ghost view = { packet_link_state };

    ghost invariant = { IsInside };
}

impl PacketLink {
    /// The end that calls ([`Link::call`]): SABM with P = 1 is pending (AX.25 2.0, 2.4.3.1). At most k I frames are
    /// outstanding at a time; `good_k(k)` holds. Takes memory, and fails only if there is none.
    pub fn call(alloc: Global, me: Call, peer: Call, k: u8) -> Result<PacketLink, OutOfMemory>
        requires { IsGoodK k }
        ensures end { IfOk result (λ it. StandsFor (window_of k) it.link (calling_end me peer)) }
        ensures stations { IfOk result (λ it. HasStations it.link true me peer k) }
        ensures octets { IfOk result (λ it. octets_in it ≡ []) }
    {
        let link = Link::call(alloc, me, peer, k)?;
        Ok(PacketLink {
            link,
            reader: PacketReader::new(),
        })
    }

    /// An end before its first link ([`Link::idle`]): state Down, with nothing pending. At most k I frames are
    /// outstanding at a time; `good_k(k)` holds. Takes memory, and fails only if there is none.
    pub fn idle(alloc: Global, me: Call, k: u8) -> Result<PacketLink, OutOfMemory>
        requires { IsGoodK k }
        ensures { IfOk result (λ it. it ≡ idle_link (window_of k) me) }
    {
        let link = Link::idle(alloc, me, k)?;
        Ok(PacketLink {
            link,
            reader: PacketReader::new(),
        })
    }

    /// Answers a SABM of the peer with this P bit, in state Down and while nothing is pending ([`Link::accept`]): UA is
    /// pending (AX.25 2.0, 2.4.3.1), and nothing is left of a link before. Takes no memory.
    pub fn accept(&mut self, peer: Call, poll: bool)
        requires down { self.old.link.state ≡ LinkState.Down }
        requires quiet { is_pending self.old.link ≡ false }
        ensures end { StandsFor (window_of self.old.link.k) self.new.link
            (answering_end self.old.link.me peer poll) }
        ensures stations { HasStations self.new.link false self.old.link.me peer self.old.link.k }
        ensures up { self.new.link.state ≡ LinkState.Up }
        ensures octets { octets_in self.new ≡ [] }
    {
        self.link.accept(peer, poll);
        self.begin_anew();
    }

    /// Takes a frame of the peer, while nothing is pending ([`Link::take`]). If it reports `Bytes`, the frame is an I
    /// frame, whose information ([`information`](ax25_link::information)) is next in the stream, and the link is up:
    /// `next_packet` takes it. Takes no memory.
    pub fn take(&mut self, frame: &Frame<'_>) -> Heard
        requires quiet { is_pending self.old.link ≡ false }
        requires frame { IsFromPeer self.old.link (value_of frame.now) }
        ensures after { Steps self.old.link self.new.link (λ w end. after_frame w end (value_of frame.now)) }
        ensures heard { Tells self.old.link (λ w end. heard_of w end (value_of frame.now)) result }
        ensures bytes { result ≡ Heard.Bytes → IsTrue (is_information (value_of frame.now).kind.control) }
        ensures next { result ≡ Heard.Bytes → self.new.link.state ≡ LinkState.Up }
        ensures up { self.old.link.state ≡ LinkState.Up → IsOpen result → self.new.link.state ≡ LinkState.Up }
        ensures down { (reason : Why) → result ≡ Heard.Closed reason → self.new.link.state ≡ LinkState.Down }
        ensures keeps { KeepsReader self.old self.new }
    {
        self.link.take(frame)
    }

    /// Takes these octets, next in the stream, up to the end of the packet under way, and gives those after it; `None`
    /// if all are taken and no packet is whole. Takes no memory.
    pub fn next_packet<'a>(&mut self, octets: &'a [u8]) -> Option<&'a [u8]>
        ensures found { IfSome result (λ left. FindsPacket self.old self.new octets.now left.now) }
        ensures none { result ≡ None → FindsNone self.old self.new octets.now }
        ensures link { self.new.link ≡ self.old.link }
    {
        let _ = &self.reader;
        if octets.is_empty() {
            return None;
        }
        let (taken, fed) = self.reader.feed(octets);
        match fed {
            PacketFed::More => return None,
            PacketFed::Whole => {}
        }
        Some(octets.split_at(taken).1)
    }

    /// The packet that is whole since the last `next_packet`, or why it is malformed ([`PacketReader::packet`]). Takes
    /// no memory.
    pub fn packet(&self) -> Result<Packet<'_>, Malformed>
        requires { IsTrue (is_whole self.now.reader) }
        ensures { item_of result ≡ read_item self.now.reader }
    {
        self.reader.packet()
    }

    /// How many octets can be queued.
    pub fn free(&self) -> usize
        ensures free { Tells self.now.link (λ w end. free_octets end) result }
        ensures room { result ≡ room_of self.now.link.queue }
    {
        self.link.free()
    }

    /// Whether enough octets are free for a packet that is due: 1,280 at least.
    pub fn has_room(&self) -> bool
        ensures enough { result ≡ true → enough_free ≤ room_of self.now.link.queue }
        ensures fewer { result ≡ false → room_of self.now.link.queue < enough_free }
    {
        self.free() >= ENOUGH_FREE
    }

    /// Queues octets, as many as are free, in state Up ([`Link::push`]). If some are free and some are given, fewer are
    /// free then. Takes no memory.
    pub fn push(&mut self, octets: &[u8])
        requires { self.old.link.state ≡ LinkState.Up }
        ensures after { Steps self.old.link self.new.link (λ w end. after_push end octets.now) }
        ensures fewer { 0 < length octets.now → 0 < room_of self.old.link.queue →
            room_of self.new.link.queue < room_of self.old.link.queue }
        ensures up { self.new.link.state ≡ LinkState.Up }
        ensures keeps { KeepsReader self.old self.new }
    {
        let _count = self.link.push(octets);
    }

    /// The stream of packets that come begins again. Takes no memory.
    pub fn begin_anew(&mut self)
        ensures octets { octets_in self.new ≡ [] }
        ensures link { self.new.link ≡ self.old.link }
    {
        self.reader.clear();
    }

    /// Counts a tick while nothing is pending ([`Link::tick`]): why the link is down, if the peer doesn't answer any
    /// more (AX.25 2.0, 2.4.7.1). Takes no memory.
    pub fn tick(&mut self) -> Option<Why>
        requires { is_pending self.old.link ≡ false }
        ensures after { Steps self.old.link self.new.link (λ w end. after_tick end) }
        ensures told { Tells self.old.link (λ w end. told_of_tick end) result }
        ensures up { self.old.link.state ≡ LinkState.Up → result ≡ None → self.new.link.state ≡ LinkState.Up }
        ensures down { IfSome result (λ reason. self.new.link.state ≡ LinkState.Down) }
        ensures keeps { KeepsReader self.old self.new }
    {
        self.link.tick()
    }

    /// Ends the link, in state Up, by DISC ([`Link::hang_up`]; AX.25 2.0, 2.4.3.3). Takes no memory.
    pub fn hang_up(&mut self)
        requires { self.old.link.state ≡ LinkState.Up }
        ensures after { Steps self.old.link self.new.link (λ w end. after_hang_up end) }
        ensures keeps { KeepsReader self.old self.new }
    {
        self.link.hang_up();
    }

    /// Gives the link up, in state Up, by DM ([`Link::abandon`]; AX.25 2.0, 2.3.4.3.5). Takes no memory.
    pub fn abandon(&mut self)
        requires { self.old.link.state ≡ LinkState.Up }
        ensures after { Steps self.old.link self.new.link (λ w end. after_abandon end) }
        ensures down { self.new.link.state ≡ LinkState.Down }
        ensures keeps { KeepsReader self.old self.new }
    {
        self.link.abandon();
    }

    /// Replaces `out` by the octets of the next pending frame, which is then sent. It is false, and changes nothing,
    /// exactly when nothing is pending. Takes no memory.
    pub fn next_out(&mut self, out: &mut ArrayVec<u8, 400>) -> bool
        ensures gives { GivesFrame {S = LinkValue} (λ it. it.link) self.old self.new
            out.old.items out.new.items result }
        ensures keeps { KeepsReader self.old self.new }
    {
        self.link.next_out(out)
    }

    /// Whether a frame is to be given out. Takes no memory.
    pub fn pending(&self) -> bool
        ensures { result ≡ is_pending self.now.link }
    {
        self.link.pending()
    }

    /// The link's state. Takes no memory.
    pub fn state(&self) -> LinkState
        ensures { result ≡ self.now.link.state }
    {
        self.link.state()
    }

    /// A law, which does nothing: the link stands for some end, and whatever end it stands for is one that frames and
    /// ticks can bring about.
    pub fn stands_law(&self)
        ensures { StandsForSome self.now.link × Fits self.now.link }
    {
        let _ = self.link.state();
    }
}
