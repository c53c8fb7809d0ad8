//! One caller's connection.

ghost use Rattle.std.specs.Prelude.{◌≡◌, ◌<◌, ◌↔◌, [], ◌∷◌, ◌++◌, false, true, not};
ghost use Rattle.std.specs.Prelude.{IsTrue, None};
ghost use Rattle.ax25_frames.specs.Values.{value_of};
ghost use Rattle.ax25_link.specs.Kept.{Fits, SameStations, StandsFor, Steps};
ghost use Rattle.ax25_link.specs.Kept.{Tells, is_pending};
ghost use Rattle.ax25_link.specs.declared.state.LinkState.{LinkState};
ghost use Rattle.ax25_link.specs.Window.{Window};
ghost use Rattle.ftl0_packets.specs.Reading.{is_whole, read_item};
ghost use Rattle.ftl0_session.specs.Lists.Lists.{has_left};
ghost use Rattle.file_store.specs.State.{StoreState, store_in};
ghost use Rattle.ftl0_session.specs.Uploads.Others.{KeepsOtherCallers};
ghost use Rattle.disk_model.specs.AtDisk.{at};
ghost use Rattle.ftl0_session.specs.Uploads.SessionState.{IsHeld, IsOnlyOut, NoOtherOut, Parks};
ghost use Rattle.ftl0_session.specs.SessionState.{caller_of, new_session, working_on};
ghost use Rattle.ftl0_server.specs.Connection.Connected.{Connected, beginning, greeted};
ghost use Rattle.ftl0_server.specs.Connection.ConnectionState.{ConnectionState as Carried, IsAnswered, IsConnection};
ghost use Rattle.ftl0_server.specs.Connection.ConnectionState.{StandsAfter, none_left};
ghost use Rattle.ftl0_server.specs.Connection.ConnectionState.{is_over};
ghost use Rattle.ftl0_server.specs.Connection.Feeding.{FeedsAll, HearsFrame, HearsFrameParts, IsGoing, KeepsFit};
ghost use Rattle.ftl0_server.specs.Connection.Feeding.{LeavesFit, MayHear, MayQueue, MayTake, QueuesDue, QueuesNext};
ghost use Rattle.ftl0_server.specs.Connection.Feeding.{TakesOne, carried, carrying};
ghost use Rattle.ftl0_server.specs.Connection.Hearing.{ticking};
ghost use Rattle.ftl0_server.specs.Connection.Taking.{replied};
ghost use Rattle.packet_link.specs.PacketLink.{GivesFrame, KeepsReader, octets_in};
ghost use Rattle.ftl0_server.specs.Places.{SameTalk};
ghost use Rattle.packet_link.specs.Queuing.{fits};

use crate::connection::Fate;
use arrayvec::ArrayVec;
use ax25_frames::Frame;
use ax25_link::{Heard, information};
use disk_model::{Disk, DiskFault};
use file_store::FileStore;
use ftl0_session::lists::Lists;
use ftl0_session::{Replies, Session};
use packet_link::PacketLink;
use px_base::{Call, Moment};
use std::marker::Model;
use std::mem;

/// What a frame that was heard did: what becomes of the session, and whether the server goes on.
pub type Told = (Fate, Result<(), DiskFault>);

/// A caller's connection. It must be ended, which parks the session's upload. Contracts see it as a `ConnectionState`,
/// and speak of the connections of the definitions that it stands for, whose links have all that was pushed, sent and
/// taken.
pub struct Connection {
    link: PacketLink,
    session: Session,
}

impl Model for Connection {
    ghost use Rattle.ftl0_server.specs.Connection.ConnectionState.{ConnectionState};

    ghost Value = { ConnectionState };

    ghost use Rattle.ftl0_server.specs.Connection.Inside.{IsInside, connection_state};

    ghost view = { connection_state };

    ghost invariant = { IsInside };
}

impl Connection {
    /// The connection of a station whose SABM with this P bit is answered at this moment, over a link in state Down
    /// with nothing pending: UA is pending, and LOGIN_RESP queued, which says whether numbers are left in the caller's
    /// list (AX.25 2.0, 2.4.3.1; FTL0 1990, LOGIN_RESP). Takes no memory.
    pub fn answer(
        link: PacketLink,
        caller: Call,
        poll: bool,
        moment: Moment,
        lists: &Lists,
    ) -> Connection
        requires down { link.link.state ≡ LinkState.Down }
        requires quiet { is_pending link.link ≡ false }
        ensures { IsAnswered link.link caller poll moment (has_left lists.now caller) result }
    {
        let mut link = link;
        link.accept(caller, poll);
        let session = greet(&mut link, caller, moment, lists);
        Connection { link, session }
    }

    /// Hears a frame of the caller at this moment, while nothing is pending (AX.25 2.0, 2.4; FTL0 1990): the frame's
    /// row of the link's table, and for information that is next in the stream the packets' rows of the session's
    /// table. Their commands are on the disk before any frame of the event is given out. A reply for which the link has
    /// no room ends the session by DM. Then DATA and DATA_END that are due are queued while at least 1,280 octets are
    /// free. A read of the disk that fails is reported by code 3, and the session goes on. After a fault nothing more
    /// is queued, and the server goes on no further: the frames that are pending are given out first, code 3 among
    /// them. Takes no memory.
    pub fn hear<D: Disk>(
        &mut self,
        disk: &mut D,
        store: &mut FileStore,
        lists: &mut Lists,
        frame: &Frame<'_>,
        moment: Moment,
    ) -> Told
        requires { MayHear D.Disk store.old disk.old lists.old self.old (value_of frame.now) }

        // Of whichever connection it stands for, it is what the frame makes of that, or the server stops, if it is
        // known what octets the files have, or no octet of a file is looked at.
        ensures hears { HearsFrame D.Disk moment (value_of frame.now)
            (working_on store.old lists.old disk.old) (working_on store.new lists.new disk.new)
            self.old self.new result }

        // What the next event needs.
        ensures fit { LeavesFit D.Disk (at store.old disk.old) (working_on store.new lists.new disk.new)
            self.old.link self.new.link self.old.session self.new.session result }
    {
        let told = self.take_frame(disk, store, lists, frame, moment);
        if goes_on(&told) {
            self.queue_due(disk, store);
        }
        told
    }

    /// Counts a tick, while nothing is pending (AX.25 2.0, 2.4.7): the session is over if the caller doesn't answer any
    /// more. Takes no memory.
    pub fn tick(&mut self) -> Fate
        requires quiet { is_pending self.old.link ≡ false }
        requires up { self.old.link.state ≡ LinkState.Up }
        ensures ticks { (w : Window) (store : StoreState) (c : Connected) → IsConnection w store self.old c →
            StandsAfter w store self.new (ticking c).over (ticking c).after result }
        ensures session { self.new.session ≡ self.old.session }
        ensures octets { self.new.octets ≡ self.old.octets }
        ensures up { result ≡ Fate.Stays → self.new.link.state ≡ LinkState.Up }
        ensures down { result ≡ Fate.Ends → self.new.link.state ≡ LinkState.Down }
        ensures stations { SameStations self.old.link self.new.link }
    {
        match self.link.tick() {
            None => Fate::Stays,
            Some(_why) => Fate::Ends,
        }
    }

    /// Replaces `out` by the octets of the next pending frame, which is then sent. It is false, and changes nothing,
    /// exactly when nothing is pending. Takes no memory.
    pub fn next_out(&mut self, out: &mut ArrayVec<u8, 400>) -> bool
        ensures gives { GivesFrame {S = Carried} (λ it. it.link) self.old self.new
            out.old.items out.new.items result }
        ensures same { SameTalk self.old self.new }
    {
        self.link.next_out(out)
    }

    /// Whether a frame is to be given out. Takes no memory.
    pub fn pending(&self) -> bool
        ensures { result ≡ is_pending self.now.link }
    {
        self.link.pending()
    }

    /// Whose connection it is. Takes no memory.
    pub fn caller(&self) -> Call
        ensures { result ≡ caller_of self.now.session }
    {
        self.session.caller()
    }

    /// A law, which does nothing: whatever end the link stands for is one that frames and ticks can bring about.
    pub fn fits_law(&self)
        ensures { Fits self.now.link }
    {
        self.link.stands_law();
    }

    /// Ends the session, which parks its upload, and gives the link, which may have frames to give out still. Takes no
    /// memory.
    pub fn end(self, store: &mut FileStore) -> PacketLink
        requires { IsHeld store.old self.session.uploads }
        ensures link { result.link ≡ self.link }
        ensures parks { Parks store.old store.new self.session.uploads.phase }
        ensures only { IsOnlyOut store.old self.session.uploads → NoOtherOut store.new (caller_of self.session) None }
        ensures others { KeepsOtherCallers store.old store.new (caller_of self.session) }
    {
        let Connection { link, session } = self;
        session.end(store);
        link
    }

    /// Hears a frame, except that what is due isn't queued yet.
    fn take_frame<D: Disk>(
        &mut self,
        disk: &mut D,
        store: &mut FileStore,
        lists: &mut Lists,
        frame: &Frame<'_>,
        moment: Moment,
    ) -> Told
        requires { MayHear D.Disk store.old disk.old lists.old self.old (value_of frame.now) }
        ensures hears { HearsFrameParts D.Disk moment (value_of frame.now)
            (working_on store.old lists.old disk.old) (working_on store.new lists.new disk.new)
            self.old self.new result }
        ensures fit { LeavesFit D.Disk (at store.old disk.old) (working_on store.new lists.new disk.new)
            self.old.link self.new.link self.old.session self.new.session result }
    {
        match self.link.take(frame) {
            Heard::Nothing | Heard::Opened => (Fate::Stays, Ok(())),
            Heard::Reopened => {
                self.begin_anew(store, lists, moment);
                (Fate::Stays, Ok(()))
            }
            Heard::Bytes => take_packets(
                &mut self.link,
                &mut self.session,
                disk,
                store,
                lists,
                information(frame),
                moment,
            ),
            Heard::Closed(_why) => (Fate::Ends, Ok(())),
        }
    }

    /// Queues DATA and DATA_END that are due, one after another, while enough octets are free.
    fn queue_due<D: Disk>(&mut self, disk: &mut D, store: &mut FileStore)
        requires { MayQueue D.Disk store.old disk.old self.old }
        ensures queues { QueuesDue D.Disk store.old disk.old disk.new self.old self.new }
        ensures keeps { KeepsFit D.Disk store.old store.new disk.old disk.new self.old self.new }
    {
        while self.queue_next(disk, store) {}
    }

    /// Queues what is due next, if enough octets are free. It answers false, and nothing changed, if nothing is due, or
    /// fewer are free.
    fn queue_next<D: Disk>(&mut self, disk: &mut D, store: &mut FileStore) -> bool
        requires { MayQueue D.Disk store.old disk.old self.old }
        ensures next { QueuesNext D.Disk store.old disk.old disk.new self.old self.new result }
        ensures keeps { KeepsFit D.Disk store.old store.new disk.old disk.new self.old self.new }
    {
        if !self.link.has_room() {
            return false;
        }
        let mut packet = ArrayVec::new();
        if !self.session.fill(disk, store, &mut packet) {
            return false;
        }
        self.link.push(&packet);
        true
    }

    /// Ends the session, which parks its upload, and begins a new one over the link, which begins again.
    fn begin_anew(&mut self, store: &mut FileStore, lists: &Lists, moment: Moment)
        requires up { self.old.link.state ≡ LinkState.Up }
        requires held { IsHeld store.old self.old.session.uploads }
        requires only { IsOnlyOut store.old self.old.session.uploads }
        ensures begins { (w : Window) (end : _) → StandsFor w self.old.link end →
            IsConnection w store.new self.new
            (beginning end moment (has_left lists.now (caller_of self.old.session))) }
        ensures parks { Parks store.old store.new self.old.session.uploads.phase }
        ensures session { self.new.session ≡ new_session (caller_of self.old.session) }
        ensures only { NoOtherOut store.new (caller_of self.old.session) None }
        ensures others { KeepsOtherCallers store.old store.new (caller_of self.old.session) }
        ensures up { self.new.link.state ≡ LinkState.Up }
        ensures stations { SameStations self.old.link self.new.link }
    {
        let session = greet(&mut self.link, self.session.caller(), moment, lists);
        mem::replace(&mut self.session, session).end(store);
        self.link.begin_anew();
    }
}

/// Takes the packets that these octets, next in the stream, finish, and queues the replies to them.
fn take_packets<D: Disk>(
    link: &mut PacketLink,
    session: &mut Session,
    disk: &mut D,
    store: &mut FileStore,
    lists: &mut Lists,
    octets: &[u8],
    moment: Moment,
) -> Told
    requires { MayTake D.Disk store.old disk.old lists.old link.old.link session.old }
    ensures feeds { FeedsAll D.Disk moment (carrying link.old.link (octets_in link.old ++ octets.now) session.old)
        (carried link.new session.new) (working_on store.old lists.old disk.old)
        (working_on store.new lists.new disk.new) result }
    ensures fit { LeavesFit D.Disk (at store.old disk.old) (working_on store.new lists.new disk.new)
        link.old.link link.new.link session.old session.new result }
{
    let mut piece = octets;
    while let Some(left) = link.next_packet(piece) {
        let told = answer(link, session, disk, store, lists, moment);
        if !goes_on(&told) {
            return told;
        }
        piece = left;
    }
    (Fate::Stays, Ok(()))
}

/// Takes the packet that is whole, and queues the replies to it. After a fault of the disk that is the reply with code
/// 3, and the session is over.
fn answer<D: Disk>(
    link: &mut PacketLink,
    session: &mut Session,
    disk: &mut D,
    store: &mut FileStore,
    lists: &mut Lists,
    moment: Moment,
) -> Told
    requires whole { IsTrue (is_whole link.old.reader) }
    requires may { MayTake D.Disk store.old disk.old lists.old link.old.link session.old }
    ensures takes { TakesOne D.Disk moment (read_item link.old.reader)
        (none_left link.old.link session.old) (none_left link.new.link session.new)
        (working_on store.old lists.old disk.old) (working_on store.new lists.new disk.new) result }
    ensures fit { LeavesFit D.Disk (at store.old disk.old) (working_on store.new lists.new disk.new)
        link.old.link link.new.link session.old session.new result }
    ensures reader { link.new.reader ≡ link.old.reader }
{
    let mut replies = Replies::new();
    match session.take(disk, link.packet(), moment, store, lists, &mut replies) {
        Ok(()) => (reply(link, replies.as_slice()), Ok(())),
        Err(fault) => {
            reply(link, replies.as_slice());
            (Fate::Ends, Err(fault))
        }
    }
}

/// Whether neither the connection nor the server is stopped.
fn goes_on(told: &Told) -> bool
    ensures { IsTrue result ↔ IsGoing told.now }
{
    matches!(told, (Fate::Stays, Ok(())))
}

/// The session of this caller, whose LOGIN_RESP at this moment is queued on the link.
fn greet(link: &mut PacketLink, caller: Call, moment: Moment, lists: &Lists) -> Session
    requires { link.old.link.state ≡ LinkState.Up }
    ensures session { result ≡ new_session caller }
    ensures queued { Steps link.old.link link.new.link (λ w end. greeted end moment (has_left lists.now caller)) }
    ensures up { link.new.link.state ≡ LinkState.Up }
    ensures keeps { KeepsReader link.old link.new }
{
    let mut replies = Replies::new();
    let session = Session::new(caller, moment, lists, &mut replies);
    link.push(replies.as_slice());
    session
}

/// Queues replies, if the link has room for them; else gives it up by DM, and the session is over.
fn reply(link: &mut PacketLink, text: &[u8]) -> Fate
    requires { link.old.link.state ≡ LinkState.Up }
    ensures queued { Steps link.old.link link.new.link (λ w end. replied end text.now) }
    ensures over { Tells link.old.link (λ w end. not (fits end text.now)) (is_over result) }
    ensures up { result ≡ Fate.Stays → link.new.link.state ≡ LinkState.Up }
    ensures down { result ≡ Fate.Ends → link.new.link.state ≡ LinkState.Down }
    ensures keeps { KeepsReader link.old link.new }
{
    if text.len() > link.free() {
        link.abandon();
        return Fate::Ends;
    }
    link.push(text);
    Fate::Stays
}
