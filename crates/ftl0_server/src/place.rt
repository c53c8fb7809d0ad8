//! A place of a server.

ghost use Rattle.std.specs.Prelude.{◌≡◌, ◌<◌, [], false, true, IsErr};
ghost use Rattle.ax25_frames.specs.Values.{value_of};
ghost use Rattle.ax25_link.specs.Window.{Window};
ghost use Rattle.file_store.specs.State.{IsReady, store_in};
ghost use Rattle.ftl0_session.specs.Downloads.Needs.{AreComplete};
ghost use Rattle.ftl0_session.specs.Lists.Lists.{has_left};
ghost use Rattle.disk_model.specs.AtDisk.{at};
ghost use Rattle.ftl0_session.specs.SessionState.{working_on};
ghost use Rattle.ftl0_server.specs.AtPlace.{GivesUp, HasBegun, HasEnded, HasLeft, IsPlace, KeepsStore, MayBegin};
ghost use Rattle.ftl0_server.specs.AtPlace.{MayEnd, MayHear, MayLeave, MayTick, PlaceFits, PlaceHearsFrame, Works};
ghost use Rattle.ftl0_server.specs.Slots.{Slot, slot_ticking};
ghost use Rattle.ftl0_server.specs.Places.{PlaceGives, SamePlace};
ghost use Rattle.ftl0_server.specs.ServerState.{has_caller, is_empty_place, place_most, place_pending};

use crate::connection::{Connection, Fate};
use arrayvec::ArrayVec;
use ax25_frames::Frame;
use disk_model::{Disk, DiskFault};
use file_store::FileStore;
use ftl0_session::lists::Lists;
use packet_link::PacketLink;
use px_base::{Call, Moment};
use std::mem;

/// A place of a server. It has its link from the server's start on, so that a session that begins takes no memory.
pub(crate) enum Place {
    /// It has no session: its link is down from the start on, or of a session that is over, and may have frames to give
    /// out still.
    Empty(PacketLink),
    /// It has a caller's connection, with the link.
    Talking(Connection),
    /// Its link is moved from the one to the other: inside a call alone.
    Moving,
}

impl Place {
    /// Whether it has no session.
    pub(crate) fn is_empty(&self) -> bool
        ensures { result ≡ is_empty_place self.now }
    {
        match self {
            Place::Empty(_) => true,
            Place::Talking(_) | Place::Moving => false,
        }
    }

    /// Whether it has a session of this caller.
    pub(crate) fn has_caller(&self, caller: Call) -> bool
        ensures { result ≡ has_caller caller self.now }
    {
        match self {
            Place::Talking(connection) => connection.caller() == caller,
            Place::Empty(_) | Place::Moving => false,
        }
    }

    /// Whether a frame is to be given out.
    pub(crate) fn pending(&self) -> bool
        ensures { result ≡ place_pending self.now }
    {
        match self {
            Place::Empty(link) => link.pending(),
            Place::Talking(connection) => connection.pending(),
            Place::Moving => false,
        }
    }

    /// Replaces `out` by the octets of the next pending frame, which is then sent. It is false, and changes nothing,
    /// exactly when nothing is pending.
    pub(crate) fn next_out(&mut self, out: &mut ArrayVec<u8, 400>) -> bool
        ensures pending { result ≡ place_pending self.old }
        ensures none { result ≡ false → (self.new ≡ self.old) × (out.new.items ≡ out.old.items) }
        ensures fewer { result ≡ true → place_most self.new < place_most self.old }
        ensures gives { PlaceGives self.old self.new out.old.items out.new.items result }
        ensures same { SamePlace self.old self.new }
    {
        match self {
            Place::Empty(link) => link.next_out(out),
            Place::Talking(connection) => connection.next_out(out),
            Place::Moving => false,
        }
    }

    /// A law, which does nothing: whatever end its link stands for is one that frames and ticks can bring about.
    pub(crate) fn fits_law(&self)
        ensures { PlaceFits self.now }
    {
        match self {
            Place::Empty(link) => link.stands_law(),
            Place::Talking(connection) => connection.fits_law(),
            Place::Moving => {}
        }
    }

    /// Begins a session of this caller over its link, by the answer to a SABM with this P bit at this moment.
    pub(crate) fn begin(&mut self, caller: Call, poll: bool, moment: Moment, lists: &Lists)
        requires { MayBegin self.old }
        ensures { HasBegun caller poll moment (has_left lists.now caller) self.old self.new }
    {
        match mem::replace(self, Place::Moving) {
            Place::Empty(link) => {
                let connection = Connection::answer(link, caller, poll, moment, lists);
                self.put(Place::Talking(connection));
            }
            Place::Talking(_connection) => unreachable!(),
            Place::Moving => unreachable!(),
        }
    }

    /// Hears a frame of the caller whose connection it has, at this moment: as [`Connection::hear`], except that if the
    /// session is over, its upload is parked, and its link kept for what it has to send.
    pub(crate) fn hear<D: Disk>(
        &mut self,
        disk: &mut D,
        store: &mut FileStore,
        lists: &mut Lists,
        frame: &Frame<'_>,
        moment: Moment,
    ) -> Result<(), DiskFault>
        requires may { MayHear store.old (value_of frame.now) self.old }
        requires ready { IsReady D.Disk store.old disk.old }
        requires complete { AreComplete (store_in store.old) lists.old }
        ensures hears { PlaceHearsFrame D.Disk moment (value_of frame.now)
            (working_on store.old lists.old disk.old) (working_on store.new lists.new disk.new)
            self.old self.new result }
        ensures keeps { KeepsStore D.Disk (IsErr result) store.old store.new disk.old disk.new }
        ensures works { Works store.old store.new self.old self.new }
        ensures complete { AreComplete (store_in store.new) lists.new }
    {
        match self {
            Place::Talking(connection) => {
                let (fate, heard) = connection.hear(disk, store, lists, frame, moment);
                if let Fate::Ends = fate {
                    self.leave(store);
                }
                heard
            }
            Place::Empty(_) | Place::Moving => unreachable!(),
        }
    }

    /// Counts a tick: if the caller doesn't answer any more, the session is over, and its upload parked.
    pub(crate) fn tick(&mut self, store: &mut FileStore)
        requires { MayTick store.old self.old }
        ensures ticks { (w : Window) (slot : Slot) → IsPlace w store.old self.old slot →
            IsPlace w store.new self.new (slot_ticking slot) }
        ensures works { Works store.old store.new self.old self.new }
        ensures store { GivesUp store.old store.new }
    {
        match self {
            Place::Talking(connection) => {
                if let Fate::Ends = connection.tick() {
                    self.leave(store);
                }
            }
            Place::Empty(_) | Place::Moving => {}
        }
    }

    /// Ends its session, if it has one, and parks its upload.
    pub(crate) fn end(self, store: &mut FileStore)
        requires { MayEnd store.old self }
        ensures { HasEnded store.old store.new self }
    {
        match self {
            Place::Talking(connection) => {
                let _link = connection.end(store);
            }
            Place::Empty(_) | Place::Moving => {}
        }
    }

    /// Ends its session, parks its upload, and keeps the link for what it has to send.
    fn leave(&mut self, store: &mut FileStore)
        requires { MayLeave store.old self.old }
        ensures { HasLeft store.old store.new self.old self.new }
    {
        match mem::replace(self, Place::Moving) {
            Place::Talking(connection) => {
                let link = connection.end(store);
                self.put(Place::Empty(link));
            }
            Place::Empty(_) | Place::Moving => unreachable!(),
        }
    }

    /// Puts this where the link is moved.
    fn put(&mut self, place: Place)
        requires { self.old ≡ Place.Moving }
        ensures { self.new ≡ place }
    {
        match mem::replace(self, place) {
            Place::Moving => {}
            Place::Talking(_connection) => unreachable!(),
            Place::Empty(_) => unreachable!(),
        }
    }
}
