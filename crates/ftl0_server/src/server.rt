//! The server.

ghost use Rattle.std.specs.Prelude.{◌≡◌, ◌<◌, ◌≤◌, ℕ, [], false, true, IfErr, IfOk, IfSome, IsErrOf, None, Ok};
ghost use Rattle.std.specs.Prelude.{OnOk, Some};
ghost use Rattle.std.specs.List.{position};
ghost use Rattle.ax25_frames.specs.Values.{value_of};
ghost use Rattle.ax25_link.specs.Window.{IsGoodK, window_of};
ghost use Rattle.file_store.specs.IsStore.{IsStore};
ghost use Rattle.file_store.specs.Bounds.{RecoversInHalves};
ghost use Rattle.disk_model.specs.Runs.{Leaves, Runs, TakesStep};
ghost use Rattle.file_store.specs.Journal.{HasGoodHeader, IsAfterRecovery, journal_of};
ghost use Rattle.file_store.specs.Recovery.{IsRecovered, LeavesAlikeSinceSync, RefusesRecovery, StandsAlike};
ghost use Rattle.file_store.specs.State.{IsRead, IsReady, store_in, store_layout, store_magic, store_on};
ghost use Rattle.file_store.specs.Store.{Store};
ghost use Rattle.turn_loop.specs.Events.{hears, ticks};
ghost use Rattle.packet_link.specs.PacketLink.{idle_link};
ghost use Rattle.ftl0_server.specs.AtPlace.{AllFit};
ghost use Rattle.ftl0_server.specs.Calls.{AwaitsEvent, AwaitsFrame, AwaitsStranger, HandsOutNext, HearsStranger};
ghost use Rattle.ftl0_server.specs.Calls.{SameButLinks, SameStore, HearsEvent};
ghost use Rattle.ftl0_server.specs.Server.{Server as ServerValue, called_by, hearing_stranger, new_server, refusing};
ghost use Rattle.ftl0_server.specs.Server.{server_ticking, settled};
ghost use Rattle.ftl0_server.specs.ServerState.{IsServer, SendsFor, new_places, has_caller, is_empty_place};
ghost use Rattle.ftl0_server.specs.ServerState.{server_most, server_pending, sessions_in};
ghost use Rattle.ftl0_server.specs.Slots.{first_empty};

use crate::place::Place;
use crate::places::{
    all_fit_law, any_is_pending, count_sessions, empty_place, end_all, next_of, place_of, tick_all,
};
use arrayvec::ArrayVec;
use ax25_frames::Frame;
use ax25_link::{Refusal, is_call};
use disk_model::{Disk, DiskFault};
use file_store::laws::{state_law, told_law};
use file_store::{FileStore, Limits, StoreFault};
use ftl0_session::lists::Lists;
use packet_link::PacketLink;
use px_base::{Call, Moment};
use std::alloc::Global;
use std::marker::Model;

/// How many sessions may be up at a time.
pub const PLACES: usize = 8;

/// A server of FTL0 sessions. After each frame and each tick the frames that are pending are handed out by `next_out`,
/// and only then it takes the next frame or tick. What a caller selects is kept whether it is connected or not. The
/// server must be closed, which parks all uploads. Contracts see it as a `ServerState`; they speak of the servers of
/// the definitions that it stands for, whose links have all that was pushed, sent and taken.
pub struct Server {
    me: Call,
    k: u8,
    places: [Place; PLACES],
    stray: Option<Refusal>,
    store: FileStore,
    lists: Lists,
}

impl Model for Server {
    ghost use Rattle.ftl0_server.specs.Kept.{IsKept, server_state};
    ghost use Rattle.ftl0_server.specs.ServerState.{ServerState};

    ghost Value = { ServerState };

    ghost view = { server_state };

    ghost invariant = { IsKept };
}

impl Server {
    /// Recovers the store from the disk, as [`FileStore::recover`] does, and starts a server of it, without sessions
    /// and without selections: the station `me`, with at most k I frames outstanding on each link; `good_k(k)` holds.
    /// Takes memory, after the recovery about 300 KiB: for the selections, and for the links of the eight places.
    ///
    /// `NotAStore` and `Damaged` leave the disk's content as it was. After `Disk` and `OutOfMemory` the disk is to be
    /// recovered again.
    pub fn start<D: Disk>(
        alloc: Global,
        disk: &mut D,
        limits: Limits,
        me: Call,
        k: u8,
    ) -> Result<Server, StoreFault>
        requires some { 1 ≤ limits.blocks }
        requires most { limits.blocks ≤ 65536 }
        requires window { IsGoodK k }
        ensures recovered { IfOk result (λ server. IsRecovered D.Disk limits.blocks disk.old disk.new server.store) }
        ensures server { IfOk result (λ server. (store : Store) →
            IsServer store server (new_server me (window_of k) store)) }
        ensures magic { IfOk result (λ server. server.store.journal.magic ≡ store_magic) }
        ensures rules { IfOk result (λ server. IsStore (store_in server.store)) }
        ensures rules_on { IfOk result (λ server. IsStore (store_on D.Disk server.store disk.new)) }
        ensures silent { IfOk result (λ server. server_pending server ≡ false) }
        ensures me { IfOk result (λ server. server.me ≡ me) }

        // As the recovery of the store says it.
        ensures refuses { RefusesRecovery limits.blocks (D.content disk.old) result }
        ensures untouched { (found : _) → IsErrOf result (StoreFault.NotAStore found)
            → D.content disk.new ≡ D.content disk.old }
        ensures untouched_damage { (at : ℕ) → IsErrOf result (StoreFault.Damaged at)
            → D.content disk.new ≡ D.content disk.old }
        ensures runs { Runs D.Disk (IsErrOf result StoreFault.Disk) disk.old disk.new }
        ensures memory { IsErrOf result StoreFault.OutOfMemory → IfSome (D.content disk.old)
            (λ before. HasGoodHeader (journal_of store_magic store_layout before)) }
        ensures since_start { Leaves D.Disk disk.old disk.new (StandsAlike limits.blocks) }
        ensures since_sync { LeavesAlikeSinceSync D.Disk limits.blocks result disk.old disk.new }
        ensures octets { OnOk result
            (TakesStep D.Disk disk.old disk.new (IsAfterRecovery store_magic store_layout limits.blocks)) }
        ensures within { RecoversInHalves D.Disk store_layout limits.blocks disk.old disk.new }
    {
        let store = FileStore::recover(alloc, disk, limits)?;
        state_law(&store);
        told_law(&store, disk);
        let lists = new_lists(alloc)?;
        let places = new_places(alloc, me, k)?;
        Ok(Server {
            me,
            k,
            places,
            stray: None,
            store,
            lists,
        })
    }

    /// Hears a frame for this station without repeaters at this moment, while nothing is pending. A frame of a
    /// connected caller is its connection's ([`Connection::hear`]). SABM of another station begins a session at the
    /// lowest empty place, or is refused by DM if there is none; any other command with P = 1 of such a station gets
    /// DM, and the rest is ignored (AX.25 2.0, 2.4.3). The commands of the frame's packets are on the disk before any
    /// frame is given out. A read of the disk that fails is reported by code 3, and the server goes on. It costs the
    /// frame's octets, finding its sender among eight, what its packets cost the store, and the octets of the files
    /// that it sends. Takes no memory.
    ///
    /// After a fault the frames that are pending are given out first, code 3 among them. Then the server is closed.
    pub fn hear<D: Disk>(
        &mut self,
        disk: &mut D,
        frame: &Frame<'_>,
        moment: Moment,
    ) -> Result<(), DiskFault>
        requires { AwaitsFrame D.Disk self.old disk.old (value_of frame.now) }

        // Of whichever server it stands for, over the store that the disk holds, it is what the frame makes of that, or
        // it stops: if it is known what octets the files have, and on every disk if none of them is looked at, as for a
        // stranger's frame, or one that brings no packet or refused ones. It keeps what the next event needs.
        ensures { HearsEvent D.Disk (hears (value_of frame.now) moment) self.old self.new disk.old disk.new result }
    {
        match place_of(&self.places, frame.src) {
            Some(place) => self.hear_at(place, disk, frame, moment),
            None => {
                self.hear_stranger(frame, moment);
                Ok(())
            }
        }
    }

    /// Counts a tick on each link, while nothing is pending (AX.25 2.0, 2.4.7): a session is over whose caller doesn't
    /// answer any more. It frees no octets of a link, so nothing more of what is due is queued. So far a tick has
    /// nothing to do on the disk, and its moment makes no difference. It costs the eight places. Takes no memory.
    pub fn tick<D: Disk>(&mut self, _disk: &mut D, _moment: Moment) -> Result<(), DiskFault>
        requires { AwaitsEvent D.Disk self.old _disk.old }
        ensures ok { result ≡ Ok tt }

        // What a power cut inside it leaves, said as of a frame.
        ensures takes { HearsEvent D.Disk (ticks _moment) self.old self.new _disk.old _disk.new result }
        ensures ticks { (store : Store) → (server : ServerValue) → IsServer store self.old server →
            IsServer store self.new (server_ticking server) }
        ensures untouched { _disk.new ≡ _disk.old }
        ensures ready { IsReady D.Disk self.new.store _disk.new }
        ensures store { store_in self.new.store ≡ store_in self.old.store }
        ensures on_disk { store_on D.Disk self.new.store _disk.new ≡ store_on D.Disk self.old.store _disk.old }
        ensures lists { self.new.lists ≡ self.old.lists }
    {
        tick_all(&mut self.places, &mut self.store);
        Ok(())
    }

    /// Replaces `out` by the octets of the next pending frame, which is then sent: the DM to a station without a
    /// connection first, then the frames of the first place, then those of the next. It is false, and changes nothing,
    /// exactly when nothing is pending. Takes no memory.
    pub fn next_out(&mut self, out: &mut ArrayVec<u8, 400>) -> bool
        ensures pending { result ≡ server_pending self.old }
        ensures none { result ≡ false → self.new ≡ self.old }
        ensures fewer { result ≡ true → server_most self.new < server_most self.old }
        ensures sends { HandsOutNext SendsFor self.old self.new out.old.items out.new.items result }
        ensures next { (store : Store) →
            HandsOutNext (IsServer store) self.old self.new out.old.items out.new.items result }

        // Once all is given out, places whose sessions are over are free.
        ensures settles { (store : Store) → result ≡ false → (server : ServerValue) → IsServer store self.old server →
            IsServer store self.new (settled server) }
        ensures same { SameButLinks self.old self.new }
    {
        match self.stray {
            Some(stray) => {
                stray.write(self.me, out);
                self.stray = None;
                true
            }
            None => next_of(&mut self.places, out),
        }
    }

    /// Whether a frame is to be given out. Takes no memory.
    pub fn pending(&self) -> bool
        ensures { result ≡ server_pending self.now }
    {
        self.stray.is_some() || any_is_pending(&self.places)
    }

    /// How many sessions are up. Takes no memory.
    pub fn sessions(&self) -> usize
        ensures { result ≡ sessions_in self.now.places }
    {
        count_sessions(&self.places)
    }

    /// A law, which does nothing: whatever ends the links stand for are ones that frames and ticks can bring about.
    pub(crate) fn fits_law(&self)
        ensures window { IsGoodK self.now.k }
        ensures fits { AllFit self.now.places }
    {
        all_fit_law(&self.places);
    }

    /// A law, which does nothing: the journal of its store is a store's, read to its end.
    pub fn read_law(&self)
        ensures { IsRead self.now.store.journal }
    {
        state_law(&self.store);
    }

    /// Ends all sessions, and parks their uploads: what is held stays on the disk, which isn't touched. All selections
    /// are gone. Takes no memory.
    pub fn close(self) {
        let Server {
            me: _,
            k: _,
            places,
            stray: _,
            store,
            lists: _,
        } = self;
        let mut store = store;
        end_all(places, &mut store);
    }

    /// Hears a frame of the caller whose connection is at this place.
    fn hear_at<D: Disk>(
        &mut self,
        place: usize,
        disk: &mut D,
        frame: &Frame<'_>,
        moment: Moment,
    ) -> Result<(), DiskFault>
        requires place { position (has_caller (value_of frame.now).src) self.old.places ≡ Some place }
        requires awaits { AwaitsFrame D.Disk self.old disk.old (value_of frame.now) }
        ensures { HearsEvent D.Disk (hears (value_of frame.now) moment) self.old self.new disk.old disk.new result }
    {
        let places: &mut [Place] = &mut self.places;
        let at = &mut places[place];
        at.hear(disk, &mut self.store, &mut self.lists, frame, moment)
    }

    /// Hears a frame of a station without a connection (AX.25 2.0, 2.4.3).
    fn hear_stranger(&mut self, frame: &Frame<'_>, moment: Moment)
        requires { AwaitsStranger self.old (value_of frame.now).src }
        ensures heard { HearsStranger (λ server. hearing_stranger server (value_of frame.now) moment)
            self.old self.new }
        ensures same { SameStore self.old self.new }
    {
        if is_call(frame) {
            self.answer(frame.src, frame.poll, moment);
        } else if frame.command && frame.poll {
            self.refuse(frame.src, true);
        }
    }

    /// Answers a SABM with this P bit of a station without a connection: by a session at the lowest empty place, whose
    /// LOGIN_RESP says whether numbers are left in the station's list, or by DM if none is empty (AX.25 2.0, 2.4.3.1;
    /// FTL0 1990, LOGIN_RESP).
    fn answer(&mut self, caller: Call, poll: bool, moment: Moment)
        requires { AwaitsStranger self.old caller }
        ensures heard { HearsStranger (λ server. called_by server caller poll moment (first_empty server.slots))
            self.old self.new }
        ensures same { SameStore self.old self.new }
    {
        let Some(place) = empty_place(&self.places) else {
            self.refuse(caller, poll);
            return;
        };
        self.seat(place, caller, poll, moment);
    }

    /// The DM to this station is to be given out, with this F bit.
    fn refuse(&mut self, to: Call, poll: bool)
        ensures refuses { (store : Store) → (server : ServerValue) → IsServer store self.old server →
            IsServer store self.new (refusing server to poll) }
        ensures same { SameStore self.old self.new }
    {
        self.stray = Some(Refusal { to, poll });
    }

    /// Begins a session at this place, which has none, of a caller that has none.
    fn seat(&mut self, place: usize, caller: Call, poll: bool, moment: Moment)
        requires empty { position is_empty_place self.old.places ≡ Some place }
        requires awaits { AwaitsStranger self.old caller }
        ensures heard { HearsStranger (λ server. called_by server caller poll moment (Some place))
            self.old self.new }
        ensures same { SameStore self.old self.new }
    {
        let places: &mut [Place] = &mut self.places;
        let at = &mut places[place];
        at.begin(caller, poll, moment, &self.lists);
    }
}

/// No selections. Takes memory.
fn new_lists(alloc: Global) -> Result<Lists, StoreFault>
    ensures lists { IfOk result (λ lists. lists ≡ []) }
    ensures memory { IfErr result (λ fault. fault ≡ StoreFault.OutOfMemory) }
{
    Lists::new(alloc).map_err(|_| StoreFault::OutOfMemory)
}

/// The places of a server without sessions, each with its link. Takes memory.
fn new_places(alloc: Global, me: Call, k: u8) -> Result<[Place; PLACES], StoreFault>
    requires { IsGoodK k }
    ensures places { IfOk result (λ places. places ≡ new_places me k) }
    ensures memory { IfErr result (λ fault. fault ≡ StoreFault.OutOfMemory) }
{
    let first = new_link(alloc, me, k)?;
    let second = new_link(alloc, me, k)?;
    let third = new_link(alloc, me, k)?;
    let fourth = new_link(alloc, me, k)?;
    let fifth = new_link(alloc, me, k)?;
    let sixth = new_link(alloc, me, k)?;
    let seventh = new_link(alloc, me, k)?;
    let eighth = new_link(alloc, me, k)?;
    Ok([
        Place::Empty(first),
        Place::Empty(second),
        Place::Empty(third),
        Place::Empty(fourth),
        Place::Empty(fifth),
        Place::Empty(sixth),
        Place::Empty(seventh),
        Place::Empty(eighth),
    ])
}

/// A link before its first session. Takes memory.
fn new_link(alloc: Global, me: Call, k: u8) -> Result<PacketLink, StoreFault>
    requires { IsGoodK k }
    ensures link { IfOk result (λ link. link ≡ idle_link (window_of k) me) }
    ensures memory { IfErr result (λ fault. fault ≡ StoreFault.OutOfMemory) }
{
    PacketLink::idle(alloc, me, k).map_err(|_| StoreFault::OutOfMemory)
}
