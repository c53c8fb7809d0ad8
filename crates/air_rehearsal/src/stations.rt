//! The stations of a rehearsal, and which events may come.

ghost use Rattle.std.specs.Prelude.{◌≡◌, ◌↔◌, ◌≤◌, ℕ, List, length, false, IfOk, IsOk, IsTrue, ⊤};
ghost use Rattle.std.specs.Option.{option_copied};
ghost use Rattle.air_schedule.specs.Events.{event_value};
ghost use Rattle.ax25_link.specs.Air.{Transmission};
ghost use Rattle.air_world.specs.Attempts.Lists.{Placed};
ghost use Rattle.air_world.specs.Lawful.{HasParty, IsFree, IsPossible, MayCome};
ghost use Rattle.air_world.specs.Sound.{Sound};
ghost use Rattle.air_world.specs.World.{World};
ghost use Rattle.ax25_link.specs.Window.{IsGoodK, window_of};
ghost use Rattle.air_rehearsal.specs.LaneCalls.{MayDeliver};
ghost use Rattle.air_rehearsal.specs.Lanes.{IsLane};
ghost use Rattle.air_rehearsal.specs.Asking.{MayResume, MayTakeFile};
ghost use Rattle.air_rehearsal.specs.Numbers.{numbered, place_numbered};
ghost use Rattle.air_rehearsal.specs.Worlds.{PlaysStations};
ghost use Rattle.disk_model.specs.Cuts.{cuts_by};
ghost use Rattle.air_rehearsal.specs.Opening.{OpensAll, OpensClient, OpensFirst};
ghost use Rattle.air_rehearsal.specs.Ready.{AreReady, IsReadyParty, IsReadyServer};
ghost use Rattle.air_rehearsal.specs.ServerCalls.{IsRestarted, IsStarted};

use crate::asking::Upload;
use crate::cuts::Cut;
use crate::lane::Lane;
use crate::party::Party;
use crate::report::Report;
use crate::stopped::{Breach, Stopped};
use air_schedule::Event;
use client_notes::laws::images_law;
use disk_model::CutDisk;
use file_store::Limits;
use ftl0_server::Server;
use px_base::laws::one_call;
use px_base::{Call, Moment};
use std::alloc::Global;

/// The characters of the server's call.
const SERVER: &str = "PACSAT";

/// What the server's store may take.
pub(crate) const LIMITS: Limits = Limits { blocks: 65_536 };

/// The clients of a rehearsal, with what was asked of them and what came of it so far. The server stands beside them.
#[derive(Drop)]
pub(crate) struct Stations {
    pub alloc: Global,
    /// The server's call.
    pub me: Call,
    /// How many I frames of each link may be outstanding.
    pub k: u8,
    pub parties: Vec<Party>,
    /// The uploads that were asked, in their order.
    pub uploads: Vec<Upload>,
    /// The cut that comes in the server's next event.
    pub cut: Option<Cut>,
    /// The moment of the event: its number, from 1 on, as a clock of 32 bits tells it.
    pub moment: Moment,
    /// What came of the events so far, but for what is counted at the end.
    pub report: Report,
}

impl Stations {
    /// The clients with these calls, each over its disk, which isn't armed from then on. Takes memory.
    pub(crate) fn open<B: CutDisk>(
        alloc: Global,
        disks: &mut [B],
        k: u8,
        calls: &[Call],
    ) -> Result<Stations, Stopped>
        requires window { IsGoodK k }
        requires enough { length calls.now ≤ length disks.old }
        ensures k { IfOk result (λ stations. stations.k ≡ k) }
        ensures ready { IfOk result (λ stations. AreReady B.Disk stations.parties.items disks.new) }
        ensures opens { IfOk result (OpensAll B.Disk (cuts_by B.restarts B.arming B.plain B.is_starved) k calls.now
            disks.old disks.new) }
    {
        let Ok(me) = Call::read(SERVER) else {
            return Err(Stopped::Broken(Breach::NotMade));
        };
        one_call();
        let parties = open_parties(alloc, disks, me, k, calls)?;
        Ok(Stations {
            alloc,
            me,
            k,
            parties,
            uploads: Vec::new(alloc),
            cut: None,
            moment: Moment::new(0),
            report: Report::new(),
        })
    }

    /// The server starts for the first time: its disk isn't armed from then on. Takes memory.
    pub(crate) fn start<B: CutDisk>(&self, disk: &mut B) -> Result<Server, Stopped>
        requires { IsGoodK self.now.k }
        ensures ready { IfOk result (λ server. IsReadyServer B.Disk self.now server disk.new) }
        ensures starts { IfOk result (IsStarted B.Disk (cuts_by B.restarts B.arming B.plain B.is_starved) self.now
            disk.old disk.new) }
        ensures memory { IsOk result → B.is_starved disk.new ≡ false }
    {
        disk.arm(None);
        let server = self.restart_server(disk)?;
        if disk.starved() {
            server.close();
            return Err(Stopped::OutOfMemory);
        }
        Ok(server)
    }

    /// The server starts from the store of its disk. Takes memory.
    pub(crate) fn restart_server<B: CutDisk>(&self, disk: &mut B) -> Result<Server, Stopped>
        requires { IsGoodK self.now.k }
        ensures ready { IfOk result (λ server. IsReadyServer B.Disk self.now server disk.new) }
        ensures restarts { IfOk result (IsRestarted B.Disk self.now disk.old disk.new) }
        ensures lasts { B.lasts disk.old disk.new }
    {
        match Server::start(self.alloc, disk, LIMITS, self.me, self.k) {
            Ok(server) => Ok(server),
            Err(fault) => Err(Stopped::of_store(fault)),
        }
    }

    /// The client of this number.
    pub(crate) fn party(&self, number: u64) -> Option<&Party>
        ensures { option_copied result ≡ numbered number self.now.parties.items }
    {
        self.parties.get(place_of(number)?)
    }

    /// Whether an event may come: whether its client and its transmission are there, and it may be done or delivered.
    pub(crate) fn allows(&self, event: &Event) -> bool
        ensures { (world : World) → Sound world → PlaysStations self.now world →
            IsTrue result ↔ IsPossible world (event_value event.now) }
    {
        match event {
            Event::AskUpload { client, .. } => self.may_upload(*client),
            Event::AskResume { client } => self.may_resume(*client),
            Event::AskList { client, .. } => self.may_ask(*client),
            Event::AskDownload { client, .. } => self.may_ask(*client),
            Event::ToServer {
                client,
                transmission,
            } => self.may_reach_server(*client, *transmission),
            Event::ToClient {
                client,
                transmission,
            } => self.may_reach_client(*client, *transmission),
            Event::TickClient { client } => self.has_party(*client),
            Event::BreakClient { client } => self.has_party(*client),
            Event::CutClient { client, .. } => self.has_party(*client),
            Event::TickServer | Event::CutServer { .. } => true,
        }
    }

    /// Whether there is a client of this number.
    fn has_party(&self, client: u64) -> bool
        ensures { (world : World) → Sound world → PlaysStations self.now world →
            IsTrue result ↔ HasParty world client (λ _. ⊤) }
    {
        match self.party(client) {
            Some(_party) => true,
            None => false,
        }
    }

    /// Whether there is a client of this number of which nothing that was asked is under way.
    fn may_ask(&self, client: u64) -> bool
        ensures { (world : World) → Sound world → PlaysStations self.now world →
            IsTrue result ↔ HasParty world client IsFree }
    {
        match self.party(client) {
            Some(party) => party.is_free(),
            None => false,
        }
    }

    /// Whether it may be asked for a new file.
    fn may_upload(&self, client: u64) -> bool
        ensures { (world : World) → Sound world → PlaysStations self.now world →
            IsTrue result ↔ HasParty world client MayTakeFile }
    {
        match self.party(client) {
            Some(party) => party.is_free() && party.has_room(),
            None => false,
        }
    }

    /// Whether it may be asked for an unfinished upload.
    fn may_resume(&self, client: u64) -> bool
        ensures { (world : World) → Sound world → PlaysStations self.now world →
            IsTrue result ↔ HasParty world client MayResume }
    {
        match self.party(client) {
            Some(party) => party.is_free() && party.last_going().is_some(),
            None => false,
        }
    }

    /// Whether the transmission of this number of a client may be delivered.
    fn may_reach_server(&self, client: u64, transmission: u64) -> bool
        ensures { (world : World) → Sound world → PlaysStations self.now world →
            IsTrue result ↔ HasParty world client (MayCome (λ a. a.by_client) transmission) }
    {
        match self.party(client) {
            Some(party) => may_come(&party.attempt.from_client, transmission, self.k),
            None => false,
        }
    }

    /// Whether the transmission of this number of the server may be delivered to a client.
    fn may_reach_client(&self, client: u64, transmission: u64) -> bool
        ensures { (world : World) → Sound world → PlaysStations self.now world →
            IsTrue result ↔ HasParty world client (MayCome (λ a. a.by_server) transmission) }
    {
        match self.party(client) {
            Some(party) => may_come(&party.attempt.from_server, transmission, self.k),
            None => false,
        }
    }
}

/// The clients with these calls, each over its disk, which isn't armed from then on. Takes memory.
fn open_parties<B: CutDisk>(
    alloc: Global,
    disks: &mut [B],
    server: Call,
    k: u8,
    calls: &[Call],
) -> Result<Vec<Party>, Stopped>
    requires window { IsGoodK k }
    requires enough { length calls.now ≤ length disks.old }
    ensures ready { IfOk result (λ parties. AreReady B.Disk parties.items disks.new) }
    ensures opens { IfOk result (λ parties. OpensFirst B.Disk (cuts_by B.restarts B.arming B.plain B.is_starved)
        server k (length calls.now) calls.now disks.old disks.new parties.items) }
{
    let mut parties = Vec::new(alloc);
    for c in 0..calls.len() {
        let party = open_party(alloc, &mut disks[c], server, calls[c], k)?;
        parties.push(party)?;
    }
    Ok(parties)
}

/// The client with this call, over its disk, which isn't armed from then on. Takes memory.
fn open_party<B: CutDisk>(
    alloc: Global,
    disk: &mut B,
    server: Call,
    me: Call,
    k: u8,
) -> Result<Party, Stopped>
    requires { IsGoodK k }
    ensures ready { IfOk result (λ party. IsReadyParty B.Disk party disk.new) }
    ensures opens { IfOk result (λ party. (c : ℕ) →
        OpensClient B.Disk (cuts_by B.restarts B.arming B.plain B.is_starved) server k c me
        (record { before = disk.old; after = disk.new; party = party })) }
{
    disk.arm(None);
    let party = Party::open(alloc, disk, server, me, k)?;
    if disk.starved() {
        return Err(Stopped::OutOfMemory);
    }
    images_law(party.client.notes(), disk);
    Ok(party)
}

/// Whether the transmission of this number of those of a lane may be delivered.
fn may_come(lane: &Lane, transmission: u64, k: u8) -> bool
    ensures { (list : List Transmission) → IsLane lane.now list →
        IsTrue result ↔ Placed transmission (MayDeliver (window_of k) list) }
{
    match place_of(transmission) {
        Some(place) => lane.is_lawful(place, k),
        None => false,
    }
}

/// The place of what has this number.
pub(crate) fn place_of(number: u64) -> Option<usize>
    ensures { result ≡ place_numbered number }
{
    match number {
        0 => None,
        _ => Some((number - 1) as usize),
    }
}
