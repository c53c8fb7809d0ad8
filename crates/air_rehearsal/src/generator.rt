//! A rehearsal whose events are drawn by a number.

ghost use Rattle.std.specs.Prelude.{◌≡◌, ◌↔◌, ◌⊎◌, ◌+◌, ◌-◌, ◌%◌, ◌^◌, ◌<◌, ◌≤◌, [], ◌∷◌, length, None, IfOk, IsTrue};
ghost use Rattle.std.specs.Prelude.{ℕ, Err};
ghost use Rattle.std.specs.Option.{option_map};
ghost use Rattle.px_base.specs.CallSign.{CallText};
ghost use Rattle.disk_model.specs.Cuts.{AreFresh, cuts_by};
ghost use Rattle.air_schedule.specs.Events.{event_value};
ghost use Rattle.air_world.specs.Sound.{Sound};
ghost use Rattle.air_world.specs.World.{World};
ghost use Rattle.air_rehearsal.specs.Drawn.{drawn_calls, rounds};
ghost use Rattle.air_rehearsal.specs.Driving.{Drives, IsDraw, IsFitEvent, IsReadyBench};
ghost use Rattle.air_rehearsal.specs.Driving.{delivery_of, driven_by};
ghost use Rattle.air_rehearsal.specs.Generator.{Answers, Carries, DrivenBy, Exchange, IsClosed, TriesIf, TriesTimes};
ghost use Rattle.air_rehearsal.specs.Generator.{Turn, TurnExchanges, Turns, attempts_of as attempts_in, between};
ghost use Rattle.air_rehearsal.specs.Generator.{ending, fate_of, next_number, next_state, none_looked, put_off};
ghost use Rattle.air_rehearsal.specs.Generator.{sent_of, still_looked, times_of, wish};
ghost use Rattle.air_rehearsal.specs.Playing.{bench_of};
ghost use Rattle.air_rehearsal.specs.Ready.{AreReady};
ghost use Rattle.air_rehearsal.specs.Rehearsed.{CanTell};
ghost use Rattle.air_rehearsal.specs.Worlds.{PlaysStations};

use crate::rehearsing::{RehearseStop, ended};
use crate::report::Report;
use crate::stations::Stations;
use crate::stopped::{Breach, Stopped};
use air_schedule::Event;
use air_world::laws::{parts_law, schedule_law, sound_law, stores_law};
use disk_model::CutDisk;
use file_store_model::laws::follows_law;
use ftl0_server::Server;
use px_base::Call;
use px_base::laws::one_call;
use std::alloc::Global;

/// How many I frames of each link may be outstanding.
const WINDOW: u8 = 4;

/// How many exchanges a client has at most in its turn.
const MOST_EXCHANGES: u32 = 20;

/// Numbers that are drawn, by a linear congruential generator modulo 2^64.
#[derive(Clone, Copy, Debug)]
struct Draws {
    state: u64,
}

impl Draws {
    /// The next number, below 2^31.
    fn next(&mut self) -> u64
        ensures number { result ≡ next_number self.old.state }
        ensures state { self.new.state ≡ next_state self.old.state }
    {
        self.state = self
            .state
            .wrapping_mul(6_364_136_223_846_793_005)
            .wrapping_add(1_442_695_040_888_963_407);
        self.state >> 33
    }
}

/// Which way frames go.
#[derive(Clone, Copy, Debug)]
enum Way {
    ToServer,
    ToClient,
}

impl Way {
    /// The delivery of the transmission at this place, from or to the client of this number.
    fn delivery(self, client: u64, place: usize) -> Event
        requires { place < 2 ^ 64 - 1 }
        ensures { event_value result ≡ delivery_of self client (place + 1) }
    {
        let transmission = place as u64 + 1;
        match self {
            Way::ToServer => Event::ToServer {
                client,
                transmission,
            },
            Way::ToClient => Event::ToClient {
                client,
                transmission,
            },
        }
    }
}

/// What becomes of a transmission.
#[derive(Clone, Copy, Debug)]
enum Fate {
    Lost,
    Twice,
    /// It is put off behind the next one.
    Late,
    Once,
}

impl Fate {
    /// By a number that is drawn. The last transmission isn't put off.
    fn by(drawn: u64, is_last: bool) -> Fate
        ensures { result ≡ fate_of (drawn % 16) is_last }
    {
        match drawn % 16 {
            0 => Fate::Lost,
            1 => Fate::Twice,
            2 if !is_last => Fate::Late,
            _ => Fate::Once,
        }
    }

    /// How often it is delivered at once.
    fn times(self) -> u32
        ensures { result ≡ times_of self }
    {
        match self {
            Fate::Lost | Fate::Late => 0,
            Fate::Twice => 2,
            Fate::Once => 1,
        }
    }

    /// The delivery, if it is put off.
    fn put_off(self, delivery: Event) -> Option<Event>
        ensures { result ≡ put_off self delivery }
    {
        match self {
            Fate::Late => Some(delivery),
            Fate::Lost | Fate::Twice | Fate::Once => None,
        }
    }
}

/// How many transmissions of an attempt, each way, were looked at in a turn.
#[derive(Clone, Copy, Debug)]
struct Looked {
    attempt: u64,
    to_server: usize,
    to_client: usize,
}

impl Looked {
    /// None yet of the newest attempt of the client of this number.
    fn none(stations: &Stations, client: u64) -> Looked
        ensures { (world : World) → PlaysStations stations.now world → result ≡ none_looked world client }
    {
        Looked {
            attempt: attempts_of(stations, client),
            to_server: 0,
            to_client: 0,
        }
    }

    /// Those that were looked at, where the newest attempt is the same one; otherwise none yet.
    fn at(self, stations: &Stations, client: u64) -> Looked
        ensures { (world : World) → PlaysStations stations.now world → result ≡ still_looked world client self }
    {
        if attempts_of(stations, client) == self.attempt {
            self
        } else {
            Looked::none(stations, client)
        }
    }

    /// Whether there is a transmission more than before.
    fn is_beyond(self, before: Looked) -> bool
        ensures { IsTrue result ↔ ((before.to_server < self.to_server) ⊎ (before.to_client < self.to_client)) }
    {
        self.to_server > before.to_server || self.to_client > before.to_client
    }
}

/// The clients, and what is drawn for them.
#[derive(Drop)]
struct Driver {
    draws: Draws,
    stations: Stations,
}

/// Plays so many rounds of three clients' turns over nine disks, as [`rehearse`] does a schedule. The same numbers give
/// the same events. Takes memory.
///
/// In its turn a client that is free goes on with its unfinished upload, if it has one; or it downloads the last file
/// that was acknowledged, or uploads a new one. Then the two stations exchange frames, of which some are lost,
/// delivered twice or delivered late, until the client is done, or has had 20 exchanges. At the end it may be broken
/// off, or a cut of its power or the server's may wait for the next event.
///
/// The clause says of the report what [`rehearse`] says of a schedule, and that the schedule's events are those which
/// the number draws. It holds if the count of the server's disk's failed writes doesn't stand at its last number at the
/// end. After `OutOfMemory` and `Broken` nothing is said of the disks. `Unlawful`
/// never comes: an event that may not come isn't played.
///
/// [`rehearse`]: crate::rehearse
pub fn drive<B: CutDisk>(
    alloc: Global,
    seed: u64,
    count: u32,
    bench: &mut Vec<B>,
) -> Result<Report, RehearseStop>
    requires { AreFresh B.Disk (cuts_by B.restarts B.arming B.plain B.is_starved) bench.old.items }
    ensures driven { IfOk result (λ report. CanTell B.Disk bench.new.items →
        DrivenBy B.Disk (cuts_by B.restarts B.arming B.plain B.is_starved) seed count bench.old.items bench.new.items
        report) }
    ensures lawful { (line : ℕ) → ¬ (result ≡ Err (RehearseStop.Unlawful line)) }
{
    let Some((disk, disks)) = bench.as_mut_slice().split_first_mut() else {
        return Err(RehearseStop::Broken {
            line: 0,
            what: Breach::NoClient,
        });
    };
    drive_over(alloc, seed, count, disk, disks)
}

/// The same over the server's disk and those of the clients.
fn drive_over<B: CutDisk>(
    alloc: Global,
    seed: u64,
    count: u32,
    disk: &mut B,
    disks: &mut [B],
) -> Result<Report, RehearseStop>
    requires { AreFresh B.Disk (cuts_by B.restarts B.arming B.plain B.is_starved) (disk.old ∷ disks.old) }
    ensures driven { IfOk result (λ report. CanTell B.Disk (disk.new ∷ disks.new) →
        DrivenBy B.Disk (cuts_by B.restarts B.arming B.plain B.is_starved) seed count (disk.old ∷ disks.old)
        (disk.new ∷ disks.new) report) }
    ensures lawful { (line : ℕ) → ¬ (result ≡ Err (RehearseStop.Unlawful line)) }
{
    sound_law();
    parts_law();
    stores_law();
    schedule_law();
    follows_law();
    let calls = match calls(alloc) {
        Ok(calls) => calls,
        Err(stopped) => return Err(ended(stopped, 0, disk, disks)),
    };
    let stations = match Stations::open(alloc, disks, WINDOW, calls.as_slice()) {
        Ok(stations) => stations,
        Err(stopped) => return Err(ended(stopped, 0, disk, disks)),
    };
    let server = match stations.start(disk) {
        Ok(server) => server,
        Err(stopped) => return Err(ended(stopped, 0, disk, disks)),
    };
    let mut driver = Driver {
        draws: Draws { state: seed },
        stations,
    };
    match driver.rounds(server, disk, disks, count) {
        Ok(server) => {
            server.close();
            match driver.stations.end(disk) {
                Ok(report) => Ok(report),
                Err(stopped) => Err(ended(stopped, driver.stations.report.events, disk, disks)),
            }
        }
        Err(stopped) => Err(ended(stopped, driver.stations.report.events, disk, disks)),
    }
}

/// The calls of the clients. Takes memory.
fn calls(alloc: Global) -> Result<Vec<Call>, Stopped>
    ensures { IfOk result (λ calls. calls.items ≡ drawn_calls) }
{
    one_call();
    let calls = [
        read_call("T1AAA")?,
        read_call("T2AAA")?,
        read_call("T3AAA")?,
    ];
    Ok(Vec::from_slice(alloc, &calls)?)
}

/// The call of this text.
fn read_call(text: &str) -> Result<Call, Stopped>
    ensures { IfOk result (λ call. CallText call text.now) }
{
    match Call::read(text) {
        Ok(call) => Ok(call),
        Err(_) => Err(Stopped::Broken(Breach::NotMade)),
    }
}

impl Driver {
    /// So many rounds.
    fn rounds<B: CutDisk>(
        &mut self,
        server: Server,
        disk: &mut B,
        disks: &mut [B],
        count: u32,
    ) -> Result<Server, Stopped>
        requires { IsReadyBench B.Disk (bench_of self.old.stations server disk.old disks.old) }
        ensures { IfOk result (λ later. Drives B.Disk (cuts_by B.restarts B.arming B.plain B.is_starved)
            (Turns (rounds count)) (driven_by self.old server disk.old disks.old)
            (driven_by self.new later disk.new disks.new)) }
    {
        let mut server = server;
        for _ in 0..count {
            server = self.round(server, disk, disks)?;
        }
        Ok(server)
    }

    /// A turn of each client.
    fn round<B: CutDisk>(
        &mut self,
        server: Server,
        disk: &mut B,
        disks: &mut [B],
    ) -> Result<Server, Stopped>
        requires { IsReadyBench B.Disk (bench_of self.old.stations server disk.old disks.old) }
        ensures { IfOk result (λ later. Drives B.Disk (cuts_by B.restarts B.arming B.plain B.is_starved)
            (Turns (rounds 1)) (driven_by self.old server disk.old disks.old)
            (driven_by self.new later disk.new disks.new)) }
    {
        let server = self.turn(server, disk, disks, 1)?;
        let server = self.turn(server, disk, disks, 2)?;
        self.turn(server, disk, disks, 3)
    }

    /// A turn of the client of this number.
    fn turn<B: CutDisk>(
        &mut self,
        server: Server,
        disk: &mut B,
        disks: &mut [B],
        client: u64,
    ) -> Result<Server, Stopped>
        requires { IsReadyBench B.Disk (bench_of self.old.stations server disk.old disks.old) }
        ensures { IfOk result (λ later. Drives B.Disk (cuts_by B.restarts B.arming B.plain B.is_starved)
            (Turn client) (driven_by self.old server disk.old disks.old)
            (driven_by self.new later disk.new disks.new)) }
    {
        let wish = self.wish(client);
        let server = self.play(server, disk, disks, wish)?;
        let server = self.exchange_all(server, disk, disks, client)?;
        let ending = self.ending(client);
        self.play(server, disk, disks, ending)
    }

    /// Plays an event, if there is one and it may come.
    fn play<B: CutDisk>(
        &mut self,
        server: Server,
        disk: &mut B,
        disks: &mut [B],
        event: Option<Event>,
    ) -> Result<Server, Stopped>
        requires ready { IsReadyBench B.Disk (bench_of self.old.stations server disk.old disks.old) }
        requires fits { IsFitEvent self.old.stations event }
        ensures { IfOk result (λ later. Drives B.Disk (cuts_by B.restarts B.arming B.plain B.is_starved)
            (TriesIf (option_map event_value event)) (driven_by self.old server disk.old disks.old)
            (driven_by self.new later disk.new disks.new)) }
    {
        let Some(event) = event else {
            return Ok(server);
        };
        if !self.stations.allows(&event) {
            return Ok(server);
        }
        self.stations.play(server, disk, disks, &event)
    }

    /// What the client is asked for, if it is free.
    fn wish(&mut self, client: u64) -> Option<Event>
        ensures same { self.new.stations ≡ self.old.stations }
        ensures fits { IsFitEvent self.new.stations result }
        ensures wish { (world : World) → Sound world → PlaysStations self.old.stations world →
            IsDraw (wish self.old.draws.state client world) result self.old.draws.state self.new.draws.state }
    {
        let party = self.stations.party(client)?;
        if !party.is_free() {
            return None;
        }
        if party.last_going().is_some() {
            return Some(Event::AskResume { client });
        }
        let drawn = self.draws.next();
        match party.last_acked() {
            Some(number) if drawn % 4 == 0 => Some(Event::AskDownload {
                client,
                number: number.get(),
            }),
            _ => Some(Event::AskUpload {
                client,
                octets: (drawn % 40_001).min(40_000) as u16,
            }),
        }
    }

    /// The stations exchange frames until the client is done, or has had its exchanges.
    fn exchange_all<B: CutDisk>(
        &mut self,
        server: Server,
        disk: &mut B,
        disks: &mut [B],
        client: u64,
    ) -> Result<Server, Stopped>
        requires { IsReadyBench B.Disk (bench_of self.old.stations server disk.old disks.old) }
        ensures { IfOk result (λ later. Drives B.Disk (cuts_by B.restarts B.arming B.plain B.is_starved)
            (TurnExchanges client) (driven_by self.old server disk.old disks.old)
            (driven_by self.new later disk.new disks.new)) }
    {
        let mut server = server;
        let mut looked = Looked::none(&self.stations, client);
        for _ in 0..MOST_EXCHANGES {
            if is_closed(&self.stations, disks, client) {
                return Ok(server);
            }
            looked = looked.at(&self.stations, client);
            server = self.exchange(server, disk, disks, client, &mut looked)?;
        }
        Ok(server)
    }

    /// The transmissions of the client that weren't looked at are on the air, and then those of the server. Where
    /// neither has one, both stations count a tick.
    fn exchange<B: CutDisk>(
        &mut self,
        server: Server,
        disk: &mut B,
        disks: &mut [B],
        client: u64,
        looked: &mut Looked,
    ) -> Result<Server, Stopped>
        requires { IsReadyBench B.Disk (bench_of self.old.stations server disk.old disks.old) }
        ensures { IfOk result (λ later. Drives B.Disk (cuts_by B.restarts B.arming B.plain B.is_starved)
            (Exchange client looked.old looked.new) (driven_by self.old server disk.old disks.old)
            (driven_by self.new later disk.new disks.new)) }
    {
        let before = *looked;
        looked.to_server = count_to_server(&self.stations, client);
        let server = self.carry(
            server,
            disk,
            disks,
            client,
            Way::ToServer,
            before.to_server,
            looked.to_server,
        )?;
        looked.to_client = count_to_client(&self.stations, client);
        if !looked.is_beyond(before) {
            return self.tick(server, disk, disks, client);
        }
        self.carry(
            server,
            disk,
            disks,
            client,
            Way::ToClient,
            before.to_client,
            looked.to_client,
        )
    }

    /// Both stations count a tick.
    fn tick<B: CutDisk>(
        &mut self,
        server: Server,
        disk: &mut B,
        disks: &mut [B],
        client: u64,
    ) -> Result<Server, Stopped>
        requires { IsReadyBench B.Disk (bench_of self.old.stations server disk.old disks.old) }
        ensures { IfOk result (λ later. Drives B.Disk (cuts_by B.restarts B.arming B.plain B.is_starved)
            (Answers client [] []) (driven_by self.old server disk.old disks.old)
            (driven_by self.new later disk.new disks.new)) }
    {
        let server = self.play(server, disk, disks, Some(Event::TickClient { client }))?;
        self.play(server, disk, disks, Some(Event::TickServer))
    }

    /// The transmissions from the first of these places up to the other one are on the air.
    fn carry<B: CutDisk>(
        &mut self,
        server: Server,
        disk: &mut B,
        disks: &mut [B],
        client: u64,
        way: Way,
        from: usize,
        to: usize,
    ) -> Result<Server, Stopped>
        requires { IsReadyBench B.Disk (bench_of self.old.stations server disk.old disks.old) }
        ensures { IfOk result (λ later. Drives B.Disk (cuts_by B.restarts B.arming B.plain B.is_starved)
            (Carries (delivery_of way client) None (between from to)) (driven_by self.old server disk.old disks.old)
            (driven_by self.new later disk.new disks.new)) }
    {
        let mut server = server;
        let mut late = None;
        for place in from..to {
            let drawn = self.draws.next();
            let fate = Fate::by(drawn, place + 1 == to);
            server = self.repeat(server, disk, disks, client, way, place, fate.times())?;
            server = self.play(server, disk, disks, late)?;
            late = fate.put_off(way.delivery(client, place));
        }
        Ok(server)
    }

    /// The transmission at this place is delivered so many times.
    fn repeat<B: CutDisk>(
        &mut self,
        server: Server,
        disk: &mut B,
        disks: &mut [B],
        client: u64,
        way: Way,
        place: usize,
        times: u32,
    ) -> Result<Server, Stopped>
        requires ready { IsReadyBench B.Disk (bench_of self.old.stations server disk.old disks.old) }
        requires place { place < 2 ^ 64 - 1 }
        ensures { IfOk result (λ later. Drives B.Disk (cuts_by B.restarts B.arming B.plain B.is_starved)
            (TriesTimes times (delivery_of way client (place + 1))) (driven_by self.old server disk.old disks.old)
            (driven_by self.new later disk.new disks.new)) }
    {
        let mut server = server;
        for _ in 0..times {
            let delivery = way.delivery(client, place);
            server = self.play(server, disk, disks, Some(delivery))?;
        }
        Ok(server)
    }

    /// What is drawn for the end of the client's turn, if anything is: it is broken off, or the next event of it or of
    /// the server is to be cut.
    fn ending(&mut self, client: u64) -> Option<Event>
        ensures same { self.new.stations ≡ self.old.stations }
        ensures fits { IsFitEvent self.new.stations result }
        ensures ending { IsDraw (ending self.old.draws.state client) result self.old.draws.state self.new.draws.state }
    {
        match self.draws.next() % 8 {
            0 => Some(Event::BreakClient { client }),
            1 => {
                let call = self.draws.next() % 9 + 1;
                let choice = self.draws.next();
                Some(Event::CutClient {
                    client,
                    call,
                    choice,
                })
            }
            2 => {
                let call = self.draws.next() % 9 + 1;
                let choice = self.draws.next();
                Some(Event::CutServer { call, choice })
            }
            _ => None,
        }
    }
}

/// How many attempts the client of this number made.
fn attempts_of(stations: &Stations, client: u64) -> u64
    ensures { (world : World) → PlaysStations stations.now world → result ≡ attempts_in world client }
{
    match stations.party(client) {
        Some(party) => party.attempt.number,
        None => 0,
    }
}

/// How many frames it sent in the newest one.
fn count_to_server(stations: &Stations, client: u64) -> usize
    ensures { (world : World) → PlaysStations stations.now world → result ≡ sent_of (λ a. a.by_client) world client }
{
    match stations.party(client) {
        Some(party) => party.attempt.from_client.count(),
        None => 0,
    }
}

/// How many frames the server sent it there.
fn count_to_client(stations: &Stations, client: u64) -> usize
    ensures { (world : World) → PlaysStations stations.now world → result ≡ sent_of (λ a. a.by_server) world client }
{
    match stations.party(client) {
        Some(party) => party.attempt.from_server.count(),
        None => 0,
    }
}

/// Whether nothing is under way on its link.
fn is_closed<B: CutDisk>(stations: &Stations, _disks: &[B], client: u64) -> bool
    requires { AreReady B.Disk stations.now.parties.items _disks.now }
    ensures { (world : World) → PlaysStations stations.now world →
        length stations.now.parties.items ≤ length _disks.now → IsTrue result ↔ IsClosed world client }
{
    match stations.party(client) {
        Some(party) => party.client.closed(),
        None => true,
    }
}
