//! One event is played.

ghost use Rattle.std.specs.Prelude.{◌≡◌, IfOk, IsErr, OnOk, suc};
ghost use Rattle.ax25_link.specs.Window.{IsGoodK};
ghost use Rattle.disk_model.specs.Cuts.{cuts_by};
ghost use Rattle.air_schedule.specs.Events.{event_value};
ghost use Rattle.air_world.specs.Events.{ClientPart};
ghost use Rattle.air_world.specs.Lawful.{IsAllowed};
ghost use Rattle.air_world.specs.Schedule.{ask_resume, ask_upload, break_client, cut_client};
ghost use Rattle.air_world.specs.World.{World, next_moment};
ghost use Rattle.air_rehearsal.specs.Playing.{GoesOn, IsBench, IsPlaying, PlaysEvent, bench_of};
ghost use Rattle.air_rehearsal.specs.Ready.{AreReady, IsReadyServer};
ghost use Rattle.air_rehearsal.specs.ServerEvents.{CanCount, CountsOn};
ghost use Rattle.air_rehearsal.specs.Seats.{ComesAlways, CountsCut, CountsEvent, GoesApart, MayTake, TookPart};
ghost use Rattle.air_rehearsal.specs.Seats.{clients_of};

use crate::asking::{Upload, file_of};
use crate::cuts::Cut;
use crate::part::Part;
use crate::serving::ServerEvent;
use crate::stations::{Stations, place_of};
use crate::stopped::{Breach, Stopped};
use air_schedule::Event;
use air_world::laws::sound_law;
use client_notes::laws::images_law;
use disk_model::CutDisk;
use ftl0_server::Server;
use px_base::{FileBytes, FileNumber, Moment};

impl Stations {
    /// Plays an event that may come, over the server's disk and the clients'. Where it fails the server is closed.
    /// Takes memory.
    pub(crate) fn play<B: CutDisk>(
        &mut self,
        server: Server,
        disk: &mut B,
        disks: &mut [B],
        event: &Event,
    ) -> Result<Server, Stopped>
        requires server { IsReadyServer B.Disk self.old server disk.old }
        requires clients { AreReady B.Disk self.old.parties.items disks.old }
        ensures server { IfOk result (λ server. IsReadyServer B.Disk self.new server disk.new) }
        ensures clients { OnOk result (AreReady B.Disk self.new.parties.items disks.new) }
        ensures faults { CountsOn B.Disk disk.old disk.new }

        // What becomes of whichever world is played.
        ensures plays { IfOk result (λ later. (world : World)
            → IsPlaying B.Disk (cuts_by B.restarts B.arming B.plain B.is_starved) world
            (bench_of self.old server disk.old disks.old) → CanCount B.Disk disk.old
            → IsAllowed world (event_value event.now)
            → PlaysEvent B.Disk (cuts_by B.restarts B.arming B.plain B.is_starved) world (event_value event.now)
            (bench_of self.old server disk.old disks.old) (bench_of self.new later disk.new disks.new)) }
    {
        self.count_event();
        self.go(server, disk, disks, event)
    }

    /// An event comes.
    fn count_event(&mut self)
        ensures { CountsEvent self.old self.new }
    {
        self.report.count_event();
        self.moment = Moment::new(self.moment.get().wrapping_add(1));
    }

    /// Plays an event that was counted. Takes memory.
    fn go<B: CutDisk>(
        &mut self,
        server: Server,
        disk: &mut B,
        disks: &mut [B],
        event: &Event,
    ) -> Result<Server, Stopped>
        requires server { IsReadyServer B.Disk self.old server disk.old }
        requires clients { AreReady B.Disk self.old.parties.items disks.old }
        ensures server { IfOk result (λ server. IsReadyServer B.Disk self.new server disk.new) }
        ensures clients { OnOk result (AreReady B.Disk self.new.parties.items disks.new) }
        ensures faults { CountsOn B.Disk disk.old disk.new }
        ensures goes { IfOk result (λ later. (world : World)
            → IsBench B.Disk (cuts_by B.restarts B.arming B.plain B.is_starved) world
            (bench_of self.old server disk.old disks.old) → CanCount B.Disk disk.old
            → self.old.moment ≡ next_moment world → IsAllowed world (event_value event.now)
            → GoesOn B.Disk (cuts_by B.restarts B.arming B.plain B.is_starved) world (event_value event.now)
            (bench_of self.old server disk.old disks.old) (bench_of self.new later disk.new disks.new)) }
    {
        sound_law();
        match event {
            Event::ToServer {
                client,
                transmission,
            } => match (place_of(*client), place_of(*transmission)) {
                (Some(c), Some(place)) => {
                    self.count_cut();
                    self.serve_event(server, disk, ServerEvent::Hear { c, place })
                }
                _ => refuse(server, Stopped::Broken(Breach::NoClient)),
            },
            Event::TickServer => {
                self.count_cut();
                self.serve_event(server, disk, ServerEvent::Tick)
            }
            _ => match self.go_apart(disks, event) {
                Ok(()) => Ok(server),
                Err(stopped) => refuse(server, stopped),
            },
        }
    }

    /// Counts a cut of the server's power, where one waits.
    fn count_cut(&mut self)
        ensures { CountsCut self.old self.new }
    {
        self.report.count_cut(self.cut.is_some());
    }

    /// Plays an event in which the server takes no part. Takes memory.
    fn go_apart<B: CutDisk>(&mut self, disks: &mut [B], event: &Event) -> Result<(), Stopped>
        requires window { IsGoodK self.old.k }
        requires clients { AreReady B.Disk self.old.parties.items disks.old }
        ensures clients { OnOk result (AreReady B.Disk self.new.parties.items disks.new) }
        ensures me { self.new.me ≡ self.old.me }
        ensures k { self.new.k ≡ self.old.k }
        ensures goes { OnOk result (GoesApart B.Disk (cuts_by B.restarts B.arming B.plain B.is_starved)
            (event_value event.now) (clients_of self.old disks.old) (clients_of self.new disks.new)) }
    {
        sound_law();
        match event {
            Event::BreakClient { client } => self.break_client(disks, *client),
            Event::CutServer { call, choice } => {
                self.cut = Some(Cut {
                    call: *call,
                    choice: *choice,
                });
                Ok(())
            }
            Event::CutClient {
                client,
                call,
                choice,
            } => {
                let cut = Cut {
                    call: *call,
                    choice: *choice,
                };
                self.note_cut(disks, *client, cut)
            }
            _ => self.go_at_client(disks, event),
        }
    }

    /// A client's next event is to be cut so, in place of an earlier cut.
    fn note_cut<B: CutDisk>(
        &mut self,
        _disks: &mut [B],
        client: u64,
        cut: Cut,
    ) -> Result<(), Stopped>
        requires { AreReady B.Disk self.old.parties.items _disks.old }
        ensures clients { AreReady B.Disk self.new.parties.items _disks.new }
        ensures me { self.new.me ≡ self.old.me }
        ensures k { self.new.k ≡ self.old.k }
        ensures goes { OnOk result (GoesApart B.Disk (cuts_by B.restarts B.arming B.plain B.is_starved)
            (cut_client client cut.call cut.choice) (clients_of self.old _disks.old)
            (clients_of self.new _disks.new)) }
    {
        sound_law();
        let Some(c) = place_of(client) else {
            return Err(Stopped::Broken(Breach::NoClient));
        };
        if c >= self.parties.len() {
            return Err(Stopped::Broken(Breach::NoClient));
        }
        self.parties[c].cut = Some(cut);
        Ok(())
    }

    /// A client starts again from its notes. Takes memory.
    fn break_client<B: CutDisk>(&mut self, disks: &mut [B], client: u64) -> Result<(), Stopped>
        requires { AreReady B.Disk self.old.parties.items disks.old }
        ensures clients { OnOk result (AreReady B.Disk self.new.parties.items disks.new) }
        ensures me { self.new.me ≡ self.old.me }
        ensures k { self.new.k ≡ self.old.k }
        ensures goes { OnOk result (GoesApart B.Disk (cuts_by B.restarts B.arming B.plain B.is_starved)
            (break_client client) (clients_of self.old disks.old) (clients_of self.new disks.new)) }
    {
        sound_law();
        let alloc = self.alloc;
        let Some(c) = place_of(client) else {
            return Err(Stopped::Broken(Breach::NoClient));
        };
        if c >= self.parties.len() || c >= disks.len() {
            return Err(Stopped::Broken(Breach::NoClient));
        }
        let party = &mut self.parties[c];
        party.break_off(alloc, &mut disks[c])?;
        images_law(party.client.notes(), &disks[c]);
        Ok(())
    }

    /// Plays an event in which a client takes part. Takes memory.
    fn go_at_client<B: CutDisk>(&mut self, disks: &mut [B], event: &Event) -> Result<(), Stopped>
        requires { AreReady B.Disk self.old.parties.items disks.old }
        ensures clients { OnOk result (AreReady B.Disk self.new.parties.items disks.new) }
        ensures me { self.new.me ≡ self.old.me }
        ensures k { self.new.k ≡ self.old.k }
        ensures goes { OnOk result (GoesApart B.Disk (cuts_by B.restarts B.arming B.plain B.is_starved)
            (event_value event.now) (clients_of self.old disks.old) (clients_of self.new disks.new)) }
    {
        sound_law();
        match event {
            Event::AskUpload { client, octets } => self.ask_upload(disks, *client, *octets),
            _ => {
                let (c, part) = self.part_of(event)?;
                self.take_part(disks, c, part)
            }
        }
    }

    /// A client is asked for a new upload, with a body of so many octets. Takes memory.
    fn ask_upload<B: CutDisk>(
        &mut self,
        disks: &mut [B],
        client: u64,
        octets: u16,
    ) -> Result<(), Stopped>
        requires { AreReady B.Disk self.old.parties.items disks.old }
        ensures clients { OnOk result (AreReady B.Disk self.new.parties.items disks.new) }
        ensures me { self.new.me ≡ self.old.me }
        ensures k { self.new.k ≡ self.old.k }
        ensures goes { OnOk result (GoesApart B.Disk (cuts_by B.restarts B.arming B.plain B.is_starved)
            (ask_upload client octets) (clients_of self.old disks.old) (clients_of self.new disks.new)) }
    {
        sound_law();
        let (Some(client), Ok(upload)) = (place_of(client), u32::try_from(self.uploads.len()))
        else {
            return Err(Stopped::Broken(Breach::NoClient));
        };
        let file = file_of(self.alloc, upload, octets)?;
        self.take_part(disks, client, Part::Upload { upload, file })?;
        self.uploads.push(Upload { client, octets })?;
        Ok(())
    }

    /// The client at this place takes part in an event. Takes memory.
    fn take_part<B: CutDisk>(
        &mut self,
        disks: &mut [B],
        c: usize,
        part: Part,
    ) -> Result<(), Stopped>
        requires { AreReady B.Disk self.old.parties.items disks.old }
        ensures clients { OnOk result (AreReady B.Disk self.new.parties.items disks.new) }
        ensures me { self.new.me ≡ self.old.me }
        ensures k { self.new.k ≡ self.old.k }
        ensures took { OnOk result ((whole : ClientPart) →
            (may : MayTake B.Disk (cuts_by B.restarts B.arming B.plain B.is_starved) c
            (clients_of self.old disks.old) part whole)
            → TookPart B.Disk (cuts_by B.restarts B.arming B.plain B.is_starved) c part whole
            (clients_of self.old disks.old) (clients_of self.new disks.new) may) }
    {
        let alloc = self.alloc;
        if c >= self.parties.len() || c >= disks.len() {
            return Err(Stopped::Broken(Breach::NoClient));
        }
        let party = &mut self.parties[c];
        if !party.may_do(&part) {
            return Err(Stopped::Broken(Breach::NotAllowed));
        }
        self.report.count_asked(part.asks());
        self.report.count_cut(party.cut.is_some());
        let was_free = party.is_free();
        party.take_part(alloc, &mut disks[c], part)?;
        images_law(party.client.notes(), &disks[c]);
        if !was_free {
            self.report.count_outcome(party.outcome());
        }
        Ok(())
    }

    /// Which client takes part in an event, and how; no new upload is asked. Takes memory.
    fn part_of(&self, event: &Event) -> Result<(usize, Part), Stopped>
        ensures { IfOk result (λ it. ComesAlways self.now (event_value event.now) it.0 it.1) }
    {
        match event {
            Event::AskResume { client } => self.old_upload(*client),
            Event::AskList { client, tokens } => {
                let tokens = FileBytes::copy_of(self.alloc, tokens.as_slice())?;
                part_at(*client, Part::List { tokens })
            }
            Event::AskDownload { client, number } => {
                part_at(
                    *client,
                    Part::Download {
                        number: FileNumber::new(*number),
                    },
                )
            }
            Event::ToClient {
                client,
                transmission,
            } => match place_of(*transmission) {
                Some(place) => part_at(*client, Part::Hear { place }),
                None => Err(Stopped::Broken(Breach::NoClient)),
            },
            Event::TickClient { client } => part_at(*client, Part::Tick),
            _ => Err(Stopped::Broken(Breach::NotAllowed)),
        }
    }

    /// A client is asked for its last unfinished upload again. Takes memory.
    fn old_upload(&self, client: u64) -> Result<(usize, Part), Stopped>
        ensures { IfOk result (λ it. ComesAlways self.now (ask_resume client) it.0 it.1) }
    {
        let Some(party) = self.party(client) else {
            return Err(Stopped::Broken(Breach::NoClient));
        };
        let Some(going) = party.last_going() else {
            return Err(Stopped::Broken(Breach::NoTask));
        };
        let (task, number) = going;
        match self.file_at(party, task)? {
            Some(file) => part_at(client, Part::Resume { task, number, file }),
            None => Err(Stopped::Broken(Breach::NoTask)),
        }
    }
}

/// The client of this number takes this part.
fn part_at(client: u64, part: Part) -> Result<(usize, Part), Stopped>
    ensures { IfOk result (λ it. (client ≡ suc it.0) × (it.1 ≡ part)) }
{
    match place_of(client) {
        Some(c) => Ok((c, part)),
        None => Err(Stopped::Broken(Breach::NoClient)),
    }
}

/// The server is closed, and the event stopped so.
fn refuse(server: Server, stopped: Stopped) -> Result<Server, Stopped>
    ensures { IsErr result }
{
    server.close();
    Err(stopped)
}
