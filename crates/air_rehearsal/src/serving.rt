//! The events of the server.

ghost use Rattle.std.specs.Prelude.{◌≡◌, suc, [], ◌∷◌, slice_get, false, true, is_ok, IfOk, OnOk};
ghost use Rattle.ax25_frames.specs.FrameText.{FrameText, FrameValue};
ghost use Rattle.ax25_link.specs.Window.{IsGoodK};
ghost use Rattle.disk_model.specs.Cuts.{cuts_by};
ghost use Rattle.file_store.specs.State.{IsKnown};
ghost use Rattle.file_store.specs.Store.{Store};
ghost use Rattle.ftl0_server.specs.Calls.{SameStore};
ghost use Rattle.ftl0_server.specs.Server.{Server as ServerValue};
ghost use Rattle.ftl0_server.specs.ServerState.{IsServer, server_pending};
ghost use Rattle.air_world.specs.Lawful.{IsAllowed};
ghost use Rattle.air_world.specs.Schedule.{to_server};
ghost use Rattle.air_world.specs.Sound.{Sound};
ghost use Rattle.air_world.specs.World.{World, next_moment};
ghost use Rattle.air_rehearsal.specs.Ready.{IsReadyServer, IsUp, KeepsAllButLanes, KeepsClients};
ghost use Rattle.air_rehearsal.specs.ServerCalls.{AnswersEvent, AreTimed, ArmsFor, IsCutSo, IsTaken, IsTimed};
ghost use Rattle.air_rehearsal.specs.ServerCalls.{RepliesAt, SendsByTimer, SendsReplies, event_of};
ghost use Rattle.air_rehearsal.specs.ServerEvents.{AwaitsServer, CountsOn, ServesEvent, serving};
ghost use Rattle.air_rehearsal.specs.Worlds.{PlaysWorld};
ghost use Rattle.air_rehearsal.specs.declared.party.Party.{Party as PartyState};

use crate::attempt::Attempt;
use crate::cuts::Cut;
use crate::party::{Party, frame_for};
use crate::stations::Stations;
use crate::stopped::{Breach, Stopped};
use air_world::laws::sound_law;
use arrayvec::ArrayVec;
use ax25_frames::read_frame;
use disk_model::{CutDisk, Disk, DiskFault};
use file_store::laws::armed_law;
use ftl0_server::Server;
use ftl0_server::step_laws::{front_of_event_law, misses_law, step_law};
use px_base::Call;

/// What comes to the server.
#[derive(Clone, Copy, Debug)]
pub(crate) enum ServerEvent {
    /// It hears a transmission, which may be delivered.
    Hear {
        /// The place of the client.
        c: usize,
        /// The place of the transmission among those of the client's newest attempt.
        place: usize,
    },
    /// It counts a tick.
    Tick,
}

impl Stations {
    /// An event of the server, at this moment. A cut that waits comes in it. Takes memory.
    pub(crate) fn serve_event<B: CutDisk>(
        &mut self,
        server: Server,
        disk: &mut B,
        event: ServerEvent,
    ) -> Result<Server, Stopped>
        requires { IsReadyServer B.Disk self.old server disk.old }
        ensures server { IfOk result (λ server. IsReadyServer B.Disk self.new server disk.new) }
        ensures keeps { KeepsClients self.old self.new }
        ensures faults { CountsOn B.Disk disk.old disk.new }

        // What becomes of the server of whichever world it is, of its disk and of what was sent.
        ensures serves { IfOk result (λ later. (world : World)
            → AwaitsServer B.Disk (cuts_by B.restarts B.arming B.plain B.is_starved) world
            (serving self.old server disk.old) → IsAllowed world (event_of event)
            → ServesEvent B.Disk (cuts_by B.restarts B.arming B.plain B.is_starved) world
            (event_of event) (serving self.old server disk.old) (serving self.new later disk.new)) }
    {
        misses_law();
        front_of_event_law();
        step_law();
        sound_law();
        let mut server = server;
        let cut = self.arm(&server, disk);
        let came = self.take_event(&mut server, disk, event);
        self.cut = None;
        match cut {
            Some(cut) => self.be_cut(server, disk, cut),
            None => match self.answer(&mut server, disk, event, came) {
                Ok(()) => Ok(server),
                Err(stopped) => {
                    server.close();
                    Err(stopped)
                }
            },
        }
    }

    /// The event comes to the server; nothing is sent yet. Takes no memory.
    fn take_event<D: Disk>(
        &mut self,
        server: &mut Server,
        disk: &mut D,
        event: ServerEvent,
    ) -> Result<(), DiskFault>
        requires { IsReadyServer D.Disk self.old server.old disk.old }
        ensures up { OnOk result (IsUp D.Disk self.new server.new disk.new) }
        ensures keeps { KeepsClients self.old self.new }
        ensures cut { self.new.cut ≡ self.old.cut }
        ensures faults { CountsOn D.Disk disk.old disk.new }
        ensures takes { (world : World) → Sound world → PlaysWorld D.Disk self.old server.old disk.old world
            → IsKnown D.Disk disk.old → self.old.moment ≡ next_moment world
            → IsAllowed world (event_of event)
            → IsTaken D.Disk world (event_of event) (serving self.old server.old disk.old)
            (serving self.new server.new disk.new) result }
    {
        let moment = self.moment;
        match event {
            ServerEvent::Hear { c, place } => self.hear(server, disk, c, place),
            ServerEvent::Tick => server.tick(disk, moment),
        }
    }

    /// The event came to the server so, and isn't cut: the server sends all that it has to send. Takes memory.
    fn answer<B: CutDisk>(
        &mut self,
        server: &mut Server,
        disk: &mut B,
        event: ServerEvent,
        came: Result<(), DiskFault>,
    ) -> Result<(), Stopped>
        requires { OnOk came (IsUp B.Disk self.old server.old disk.old) }
        ensures ready { OnOk result (IsReadyServer B.Disk self.new server.new disk.new) }
        ensures keeps { KeepsClients self.old self.new }
        ensures cut { self.new.cut ≡ self.old.cut }
        ensures same { SameStore server.old server.new }
        ensures disk { disk.new ≡ disk.old }
        ensures memory { OnOk result (B.is_starved disk.old ≡ false) }
        ensures came { OnOk result (is_ok came ≡ true) }
        ensures answers { OnOk result ((store : Store) (it : ServerValue) → IsServer store server.old it
            → AnswersEvent event store it server.new self.old.parties.items self.new.parties.items) }
    {
        if disk.starved() {
            return Err(Stopped::OutOfMemory);
        }
        let Ok(()) = came else {
            return Err(Stopped::Broken(Breach::ServerDisk));
        };
        match event {
            ServerEvent::Hear { c, .. } => self.reply(server, disk, c),
            ServerEvent::Tick => self.say(server, disk),
        }
    }

    /// The cut that comes in the server's event, if one waits: the disk is armed for it.
    fn arm<B: CutDisk>(&self, _server: &Server, disk: &mut B) -> Option<Cut>
        requires { IsReadyServer B.Disk self.now _server.now disk.old }
        ensures ready { IsReadyServer B.Disk self.now _server.now disk.new }
        ensures cut { result ≡ self.now.cut }
        ensures arms { ArmsFor B.Disk (cuts_by B.restarts B.arming B.plain B.is_starved) self.now.cut
            disk.old disk.new }
    {
        armed_law::<B>();
        if let Some(cut) = self.cut {
            cut.arm(disk);
        }
        self.cut
    }

    /// The server hears the transmission at this place of a client, which is delivered so. Takes no memory.
    fn hear<D: Disk>(
        &mut self,
        server: &mut Server,
        disk: &mut D,
        c: usize,
        place: usize,
    ) -> Result<(), DiskFault>
        requires { IsReadyServer D.Disk self.old server.old disk.old }
        ensures up { OnOk result (IsUp D.Disk self.new server.new disk.new) }
        ensures keeps { KeepsClients self.old self.new }
        ensures cut { self.new.cut ≡ self.old.cut }
        ensures faults { CountsOn D.Disk disk.old disk.new }
        ensures takes { (world : World) → Sound world → PlaysWorld D.Disk self.old server.old disk.old world
            → IsKnown D.Disk disk.old → self.old.moment ≡ next_moment world
            → IsAllowed world (to_server (suc c) (suc place))
            → IsTaken D.Disk world (to_server (suc c) (suc place)) (serving self.old server.old disk.old)
            (serving self.new server.new disk.new) result }
    {
        let (me, moment) = (self.me, self.moment);
        if c >= self.parties.len() {
            return Ok(());
        }
        self.parties[c].attempt.from_client.deliver(place);
        let Some(octets) = self.parties[c].attempt.from_client.octets(place) else {
            return Ok(());
        };
        match frame_for(me, octets) {
            Some(frame) => server.hear(disk, &frame, moment),
            None => Ok(()),
        }
    }

    /// The server's event is cut: nothing is sent, power is lost, and the server starts again from its disk. Takes
    /// memory.
    fn be_cut<B: CutDisk>(&self, server: Server, disk: &mut B, cut: Cut) -> Result<Server, Stopped>
        requires window { IsGoodK self.now.k }
        ensures server { IfOk result (λ server. IsReadyServer B.Disk self.now server disk.new) }
        ensures cuts { IfOk result (IsCutSo B.Disk (cuts_by B.restarts B.arming B.plain B.is_starved) self.now
            disk.old disk.new) }
        ensures faults { CountsOn B.Disk disk.old disk.new }
    {
        server.close();
        cut.strike(disk)?;
        let server = self.restart_server(disk)?;
        if disk.starved() {
            server.close();
            return Err(Stopped::OutOfMemory);
        }
        Ok(server)
    }

    /// The server has heard a frame of the client at this place, and sends all that it has to send, which is for that
    /// client. Takes memory.
    fn reply<D: Disk>(
        &mut self,
        server: &mut Server,
        _disk: &mut D,
        c: usize,
    ) -> Result<(), Stopped>
        requires { IsUp D.Disk self.old server.old _disk.old }
        ensures ready { OnOk result (IsReadyServer D.Disk self.new server.new _disk.new) }
        ensures keeps { KeepsClients self.old self.new }
        ensures cut { self.new.cut ≡ self.old.cut }
        ensures same { SameStore server.old server.new }
        ensures disk { _disk.new ≡ _disk.old }
        ensures replies { OnOk result ((store : Store) (it : ServerValue) (party : PartyState)
            → IsServer store server.old it → slice_get self.old.parties.items c ≡ Some party
            → RepliesAt store c it server.new party self.old.parties.items self.new.parties.items) }
    {
        match self.parties.get_mut(c) {
            Some(party) => reply_all(server, &mut party.attempt),
            None => Err(Stopped::Broken(Breach::NoClient)),
        }
    }

    /// The server has counted a tick, and sends all that it has to send, each frame to the client that it is for.
    /// Takes memory.
    fn say<D: Disk>(&mut self, server: &mut Server, _disk: &mut D) -> Result<(), Stopped>
        requires { IsUp D.Disk self.old server.old _disk.old }
        ensures ready { OnOk result (IsReadyServer D.Disk self.new server.new _disk.new) }
        ensures keeps { KeepsClients self.old self.new }
        ensures cut { self.new.cut ≡ self.old.cut }
        ensures same { SameStore server.old server.new }
        ensures disk { _disk.new ≡ _disk.old }
        ensures says { OnOk result ((store : Store) (it : ServerValue) → IsServer store server.old it
            → SendsByTimer store it server.new self.old.parties.items self.new.parties.items) }
    {
        let mut out = ArrayVec::new();
        while server.next_out(&mut out) {
            self.send(out.as_slice())?;
        }
        Ok(())
    }

    /// The server sends a frame with these octets to one of the clients, by its timer. Takes memory.
    fn send(&mut self, octets: &[u8]) -> Result<(), Stopped>
        ensures keeps { KeepsClients self.old self.new }
        ensures cut { self.new.cut ≡ self.old.cut }
        ensures timed { OnOk result ((frame : FrameValue) → FrameText frame octets.now
            → AreTimed (frame ∷ []) self.old.parties.items self.new.parties.items) }
    {
        let Ok(frame) = read_frame(octets) else {
            return Ok(());
        };
        let dest = frame.dest;
        for i in 0..self.parties.len() {
            send_to(&mut self.parties[i], dest, octets)?;
        }
        Ok(())
    }
}

/// The client is sent a frame with these octets by the server's timer, if it is the one with this call. Takes memory.
fn send_to(party: &mut Party, dest: Call, octets: &[u8]) -> Result<(), Stopped>
    ensures keeps { KeepsAllButLanes party.old party.new }
    ensures timed { OnOk result ((frame : FrameValue) → FrameText frame octets.now → frame.dest ≡ dest
        → IsTimed (frame ∷ []) party.old party.new) }
{
    if dest == party.me {
        party.attempt.time(octets)?;
    }
    Ok(())
}

/// The server sends all that it has to send, as replies in this attempt. Takes memory.
fn reply_all(server: &mut Server, attempt: &mut Attempt) -> Result<(), Stopped>
    ensures silent { OnOk result (server_pending server.new ≡ false) }
    ensures same { SameStore server.old server.new }
    ensures replies { OnOk result ((store : Store) (it : ServerValue) → IsServer store server.old it
        → SendsReplies store it server.new attempt.old attempt.new) }
{
    let mut out = ArrayVec::new();
    while server.next_out(&mut out) {
        attempt.reply(out.as_slice())?;
    }
    Ok(())
}
