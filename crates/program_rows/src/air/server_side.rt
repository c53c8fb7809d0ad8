//! The server of a row, with the disk of its store.

ghost use Rattle.std.specs.Prelude.{IfOk, OnOk};
ghost use Rattle.ax25_link.specs.Window.{IsGoodK};
ghost use Rattle.program_rows.specs.Ready.{IsReadyServer, IsUp};

use crate::air::frames::{SERVER, frame_for};
use crate::air::lanes::Lane;
use anyhow::{Result, bail, ensure};
use arrayvec::ArrayVec;
use disk_model::Disk;
use file_store::Limits;
use ftl0_server::Server;
use px_base::{Call, Moment};
use std::alloc::Global;

/// What the store may take.
pub const LIMITS: Limits = Limits { blocks: 1_024 };

/// The server of a row. It must be closed.
pub struct ServerSide<D> {
    me: Call,
    server: Server,
    disk: D,
    /// The moment, which goes up by one each tick.
    moment: Moment,
}

impl<D: Disk + Drop> ServerSide<D> {
    /// A server over the store of this disk.
    pub fn open(alloc: Global, disk: D, k: u8) -> Result<ServerSide<D>>
        requires { IsGoodK k }
        ensures { IfOk result (IsReadyServer D.Disk) }
    {
        let me = Call::read(SERVER)?;
        let mut disk = disk;
        let server = Server::start(alloc, &mut disk, LIMITS, me, k)?;
        Ok(ServerSide {
            me,
            server,
            disk,
            moment: Moment::new(1),
        })
    }

    /// The server is closed, and this is its disk.
    pub fn close(self) -> D {
        let ServerSide {
            me: _,
            server,
            disk,
            moment: _,
        } = self;
        server.close();
        disk
    }

    /// Hears frames one after another, and puts what it says on the air.
    pub fn hear_all(&mut self, frames: &[Vec<u8>], said: &mut Lane) -> Result<()>
        requires { IsReadyServer D.Disk self.old }
        ensures { OnOk result (IsReadyServer D.Disk self.new) }
    {
        for octets in frames {
            self.hear(octets.as_slice(), said)?;
        }
        Ok(())
    }

    /// Hears a frame, and puts what it says on the air.
    fn hear(&mut self, octets: &[u8], said: &mut Lane) -> Result<()>
        requires { IsReadyServer D.Disk self.old }
        ensures { OnOk result (IsReadyServer D.Disk self.new) }
    {
        let Some(frame) = frame_for(self.me, octets) else {
            bail!("no frame for the server");
        };
        self.server.hear(&mut self.disk, &frame, self.moment)?;
        self.say(said)
    }

    /// Counts a tick, and puts what it says on the air.
    pub fn tick(&mut self, said: &mut Lane) -> Result<()>
        requires { IsReadyServer D.Disk self.old }
        ensures { OnOk result (IsReadyServer D.Disk self.new) }
    {
        self.moment = Moment::new(self.moment.get().saturating_add(1));
        self.server.tick(&mut self.disk, self.moment)?;
        self.say(said)
    }

    /// Puts all frames that are pending on the air.
    fn say(&mut self, said: &mut Lane) -> Result<()>
        requires { IsUp D.Disk self.old }
        ensures { OnOk result (IsReadyServer D.Disk self.new) }
    {
        let mut out = ArrayVec::new();
        while self.server.next_out(&mut out) {
            said.put(out.as_slice())?;
        }
        ensure!(!self.server.pending(), "frames are left");
        Ok(())
    }
}
