//! The exchanges of a row.

ghost use Rattle.std.specs.Prelude.{OnOk};
ghost use Rattle.program_rows.specs.Ready.{AreReady};

use crate::air::client_side::ClientSide;
use crate::air::lanes::Air;
use crate::air::server_side::ServerSide;
use anyhow::{Result, bail, ensure};
use client_notes::Begun;
use disk_model::Disk;
use ftl0_client::Outcome;
use px_base::FileNumber;
use std::alloc::Global;

/// How many exchanges there are at most until the client is done.
const MOST_EXCHANGES: u32 = 20_000;

/// The two stations of a row, and the air between them. The server must be closed.
pub struct Stations<C, S> {
    pub client: ClientSide<C>,
    pub server: ServerSide<S>,
    pub air: Air,
}

/// What the client got.
#[derive(Drop)]
pub struct Got {
    /// The number of its file.
    pub number: FileNumber,
    /// The list of all files.
    pub listing: Vec<u8>,
    /// The file's octets.
    pub octets: Vec<u8>,
}

impl<C: Disk + Drop, S: Disk + Drop> Stations<C, S> {
    /// An upload of a file, which is broken off and carried on so many times, a list, and the file's download.
    pub fn run(&mut self, alloc: Global, file: &[u8], breaks: usize) -> Result<Got>
        requires { AreReady C.Disk S.Disk self.old }
    {
        self.break_all(alloc, file, breaks)?;
        let number = self.upload(alloc, file)?;
        let listing = self.list(alloc)?;
        let octets = self.download(alloc, number)?;
        Ok(Got {
            number,
            listing,
            octets,
        })
    }

    /// Begins the upload, or goes on with it, and breaks it off, so many times, each time once an equal share of the
    /// file's octets was heard. The task is fresh at first, and known from then on.
    fn break_all(&mut self, alloc: Global, file: &[u8], breaks: usize) -> Result<()>
        requires { AreReady C.Disk S.Disk self.old }
        ensures { OnOk result (AreReady C.Disk S.Disk self.new) }
    {
        let share = file.len() / breaks.saturating_add(1);
        for number in 0..breaks {
            let begun = self.client.upload(alloc, file, &mut self.air.up)?;
            let is_fresh = matches!(begun, Begun::Fresh { .. });
            ensure!(is_fresh == (number == 0), "the start found {begun:?}");
            self.carry(share)?;
            self.client.break_off(alloc)?;
        }
        Ok(())
    }

    /// Uploads the file, or goes on with it, and gives its number.
    fn upload(&mut self, alloc: Global, file: &[u8]) -> Result<FileNumber>
        requires { AreReady C.Disk S.Disk self.old }
        ensures { OnOk result (AreReady C.Disk S.Disk self.new) }
    {
        let begun = self.client.upload(alloc, file, &mut self.air.up)?;
        if let Begun::Already { number } = begun {
            return Ok(number);
        }
        let Some(outcome) = self.carry(usize::MAX)? else {
            bail!("the upload came to nothing");
        };
        match outcome {
            Outcome::Acked { number } => Ok(number),
            other => bail!("the upload came to {other:?}"),
        }
    }

    /// Gets the list of all files.
    fn list(&mut self, alloc: Global) -> Result<Vec<u8>>
        requires { AreReady C.Disk S.Disk self.old }
        ensures { OnOk result (AreReady C.Disk S.Disk self.new) }
    {
        self.client.list(alloc, &mut self.air.up)?;
        let outcome = self.carry(usize::MAX)?;
        ensure!(
            outcome == Some(Outcome::Listed),
            "the list came to {outcome:?}"
        );
        Ok(Vec::from_slice(alloc, self.client.client.listing())?)
    }

    /// Gets the file of this number.
    fn download(&mut self, alloc: Global, number: FileNumber) -> Result<Vec<u8>>
        requires { AreReady C.Disk S.Disk self.old }
        ensures { OnOk result (AreReady C.Disk S.Disk self.new) }
    {
        self.client.download(alloc, number, &mut self.air.up)?;
        let outcome = self.carry(usize::MAX)?;
        let wanted = Some(Outcome::Fetched { number });
        ensure!(outcome == wanted, "the download came to {outcome:?}");
        Ok(Vec::from_slice(alloc, self.client.got(number))?)
    }

    /// Carries frames until the client is done, or the server heard so many octets, and says what became of what was
    /// asked, if anything did. What is on the air then is lost.
    fn carry(&mut self, octets: usize) -> Result<Option<Outcome>>
        requires { AreReady C.Disk S.Disk self.old }
        ensures { OnOk result (AreReady C.Disk S.Disk self.new) }
    {
        for _ in 0..MOST_EXCHANGES {
            if self.client.client.closed() || self.air.up.octets >= octets {
                self.air.up.clear();
                self.air.down.clear();
                return Ok(self.client.client.outcome());
            }
            self.step()?;
        }
        bail!("no end within {MOST_EXCHANGES} exchanges")
    }

    /// The next frame of each station is on the air; where neither has one, both count a tick.
    fn step(&mut self) -> Result<()>
        requires { AreReady C.Disk S.Disk self.old }
        ensures { OnOk result (AreReady C.Disk S.Disk self.new) }
    {
        let air = &mut self.air;
        if air.up.is_empty() && air.down.is_empty() {
            air.ticks = air.ticks.saturating_add(1);
            self.client.tick(&mut air.up)?;
            return self.server.tick(&mut air.down);
        }
        let up = air.up.deliver()?;
        let down = air.down.deliver()?;
        self.server.hear_all(up.as_slice(), &mut air.down)?;
        self.client.hear_all(down.as_slice(), &mut air.up)
    }
}
