//! The client of a row, with the disk of its notes.

ghost use Rattle.std.specs.Prelude.{IfOk, OnOk};
ghost use Rattle.ax25_link.specs.Window.{IsGoodK};
ghost use Rattle.program_rows.specs.Ready.{IsReadyClient, IsTheirs};

use crate::air::frames::{SERVER, frame_for};
use crate::air::lanes::Lane;
use anyhow::{Result, bail, ensure};
use arrayvec::ArrayVec;
use client_notes::{Begun, LONGEST_FILE, Notes};
use disk_model::Disk;
use ftl0_client::{Client, Job};
use px_base::{Call, FileBytes, FileNumber};
use sha2::{Digest, Sha256};
use std::alloc::Global;

/// The name of the file's task.
const NAME: &str = "air.bin";

/// The selection of all files: `file_number` isn't 0 (PFH 1990, mandatory header).
const ALL_FILES: [u8; 8] = [0x11, 0x01, 0x00, 0x04, 0x00, 0x00, 0x00, 0x00];

/// The client of a row.
#[derive(Drop)]
pub struct ClientSide<D> {
    me: Call,
    server: Call,
    k: u8,
    pub client: Client,
    disk: D,
}

impl<D: Disk + Drop> ClientSide<D> {
    /// A client over the notes of this disk.
    pub fn open(alloc: Global, disk: D, k: u8) -> Result<ClientSide<D>>
        requires { IsGoodK k }
        ensures { IfOk result (IsReadyClient D.Disk) }
    {
        let (me, server) = (Call::read("NOCALL")?, Call::read(SERVER)?);
        let mut disk = disk;
        let notes = Notes::recover(alloc, &mut disk)?;
        let client = Client::start(notes, me, server, k);
        Ok(ClientSide {
            me,
            server,
            k,
            client,
            disk,
        })
    }

    /// The client is broken off, and recovered from its disk.
    pub fn break_off(&mut self, alloc: Global) -> Result<()>
        requires { IsReadyClient D.Disk self.old }
        ensures { OnOk result (IsReadyClient D.Disk self.new) }
    {
        let notes = Notes::recover(alloc, &mut self.disk)?;
        self.client = Client::start(notes, self.me, self.server, self.k);
        Ok(())
    }

    /// Starts the task of a file, or goes on with it, and says what the start found. The upload is asked for, but where
    /// the file was acknowledged before.
    pub fn upload(&mut self, alloc: Global, file: &[u8], said: &mut Lane) -> Result<Begun>
        requires { IsReadyClient D.Disk self.old }
        ensures { OnOk result (IsReadyClient D.Disk self.new) }
    {
        ensure!(!self.client.is_under_way(), "under way");
        ensure!(file.len() <= LONGEST_FILE as usize, "the file is too long");
        let digest = Sha256::digest(file);
        let begun = self
            .client
            .start_task(&mut self.disk, NAME, file.len() as u32, digest)?;
        let (task, number) = match begun {
            Begun::Fresh { task } => (task, FileNumber::new(0)),
            Begun::Going { task, number } => (task, number),
            Begun::Already { .. } => return Ok(begun),
        };
        let octets = FileBytes::copy_of(alloc, file)?;
        self.client.ask(alloc, Job::upload(task, number, octets))?;
        self.say(said)?;
        Ok(begun)
    }

    /// Asks for the list of all files.
    pub fn list(&mut self, alloc: Global, said: &mut Lane) -> Result<()>
        requires { IsReadyClient D.Disk self.old }
        ensures { OnOk result (IsReadyClient D.Disk self.new) }
    {
        ensure!(!self.client.is_under_way(), "under way");
        let tokens = FileBytes::copy_of(alloc, &ALL_FILES)?;
        self.client.ask(alloc, Job::list(alloc, tokens))?;
        self.say(said)
    }

    /// Asks for the download of the file of this number.
    pub fn download(&mut self, alloc: Global, number: FileNumber, said: &mut Lane) -> Result<()>
        requires { IsReadyClient D.Disk self.old }
        ensures { OnOk result (IsReadyClient D.Disk self.new) }
    {
        ensure!(!self.client.is_under_way(), "under way");
        ensure!(number.get() >= 1, "no number");
        let held = self.client.notes().got_len(self.server, number);
        ensure!(held == 0, "{held} octets were got before");
        self.client.ask(alloc, Job::download(self.server, number))?;
        self.say(said)
    }

    /// The octets that were got of the file of this number.
    pub fn got(&self, number: FileNumber) -> &[u8] {
        self.client.notes().got_octets(self.server, number)
    }

    /// Hears frames one after another, and puts what it says on the air.
    pub fn hear_all(&mut self, frames: &[Vec<u8>], said: &mut Lane) -> Result<()>
        requires { IsReadyClient D.Disk self.old }
        ensures { OnOk result (IsReadyClient D.Disk self.new) }
    {
        for octets in frames {
            self.hear(octets.as_slice(), said)?;
        }
        Ok(())
    }

    /// Hears a frame, and puts what it says on the air.
    fn hear(&mut self, octets: &[u8], said: &mut Lane) -> Result<()>
        requires { IsReadyClient D.Disk self.old }
        ensures { OnOk result (IsReadyClient D.Disk self.new) }
    {
        let Some(frame) = frame_for(self.me, octets) else {
            bail!("no frame for the client");
        };
        self.client.hear(&mut self.disk, &frame)?;
        self.say(said)
    }

    /// Counts a tick, and puts what it says on the air.
    pub fn tick(&mut self, said: &mut Lane) -> Result<()>
        requires { IsReadyClient D.Disk self.old }
        ensures { OnOk result (IsReadyClient D.Disk self.new) }
    {
        self.client.tick();
        self.say(said)
    }

    /// Puts all frames that are pending on the air.
    fn say(&mut self, said: &mut Lane) -> Result<()>
        requires { IsTheirs D.Disk self.old }
        ensures { OnOk result (IsReadyClient D.Disk self.new) }
    {
        let mut out = ArrayVec::new();
        while self.client.next_out(&mut out) {
            said.put(out.as_slice())?;
        }
        Ok(())
    }
}
