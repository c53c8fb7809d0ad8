//! A row.

ghost use Rattle.std.specs.Prelude.{IfOk};
ghost use Rattle.ax25_link.specs.Window.{IsGoodK};
ghost use Rattle.program_rows.specs.Ready.{AreReady};

use crate::air::client_side::ClientSide;
use crate::air::compare::compare;
use crate::air::exchange::{Got, Stations};
use crate::air::lanes::{Air, Lane};
use crate::air::server_side::ServerSide;
use anyhow::{Result, ensure};
use ax25_link::good_k;
use disk_model::{Disk, MemoryDisk};
use pfh_writer::HeaderBuilder;
use px_base::FileBytes;
use row_words::{four_parts, text_of};
use std::alloc::Global;

/// A row as it is written.
#[derive(Clone, Copy)]
pub struct Row {
    seed: u64,
    k: u8,
    body: usize,
    breaks: usize,
    ghost window: { IsGoodK k },
}

impl Row {
    /// Reads a row.
    pub fn read(text: &str) -> Result<Row> {
        let (seed, k, body, breaks) = four_parts(text, ' ')?;
        let k = k.parse::<u8>()?;
        ensure!(good_k(k), "a window of {k}");
        Ok(Row {
            seed: seed.parse::<u64>()?,
            k,
            body: body.parse::<usize>()?,
            breaks: breaks.parse::<usize>()?,
        })
    }

    /// Plays the row over a server's disk, which is kept for the next row, and gives what is printed.
    pub fn play(self, alloc: Global, kept: &mut Option<MemoryDisk>) -> Result<String> {
        let file = self.file(alloc)?;
        let disk = match kept.take() {
            Some(disk) => disk,
            None => MemoryDisk::new(alloc, &[], &[])?,
        };
        let (got, air, disk) = self.exchange(alloc, disk, file.as_slice())?;
        let disk = kept.insert(disk);
        let came = compare(alloc, disk, file.as_slice(), &got?)?;
        self.shown(alloc, came.as_str(), &air)
    }

    /// What the client gets, what was on the air, and the server's disk then.
    fn exchange(
        &self,
        alloc: Global,
        disk: MemoryDisk,
        file: &[u8],
    ) -> Result<(Result<Got>, Air, MemoryDisk)> {
        let notes = MemoryDisk::new(alloc, &[], &[])?;
        let mut stations = self.stations(alloc, notes, disk)?;
        let got = stations.run(alloc, file, self.breaks);
        let Stations {
            client: _,
            server,
            air,
        } = stations;
        Ok((got, air, server.close()))
    }

    /// The stations with these disks, between which no frame was sent.
    fn stations<C: Disk + Drop, S: Disk + Drop>(
        &self,
        alloc: Global,
        notes: C,
        store: S,
    ) -> Result<Stations<C, S>>
        ensures { IfOk result (AreReady C.Disk S.Disk) }
    {
        let client = ClientSide::open(alloc, notes, self.k)?;
        let server = ServerSide::open(alloc, store, self.k)?;
        let air = Air {
            up: Lane::new(alloc, self.seed, self.k),
            down: Lane::new(alloc, !self.seed, self.k),
            ticks: 0,
        };
        Ok(Stations {
            client,
            server,
            air,
        })
    }

    /// The file.
    fn file(&self, alloc: Global) -> Result<FileBytes> {
        let first = self.seed % 256 * 13;
        let mut body = Vec::new(alloc);
        for i in 0..self.body {
            body.push((((i % 256) as u64 * 7 + first) % 256) as u8)?;
        }
        let builder = HeaderBuilder::new(alloc, *b"AIR     ", *b"BIN", 1, 1, 0, 0)?;
        Ok(builder.finish(body.as_slice())?)
    }

    /// What is printed where this came of the row.
    fn shown(&self, alloc: Global, came: &str, air: &Air) -> Result<String> {
        let (seed, k, body, breaks) = (self.seed, self.k, self.body, self.breaks);
        let air = shown_air(alloc, air)?;
        text_of(
            alloc,
            format_args!("seed {seed} k {k} body {body} breaks {breaks}: {came}, {air}"),
        )
    }
}

/// What is printed of the air.
fn shown_air(alloc: Global, air: &Air) -> Result<String> {
    let up = shown_lane(alloc, &air.up)?;
    let down = shown_lane(alloc, &air.down)?;
    let ticks = air.ticks;
    text_of(alloc, format_args!("up {up}, down {down}, ticks {ticks}"))
}

/// What is printed of a lane.
fn shown_lane(alloc: Global, lane: &Lane) -> Result<String> {
    let (frames, lost) = (lane.frames, lane.lost);
    let (twice, displaced) = (lane.twice, lane.displaced);
    text_of(
        alloc,
        format_args!("{frames} lost {lost} twice {twice} displaced {displaced}"),
    )
}
