//! What a run is over, in memory.

use anyhow::Result;
use disk_model::{CutDisk, Disk};
use pacsat_cli::{Bench, DiskMaker, FuseDisks, ReadWords, Words, run};
use px_base::{MemoryAir, MemoryClock, MemoryOut, MemoryShelf};
use row_words::read_numbers;
use std::alloc::Global;
use std::str;

/// An air, a clock, a shelf and an output.
#[derive(Drop)]
pub struct MemoryOutside {
    /// The air.
    pub air: MemoryAir,
    /// The clock.
    pub clock: MemoryClock,
    /// The shelf.
    pub shelf: MemoryShelf,
    /// The output.
    pub out: MemoryOut,
}

impl MemoryOutside {
    /// Runs the words over this disk and a bench in memory, and gives the status's number. Takes memory.
    pub fn run<D: Disk>(&mut self, alloc: Global, words: &Words, disk: &mut D) -> u8 {
        let mut bench = Bench::new(alloc, FuseDisks);
        self.run_over(alloc, words, disk, &mut bench)
    }

    /// Runs the words over this disk and this bench, and gives the status's number. Takes memory.
    pub fn run_over<D: Disk, B: CutDisk + Drop, M: DiskMaker<B> + Drop>(
        &mut self,
        alloc: Global,
        words: &Words,
        disk: &mut D,
        bench: &mut Bench<B, M>,
    ) -> u8 {
        let status = run(
            alloc,
            &ReadWords::of(alloc, words),
            disk,
            &mut self.air,
            &mut self.shelf,
            &mut self.out,
            &mut self.clock,
            bench,
        );
        status.number()
    }

    /// The lines that were shown, each ended by `|` in place of its line feed. Takes memory.
    pub fn lines(&self, alloc: Global) -> Result<String> {
        Ok(str::from_utf8(self.out.shown())?.replace(alloc, "\n", "|")?)
    }

    /// The text that was shown, without its line feed.
    pub fn line(&self) -> Result<&str> {
        Ok(str::from_utf8(self.out.shown())?.trim_end())
    }
}

/// An air that is closed. Takes memory.
pub fn closed_air(alloc: Global) -> Result<MemoryAir> {
    Ok(MemoryAir::new(alloc, Vec::new(alloc), &[])?)
}

/// An output whose calls with these numbers fail. Takes memory.
pub fn open_out(alloc: Global, failing: &str) -> Result<MemoryOut> {
    let failing = read_numbers(alloc, failing)?;
    Ok(MemoryOut::new(alloc, failing.as_slice())?)
}
