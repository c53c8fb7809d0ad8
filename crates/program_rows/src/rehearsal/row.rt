//! A row of a rehearsal.

use crate::memory_outside::{MemoryOutside, closed_air};
use crate::rehearsal::bench::LogDisks;
use crate::run::standing_text;
use air_rehearsal::drive;
use anyhow::{Context, Result, bail};
use disk_model::{CutDisk, LogDisk, MemoryDisk};
use pacsat_cli::{Bench, DiskMaker, FuseDisks, Words, fresh_disks};
use px_base::{MemoryClock, MemoryOut, MemoryShelf, Shelf};
use row_words::{Player, push_shown, read_words, text_of, three_parts, two_parts, with_lines};
use std::alloc::Global;

/// The words that ask for a rehearsal of the schedule that the shelf has.
const WORDS: &str = "none none rehearse schedule";

/// Plays rows of rehearsals, each on its own.
#[derive(Drop)]
pub struct RehearsalRows;

impl Player for RehearsalRows {
    fn play(&mut self, alloc: Global, row: &str) -> Result<String> {
        let (kind, rest) = two_parts(row, ' ')?;
        match kind {
            "text" => text(alloc, rest),
            "log" => log(alloc, rest),
            "ticks" => ticks(alloc, rest),
            "seed" => seed(alloc, rest),
            "log-seed" => log_seed(alloc, rest),
            "seeds" => seeds(alloc, rest),
            _ => bail!("no kind of row"),
        }
    }
}

/// `text TEXT`
fn text(alloc: Global, text: &str) -> Result<String> {
    let text = with_lines(alloc, text)?;
    played(alloc, WORDS, text.as_slice())
}

/// `log TEXT`
fn log(alloc: Global, text: &str) -> Result<String> {
    let text = with_lines(alloc, text)?;
    let mut bench = Bench::new(alloc, LogDisks);
    let mut shown = played_over(alloc, WORDS, text.as_slice(), &mut bench)?;
    push_restarts(alloc, &mut shown, bench.disks.as_slice())?;
    push_standings(alloc, &mut shown, bench.disks.as_slice())?;
    Ok(shown)
}

/// `ticks COUNT TEXT`
fn ticks(alloc: Global, text: &str) -> Result<String> {
    let (count, text) = two_parts(text, ' ')?;
    let count = count.parse::<u32>()?;
    let mut text = with_lines(alloc, text)?;
    for _ in 0..count {
        text.extend_from_slice(b"tick server\n")?;
    }
    let shown = played(alloc, WORDS, text.as_slice())?;
    let len = text.len();
    text_of(alloc, format_args!("{len} octets: {shown}"))
}

/// Puts behind a line how often each of these disks lost power.
fn push_restarts(alloc: Global, shown: &mut String, bench: &[LogDisk]) -> Result<()> {
    shown.push_str(" |")?;
    for disk in bench {
        let restarts = disk.restarts().len();
        push_shown(alloc, shown, format_args!(" {restarts}"))?;
    }
    Ok(())
}

/// Puts behind a line what the power cuts of the first of these disks left.
fn push_standings(alloc: Global, shown: &mut String, bench: &[LogDisk]) -> Result<()> {
    for left in bench.first().context("no disk")?.restarts() {
        let standing = standing_text(alloc, left.as_slice())?;
        push_shown(alloc, shown, format_args!(" | {standing}"))?;
    }
    Ok(())
}

/// What these words come to over disks without octets and a shelf that has this schedule: the number of the status, and
/// what was shown.
fn played(alloc: Global, words: &str, schedule: &[u8]) -> Result<String> {
    let mut bench = Bench::new(alloc, FuseDisks);
    played_over(alloc, words, schedule, &mut bench)
}

/// The same over the disks of this bench.
fn played_over<B: CutDisk + Drop, M: DiskMaker<B> + Drop>(
    alloc: Global,
    words: &str,
    schedule: &[u8],
    bench: &mut Bench<B, M>,
) -> Result<String> {
    let words: Words = read_words(alloc, words)?;
    let mut outside = outside(alloc, schedule)?;
    let mut disk = MemoryDisk::new(alloc, &[], &[])?;
    let number = outside.run_over(alloc, &words, &mut disk, bench);
    let shown = outside.line()?;
    text_of(alloc, format_args!("{number} {shown}"))
}

/// A closed air, a shelf that has this schedule, an output, and a clock that gives the moment 1.
fn outside(alloc: Global, schedule: &[u8]) -> Result<MemoryOutside> {
    let air = closed_air(alloc)?;
    let clock = MemoryClock::new(alloc, &[1])?;
    let out = MemoryOut::new(alloc, &[])?;
    let mut shelf = MemoryShelf::new(alloc, &[])?;
    shelf.keep("schedule", schedule)?;
    Ok(MemoryOutside {
        air,
        clock,
        shelf,
        out,
    })
}

/// `seed N COUNT`
fn seed(alloc: Global, text: &str) -> Result<String> {
    let words = drawing(alloc, text)?;
    played(alloc, words.as_str(), &[])
}

/// `log-seed N COUNT`
fn log_seed(alloc: Global, text: &str) -> Result<String> {
    let words = drawing(alloc, text)?;
    let mut bench = Bench::new(alloc, LogDisks);
    let mut shown = played_over(alloc, words.as_str(), &[], &mut bench)?;
    push_restarts(alloc, &mut shown, bench.disks.as_slice())?;
    Ok(shown)
}

/// The words that ask for what is drawn by a number, in so many rounds.
fn drawing(alloc: Global, text: &str) -> Result<String> {
    let (seed, count) = two_parts(text, ' ')?;
    text_of(
        alloc,
        format_args!("none none rehearse --seed {seed} --count {count}"),
    )
}

/// What some rehearsals counted together.
#[derive(Drop)]
struct Sums {
    acked: u64,
    fetched: u64,
    cuts: u64,
    not_kept: u64,
}

impl Sums {
    /// Adds what a rehearsal counts that is drawn by this number, in so many rounds.
    fn add(&mut self, alloc: Global, seed: u64, count: u32) -> Result<()> {
        let mut bench = fresh_disks(alloc, &FuseDisks)?;
        let report = drive(alloc, seed, count, &mut bench)?;
        self.acked = self.acked.saturating_add(report.acked);
        self.cuts = self.cuts.saturating_add(report.cuts);
        self.fetched = self.fetched.saturating_add(report.fetched);
        if report.acked != report.kept {
            self.not_kept = self.not_kept.saturating_add(1);
        }
        Ok(())
    }
}

/// `seeds FIRST LAST COUNT`
fn seeds(alloc: Global, text: &str) -> Result<String> {
    let (first, last, count) = three_parts(text, ' ')?;
    let (first, last) = (first.parse::<u64>()?, last.parse::<u64>()?);
    let count = count.parse::<u32>()?;
    let mut sums = Sums {
        acked: 0,
        fetched: 0,
        cuts: 0,
        not_kept: 0,
    };
    for seed in first..=last {
        sums.add(alloc, seed, count)?;
    }
    let (acked, fetched) = (sums.acked, sums.fetched);
    let (cuts, not_kept) = (sums.cuts, sums.not_kept);
    text_of(
        alloc,
        format_args!("acked {acked} fetched {fetched} cuts {cuts} not kept {not_kept}"),
    )
}
