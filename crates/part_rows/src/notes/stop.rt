//! A row of a disk that stops, and of what is recovered from it.

use crate::notes::calls::play_calls;
use anyhow::Result;
use disk_model::{FuseDisk, MemoryDisk};
use row_words::{four_parts, push_shown, read_octets, text_of, two_parts};
use std::alloc::Global;

/// What is done on a disk that stops, and what is then asked.
#[derive(Clone, Copy)]
struct Stop<'a> {
    /// How many calls of `write_at` and `sync` pass.
    count: u64,
    /// The disk's octets at first.
    octets: &'a [u8],
    /// The calls in which it stops.
    calls: &'a str,
    /// The calls that are made on the notes that are recovered.
    questions: &'a str,
}

/// Plays the row, and gives what is printed for it. Takes memory.
pub fn play(alloc: Global, row: &str) -> Result<String> {
    let (count, octets, calls, rest) = four_parts(row, '|')?;
    let (picks, questions) = two_parts(rest, '|')?;
    let octets = read_octets(alloc, octets)?;
    let stop = Stop {
        count: count.trim().parse::<u64>()?,
        octets: octets.as_slice(),
        calls,
        questions,
    };
    stop.text(alloc, picks)
}

impl Stop<'_> {
    /// What is printed for it.
    fn text(&self, alloc: Global, picks: &str) -> Result<String> {
        let (answers, _disk) = self.stopped(alloc)?;
        let before = self.asked_before(alloc)?;
        let after = self.asked_after(alloc)?;
        let mut text = text_of(alloc, format_args!("{answers} | {before} | {after}"))?;
        for pick in picks.split_whitespace() {
            let found = self.asked_left(alloc, pick)?;
            let which = which(found.as_str(), before.as_str(), after.as_str());
            push_shown(alloc, &mut text, format_args!(" | {pick} {which}"))?;
        }
        Ok(text)
    }

    /// What is answered on the notes before the calls.
    fn asked_before(&self, alloc: Global) -> Result<String> {
        self.asked(alloc, self.disk(alloc)?)
    }

    /// What is answered on those after them when the disk doesn't stop.
    fn asked_after(&self, alloc: Global) -> Result<String> {
        self.asked(alloc, self.done(alloc)?)
    }

    /// What is answered on the notes that are recovered from what is left at a pick.
    fn asked_left(&self, alloc: Global, pick: &str) -> Result<String> {
        self.asked(alloc, self.left(alloc, pick)?)
    }

    /// What is answered by the notes that are recovered from a disk.
    fn asked(&self, alloc: Global, mut disk: MemoryDisk) -> Result<String> {
        play_calls(alloc, &mut disk, self.questions)
    }

    /// The disk before.
    fn disk(&self, alloc: Global) -> Result<MemoryDisk> {
        Ok(MemoryDisk::new(alloc, self.octets, &[])?)
    }

    /// The disk after the calls, when it doesn't stop in them.
    fn done(&self, alloc: Global) -> Result<MemoryDisk> {
        let mut disk = self.disk(alloc)?;
        let _answers = play_calls(alloc, &mut disk, self.calls)?;
        Ok(disk)
    }

    /// What the calls answer when it stops in them, and the disk then.
    fn stopped(&self, alloc: Global) -> Result<(String, MemoryDisk)> {
        let mut disk = FuseDisk::new(self.disk(alloc)?, self.count);
        let answers = play_calls(alloc, &mut disk, self.calls)?;
        Ok((answers, disk.into_disk()))
    }

    /// The disk that it leaves: as it is, or what a crash leaves of it, as a number picks it.
    fn left(&self, alloc: Global, pick: &str) -> Result<MemoryDisk> {
        let (_answers, disk) = self.stopped(alloc)?;
        match pick {
            "-" => Ok(disk),
            number => Ok(disk.crash(number.parse::<u64>()?)?),
        }
    }
}

/// Which answers were found: those before, those after, or themselves.
fn which<'a>(found: &'a str, before: &str, after: &str) -> &'a str {
    if found == before {
        "before"
    } else if found == after {
        "after"
    } else {
        found
    }
}
