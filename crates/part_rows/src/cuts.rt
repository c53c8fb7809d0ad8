//! Rows of disks that are armed to fail, and lose power. A row has the kind of the disk (`memory`, or `fuse` or `log`,
//! which aren't armed at first), its octets, after `|` its failing calls, and after another one the calls that are
//! made, separated by `;`.
//!
//! The calls are those of rows of `disk`, and `cut PICK`; and except for `memory`, `arm N`, `disarm`, and
//! `put AT OCTETS`, which writes the octets and syncs them. What each answers is printed, separated by `;`. After it
//! come the disk's octets then, with `starved` if a call found no memory, and what the power cuts left, as far as that
//! can be observed; all separated by ` | `.

ghost use Rattle.std.specs.Prelude.{◌≡◌, false, IfSome};
ghost use Rattle.disk_model.specs.Cuts.{LastsSo, cut_state, cuts_by};
ghost use Rattle.disk_model.specs.Moments.{SamePast};

use crate::disk::calls::make_call;
use crate::disk::{push_end, push_octets};
use crate::parts::Parts;
use anyhow::{Result, bail};
use disk_model::{CutDisk, DiskFault, FuseDisk, LogDisk, MemoryDisk};
use px_base::FileBytes;
use row_words::{Player, kind_and_rest, read_numbers, read_octets, three_parts, two_parts};
use std::alloc::Global;

/// Plays rows of such disks, each on its own.
#[derive(Drop)]
pub struct CutRows;

impl Player for CutRows {
    fn play(&mut self, alloc: Global, row: &str) -> Result<String> {
        let (kind, rest) = two_parts(row, ' ')?;
        let (octets, failing, calls) = three_parts(rest, '|')?;
        let octets = read_octets(alloc, octets)?;
        let failing = read_numbers(alloc, failing.trim())?;
        let disk = MemoryDisk::new(alloc, octets.as_slice(), failing.as_slice())?;
        over(alloc, kind, disk, calls)
    }
}

/// The row of this kind of disk.
fn over(alloc: Global, kind: &str, mut disk: MemoryDisk, calls: &str) -> Result<String> {
    match kind {
        "memory" => over_memory(alloc, &mut disk, calls),
        "fuse" => over_fuse(alloc, &mut disarmed(disk), calls),
        "log" => over_log(alloc, LogDisk::new(alloc, disarmed(disk)), calls),
        _ => bail!("no such disk"),
    }
}

/// A fuse that isn't armed round this disk.
fn disarmed(disk: MemoryDisk) -> FuseDisk {
    let mut disk = FuseDisk::new(disk, 0);
    disk.arm(None);
    disk
}

/// The row of a disk in memory.
fn over_memory(alloc: Global, disk: &mut MemoryDisk, calls: &str) -> Result<String> {
    let mut answers = Parts::new(alloc);
    for call in calls.split(';') {
        make_in_memory(alloc, disk, call.trim(), &mut answers)?;
    }
    let mut text = answers.end();
    push_end(alloc, &mut text, disk.bytes(), disk.starved())?;
    Ok(text)
}

/// Makes a call, and puts what it answers.
fn make_in_memory(
    alloc: Global,
    disk: &mut MemoryDisk,
    call: &str,
    answers: &mut Parts,
) -> Result<()> {
    let Some(pick) = call.strip_prefix("cut ") else {
        return make_call(alloc, disk, call, answers);
    };
    disk.power_cut(pick.parse::<u64>()?);
    answers.put("cut")
}

/// The row of one that stops.
fn over_fuse(alloc: Global, disk: &mut FuseDisk, calls: &str) -> Result<String> {
    let mut text = made(alloc, disk, calls)?;
    push_end(alloc, &mut text, disk.bytes(), disk.starved())?;
    Ok(text)
}

/// The row of a disk whose power cuts can be observed by what they left.
fn over_log(alloc: Global, mut disk: LogDisk, calls: &str) -> Result<String> {
    let mut text = made(alloc, &mut disk, calls)?;
    let restarts = restarts_text(alloc, &disk)?;
    let starved = disk.starved();
    let disk = disk.into_disk();
    push_end(alloc, &mut text, disk.bytes(), starved)?;
    text.push_str(restarts.as_str())?;
    Ok(text)
}

/// What the power cuts left.
fn restarts_text(alloc: Global, disk: &LogDisk) -> Result<String> {
    let mut text = String::new(alloc);
    for left in disk.restarts() {
        push_octets(alloc, &mut text, FileBytes::as_slice(left))?;
    }
    Ok(text)
}

/// What the calls answer.
fn made<D: CutDisk>(alloc: Global, disk: &mut D, calls: &str) -> Result<String> {
    let mut answers = Parts::new(alloc);
    for call in calls.split(';') {
        make(alloc, disk, call.trim(), &mut answers)?;
    }
    Ok(answers.end())
}

/// Makes a call, and puts what it answers.
fn make<D: CutDisk>(alloc: Global, disk: &mut D, call: &str, answers: &mut Parts) -> Result<()> {
    let (name, words) = kind_and_rest(call);
    match name {
        "arm" => {
            disk.arm(Some(words.parse::<u64>()?));
            answers.put("armed")
        }
        "disarm" => {
            disk.arm(None);
            answers.put("disarmed")
        }
        "cut" => {
            cut(disk, words.parse::<u64>()?);
            answers.put("cut")
        }
        "put" => put_row(alloc, disk, words, answers),
        _ => make_call(alloc, disk, call, answers),
    }
}

/// `put AT OCTETS`
fn put_row<D: CutDisk>(
    alloc: Global,
    disk: &mut D,
    words: &str,
    answers: &mut Parts,
) -> Result<()> {
    let (at, octets) = two_parts(words, ' ')?;
    let at = at.parse::<u64>()?;
    let octets = read_octets(alloc, octets)?;
    answers.put(match put(disk, at, octets.as_slice()) {
        Ok(()) => "put",
        Err(DiskFault) => "failed",
    })
}

/// Cuts the power. What is left might have been left before, and what might have been left since a moment stays.
fn cut<D: CutDisk>(disk: &mut D, pick: u64)
    ensures left { D.is_starved disk.new ≡ false → IfSome (D.content disk.new) (D.images disk.old) }
    ensures past { SamePast (D.images_since disk.old) (D.images_since disk.new) }
{
    disk.power_cut(pick);
}

/// Writes octets and syncs them, by calls that know nothing of the arming: what lasts through them is said by one law.
fn put<D: CutDisk>(disk: &mut D, at: u64, octets: &[u8]) -> Result<(), DiskFault>
    ensures { LastsSo (cut_state D.Disk (cuts_by D.restarts D.arming D.plain D.is_starved) disk.old)
        (cut_state D.Disk (cuts_by D.restarts D.arming D.plain D.is_starved) disk.new) }
{
    disk.write_at(at, octets)?;
    disk.sync()
}
