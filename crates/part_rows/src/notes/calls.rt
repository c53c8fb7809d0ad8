//! The calls of a row, on the notes of its disk.

ghost use Rattle.client_notes.specs.State.{StandsOn};

use crate::notes::answers::{shown, shown_begun, shown_got, shown_noted};
use crate::notes::task::unfinished;
use crate::parts::Parts;
use anyhow::{Context, Result, bail, ensure};
use client_notes::{LONGEST_FILE, LONGEST_NAME, MOST_GOT, Notes};
use disk_model::Disk;
use px_base::{Call, FileNumber};
use row_words::{hex_text, read_octets};
use std::alloc::Global;

/// Recovers notes from a disk, and makes these calls on them: `notes` and what each answers; or why there are no notes.
/// Takes memory.
pub fn play_calls<D: Disk>(alloc: Global, disk: &mut D, calls: &str) -> Result<String> {
    match Notes::recover(alloc, disk) {
        Ok(mut notes) => play_on(alloc, disk, &mut notes, calls),
        Err(fault) => shown(alloc, &fault),
    }
}

/// Makes these calls on notes: `notes` and what each answers.
fn play_on<D: Disk>(alloc: Global, disk: &mut D, notes: &mut Notes, calls: &str) -> Result<String>
    requires { StandsOn D.Disk notes.old disk.old }
{
    let mut parts = Parts::new(alloc);
    parts.put("notes")?;
    for call in calls.trim().split_terminator(';') {
        let answer = make_call(alloc, disk, notes, call)?;
        parts.put(answer.as_str())?;
    }
    Ok(parts.end())
}

/// Makes a call, and shows what it answers.
fn make_call<D: Disk>(alloc: Global, disk: &mut D, notes: &mut Notes, call: &str) -> Result<String>
    requires { StandsOn D.Disk notes.old disk.old }
    ensures { StandsOn D.Disk notes.new disk.new }
{
    let words = call.split_whitespace().collect::<Vec<&str>>(alloc)?;
    let (name, words) = words.split_first().context("no call")?;
    match *name {
        "start" => start(alloc, disk, notes, words),
        "numbered" => numbered(alloc, disk, notes, words),
        "acked" => acked(alloc, disk, notes, words),
        "refused" => refused(alloc, disk, notes, words),
        "got" => got(alloc, disk, notes, words),
        "forgot" => forgot(alloc, disk, notes, words),
        "noted" => noted(alloc, notes, words),
        "got_len" => got_len(alloc, notes, words),
        "read_got" => read_got(alloc, notes, words),
        "got_at" => got_at(alloc, notes, words),
        _ => bail!("no call of notes"),
    }
}

/// `start SERVER CALLER NAME LENGTH DIGEST`
fn start<D: Disk>(alloc: Global, disk: &mut D, notes: &mut Notes, words: &[&str]) -> Result<String>
    requires { StandsOn D.Disk notes.old disk.old }
    ensures { StandsOn D.Disk notes.new disk.new }
{
    let [server, caller, name, length, digest] = words else {
        bail!("no start");
    };
    ensure!(
        !name.is_empty() && name.len() <= LONGEST_NAME,
        "no name of a task"
    );
    let (server, caller) = (Call::read(server)?, Call::read(caller)?);
    let length = length.parse::<u32>()?;
    let digest = read_digest(alloc, digest)?;
    shown_begun(
        alloc,
        notes.start(disk, server, caller, name, length, digest),
    )
}

/// A digest of 32 octets.
fn read_digest(alloc: Global, text: &str) -> Result<[u8; 32]> {
    let octets = read_octets(alloc, text)?;
    ensure!(octets.len() == 32, "a digest of another length");
    let mut digest = [0; 32];
    digest.copy_from_slice(octets.as_slice());
    Ok(digest)
}

/// `numbered SERVER CALLER NAME NUMBER`
fn numbered<D: Disk>(
    alloc: Global,
    disk: &mut D,
    notes: &mut Notes,
    words: &[&str],
) -> Result<String>
    requires { StandsOn D.Disk notes.old disk.old }
    ensures { StandsOn D.Disk notes.new disk.new }
{
    let [server, caller, name, number] = words else {
        bail!("no number");
    };
    let (task, known) = unfinished(notes, server, caller, name)?;
    let number = number.parse::<u32>()?;
    ensure!(
        known.get() == 0 && number > 0,
        "the task can't get this number"
    );
    shown(alloc, &notes.numbered(disk, task, FileNumber::new(number)))
}

/// `acked SERVER CALLER NAME`
fn acked<D: Disk>(alloc: Global, disk: &mut D, notes: &mut Notes, words: &[&str]) -> Result<String>
    requires { StandsOn D.Disk notes.old disk.old }
    ensures { StandsOn D.Disk notes.new disk.new }
{
    let [server, caller, name] = words else {
        bail!("no task");
    };
    let (task, known) = unfinished(notes, server, caller, name)?;
    ensure!(known.get() > 0, "the task has no number");
    shown(alloc, &notes.acked(disk, task))
}

/// `refused SERVER CALLER NAME CODE`
fn refused<D: Disk>(
    alloc: Global,
    disk: &mut D,
    notes: &mut Notes,
    words: &[&str],
) -> Result<String>
    requires { StandsOn D.Disk notes.old disk.old }
    ensures { StandsOn D.Disk notes.new disk.new }
{
    let [server, caller, name, code] = words else {
        bail!("no code");
    };
    let (task, _known) = unfinished(notes, server, caller, name)?;
    shown(alloc, &notes.refused(disk, task, code.parse::<u8>()?))
}

/// `got SERVER NUMBER OCTETS`
fn got<D: Disk>(alloc: Global, disk: &mut D, notes: &mut Notes, words: &[&str]) -> Result<String>
    requires { StandsOn D.Disk notes.old disk.old }
    ensures { StandsOn D.Disk notes.new disk.new }
{
    let [server, number, octets] = words else {
        bail!("no octets");
    };
    let (server, number) = read_file(server, number)?;
    let octets = read_octets(alloc, octets)?;
    let held = notes.got_len(server, number) as usize;
    ensure!(
        number.get() > 0 && !octets.is_empty() && octets.len() <= MOST_GOT,
        "no octets of a file"
    );
    ensure!(
        held + octets.len() <= LONGEST_FILE as usize,
        "a file that is too long"
    );
    shown(alloc, &notes.got(disk, server, number, octets.as_slice()))
}

/// A file: its server and its number there.
fn read_file(server: &str, number: &str) -> Result<(Call, FileNumber)> {
    Ok((Call::read(server)?, FileNumber::new(number.parse::<u32>()?)))
}

/// `forgot SERVER NUMBER`
fn forgot<D: Disk>(alloc: Global, disk: &mut D, notes: &mut Notes, words: &[&str]) -> Result<String>
    requires { StandsOn D.Disk notes.old disk.old }
    ensures { StandsOn D.Disk notes.new disk.new }
{
    let [server, number] = words else {
        bail!("no file");
    };
    let (server, number) = read_file(server, number)?;
    shown(alloc, &notes.forgot(disk, server, number))
}

/// `noted SERVER CALLER NAME`
fn noted(alloc: Global, notes: &Notes, words: &[&str]) -> Result<String> {
    let [server, caller, name] = words else {
        bail!("no task");
    };
    let (server, caller) = (Call::read(server)?, Call::read(caller)?);
    shown_noted(alloc, notes.noted(server, caller, name))
}

/// `got_len SERVER NUMBER`
fn got_len(alloc: Global, notes: &Notes, words: &[&str]) -> Result<String> {
    let [server, number] = words else {
        bail!("no file");
    };
    let (server, number) = read_file(server, number)?;
    shown(alloc, &notes.got_len(server, number))
}

/// `read_got SERVER NUMBER AT COUNT`: the octets in hexadecimal.
fn read_got(alloc: Global, notes: &Notes, words: &[&str]) -> Result<String> {
    let [server, number, at, count] = words else {
        bail!("no octets of a file");
    };
    let (server, number) = read_file(server, number)?;
    let (at, count) = (at.parse::<u32>()?, count.parse::<u32>()?);
    let held = notes.got_len(server, number);
    ensure!(at <= held && count <= held - at, "octets that aren't got");
    let mut room = Vec::new(alloc);
    room.resize(count as usize, 0)?;
    notes.read_got(server, number, at, room.as_mut_slice());
    hex_text(alloc, room.as_slice())
}

/// `got_at PLACE`
fn got_at(alloc: Global, notes: &Notes, words: &[&str]) -> Result<String> {
    let [place] = words else {
        bail!("no place");
    };
    shown_got(alloc, notes.got_at(place.parse::<u64>()?))
}
