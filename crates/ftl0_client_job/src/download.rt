//! The download of a file: what each packet gives to it (FTL0 1990, downloading).

ghost use Rattle.std.specs.Prelude.{◌≡◌, ◌+◌, ◌<◌, ◌≤◌, ◌++◌, [], drop, length, take, IfOk, Ok};
ghost use Rattle.ftl0_packets.specs.Values.{value_of};
ghost use Rattle.pfh_items.specs.Faults.{fault_code};
ghost use Rattle.client_notes.specs.Notes.{got_of};
ghost use Rattle.client_notes.specs.State.{IsReady};
ghost use Rattle.ftl0_client_job.specs.Download.{data_end_row, data_row, done_row, download_row, error_row};
ghost use Rattle.ftl0_client_job.specs.Download.{fetching_row, last_got};
ghost use Rattle.ftl0_client_job.specs.Download.{login_row, new_download, unnoted, whole_gots};
ghost use Rattle.ftl0_client_job.specs.JobState.{FitsBehind, MayDownload};
ghost use Rattle.ftl0_client_job.specs.Noting.{HasNoted};
ghost use Rattle.ftl0_client_job.specs.Taking.{Answers, TakesRow, with_notes};

use crate::ending::strange;
use crate::noting::{note_forgot, note_got};
use crate::phases::DownloadPhase;
use crate::{Ending, Outcome, Replies};
use arrayvec::ArrayVec;
use client_notes::{LONGEST_FILE, MOST_GOT, Notes};
use disk_model::{Disk, Halt};
use ftl0_packets::{ErrorCode, Packet, write_packet};
use pfh_reader::check;
use px_base::{Call, FileNumber};
use std::marker::Model;

/// The type of DATA.
const DATA: u8 = 0;

/// Octets that aren't noted yet.
type Block = ArrayVec<u8, MOST_GOT>;

/// The download of a file. Contracts see it as the `Download` of `specs/Download.antt`.
#[derive(Drop)]
pub(crate) struct Download {
    server: Call,
    number: FileNumber,
    /// The octets that came and aren't noted yet.
    rest: Block,
    phase: DownloadPhase,
}

impl Model for Download {
    ghost use Rattle.std.specs.Prelude.{length, ◌<◌, ◌≤◌};
    ghost use Rattle.ftl0_client_job.specs.Download.{Download};

    ghost Value = { Download };

    ghost view = { λ a. record { server = a.server; number = a.number; rest = a.rest.items; phase = a.phase } };

    ghost invariant = { λ a. (1 ≤ a.number) × (length a.rest.items < 512) };
}

impl Download {
    /// A download that waits for LOGIN_RESP.
    pub(crate) fn new(server: Call, number: FileNumber) -> Download
        requires { 1 ≤ number }
        ensures { result ≡ new_download server number }
    {
        Download {
            server,
            number,
            rest: ArrayVec::new(),
            phase: DownloadPhase::Login,
        }
    }

    /// Takes a packet: its row, or a stop. Takes memory.
    pub(crate) fn take<D: Disk>(
        &mut self,
        disk: &mut D,
        packet: &Packet<'_>,
        notes: &mut Notes,
        replies: &mut Replies,
    ) -> Result<Option<Ending>, Halt>
        requires empty { replies.old.items ≡ [] }
        requires may { MayDownload D.Disk notes.old disk.old self.old }
        ensures { TakesRow D.Disk
            (download_row (got_of notes.old.lists self.old.server self.old.number) self.old (value_of packet.now))
            (with_notes self.old notes.old disk.old) (with_notes self.new notes.new disk.new) replies.new.items result }
    {
        match self.phase {
            DownloadPhase::Login => Ok(self.take_login(packet, notes, replies)),
            DownloadPhase::Fetching => self.take_fetching(disk, packet, notes, replies),
            DownloadPhase::Done => Ok(self.take_done(packet)),
        }
    }

    /// Login: LOGIN_RESP. The octets after those that were got are asked for.
    fn take_login(
        &mut self,
        packet: &Packet<'_>,
        notes: &Notes,
        replies: &mut Replies,
    ) -> Option<Ending>
        requires { replies.old.items ≡ [] }
        ensures { Answers
            (login_row (got_of notes.now.lists self.old.server self.old.number) self.old (value_of packet.now))
            self.old self.new replies.new.items (Ok result) }
    {
        let Packet::LoginResp { .. } = *packet else {
            return Some(strange(packet.kind()));
        };
        let download = Packet::DownloadCmd {
            number: self.number.get(),
            offset: notes.got_len(self.server, self.number),
            lock: 0,
        };
        write_packet(&download, replies);
        self.rest.clear();
        self.phase = DownloadPhase::Fetching;
        None
    }

    /// Fetching: DATA, DATA_END and DL_ERROR_RESP.
    fn take_fetching<D: Disk>(
        &mut self,
        disk: &mut D,
        packet: &Packet<'_>,
        notes: &mut Notes,
        replies: &mut Replies,
    ) -> Result<Option<Ending>, Halt>
        requires empty { replies.old.items ≡ [] }
        requires may { MayDownload D.Disk notes.old disk.old self.old }
        ensures { TakesRow D.Disk
            (fetching_row (got_of notes.old.lists self.old.server self.old.number) self.old (value_of packet.now))
            (with_notes self.old notes.old disk.old) (with_notes self.new notes.new disk.new) replies.new.items result }
    {
        match *packet {
            Packet::DataPart(octets) => self.take_data(disk, octets, notes),
            Packet::DataEnd => self.take_end(disk, notes, replies),
            Packet::DlErrorResp(code) => self.end_by_error(disk, code, notes),
            _ => Ok(Some(strange(packet.kind()))),
        }
    }

    /// Fetching, DATA: each whole 512 octets are noted.
    fn take_data<D: Disk>(
        &mut self,
        disk: &mut D,
        octets: &[u8],
        notes: &mut Notes,
    ) -> Result<Option<Ending>, Halt>
        requires { IsReady D.Disk notes.old disk.old }
        ensures { TakesRow D.Disk
            (data_row (got_of notes.old.lists self.old.server self.old.number) self.old octets.now)
            (with_notes self.old notes.old disk.old) (with_notes self.new notes.new disk.new) [] result }
    {
        let held = notes.got_len(self.server, self.number) as usize;
        if held + self.rest.len() + octets.len() > LONGEST_FILE as usize {
            return Ok(Some(strange(DATA)));
        }
        self.rest = note_blocks(disk, notes, self.server, self.number, &self.rest, octets)?;
        Ok(None)
    }

    /// Fetching, DATA_END: the rest is noted, and the whole checked.
    fn take_end<D: Disk>(
        &mut self,
        disk: &mut D,
        notes: &mut Notes,
        replies: &mut Replies,
    ) -> Result<Option<Ending>, Halt>
        requires empty { replies.old.items ≡ [] }
        requires may { MayDownload D.Disk notes.old disk.old self.old }
        ensures { TakesRow D.Disk
            (data_end_row (got_of notes.old.lists self.old.server self.old.number) self.old)
            (with_notes self.old notes.old disk.old) (with_notes self.new notes.new disk.new) replies.new.items result }
    {
        note_rest(disk, notes, self.server, self.number, &self.rest)?;
        let Some(code) = fault_in(notes.got_octets(self.server, self.number)) else {
            write_packet(&Packet::DlAckCmd, replies);
            self.rest.clear();
            self.phase = DownloadPhase::Done;
            return Ok(None);
        };
        note_forgot(disk, notes, self.server, self.number)?;
        write_packet(&Packet::DlNakCmd, replies);
        self.rest.clear();
        Ok(Some(Ending::later(Outcome::BadFile { code })))
    }

    /// Fetching, DL_ERROR_RESP: the download is refused.
    fn end_by_error<D: Disk>(
        &self,
        disk: &mut D,
        code: u8,
        notes: &mut Notes,
    ) -> Result<Option<Ending>, Halt>
        requires { IsReady D.Disk notes.old disk.old }
        ensures { TakesRow D.Disk (error_row self.now code)
            (with_notes self.now notes.old disk.old) (with_notes self.now notes.new disk.new) [] result }
    {
        if ErrorCode::BadContinue.is(code) {
            note_forgot(disk, notes, self.server, self.number)?;
        }
        Ok(Some(Ending::at_once(Outcome::Refused { code })))
    }

    /// Done: DL_COMPLETED_RESP.
    fn take_done(&self, packet: &Packet<'_>) -> Option<Ending>
        ensures { Answers (done_row self.now (value_of packet.now)) self.now self.now [] (Ok result) }
    {
        match *packet {
            Packet::DlCompletedResp => Some(Ending::at_once(Outcome::Fetched {
                number: self.number,
            })),
            _ => Some(strange(packet.kind())),
        }
    }
}

/// Notes each whole 512 octets of those that waited and those that came, and gives those that are left. Takes memory.
fn note_blocks<D: Disk>(
    disk: &mut D,
    notes: &mut Notes,
    server: Call,
    number: FileNumber,
    rest: &Block,
    octets: &[u8],
) -> Result<Block, Halt>
    requires ready { IsReady D.Disk notes.old disk.old }
    requires few { length rest.now.items < 512 }
    requires some { 1 ≤ number }
    requires fits { FitsBehind notes.old.lists server number (rest.now.items ++ octets.now) }
    ensures noted { HasNoted D.Disk notes.old notes.new disk.old disk.new
        (whole_gots server number (rest.now.items ++ octets.now)) result }
    ensures left { IfOk result (λ left. left.items ≡ unnoted (rest.now.items ++ octets.now)) }
{
    let mut block = ArrayVec::new();
    block.try_extend_from_slice(rest.as_slice()).unwrap();
    let mut left = octets;
    for _ in 0..(rest.len() + octets.len()) / MOST_GOT {
        left = fill_block(&mut block, left);
        note_got(disk, notes, server, number, block.as_slice())?;
        block.clear();
    }
    block.try_extend_from_slice(left).unwrap();
    Ok(block)
}

/// Fills a block to its end with the first of these octets, of which there are enough, and gives those that are left.
fn fill_block<'a>(block: &mut Block, octets: &'a [u8]) -> &'a [u8]
    requires { 512 ≤ length (block.old.items ++ octets.now) }
    ensures block { block.new.items ≡ take 512 (block.old.items ++ octets.now) }
    ensures left { result.now ≡ drop 512 (block.old.items ++ octets.now) }
{
    let count = MOST_GOT - block.len();
    block.try_extend_from_slice(&octets[..count]).unwrap();
    &octets[count..]
}

/// Notes the octets that wait, fewer than 512, if there are any. Takes memory.
fn note_rest<D: Disk>(
    disk: &mut D,
    notes: &mut Notes,
    server: Call,
    number: FileNumber,
    rest: &Block,
) -> Result<(), Halt>
    requires ready { IsReady D.Disk notes.old disk.old }
    requires some { 1 ≤ number }
    requires fits { FitsBehind notes.old.lists server number rest.now.items }
    ensures { HasNoted D.Disk notes.old notes.new disk.old disk.new (last_got server number rest.now.items) result }
{
    if rest.is_empty() {
        return Ok(());
    }
    note_got(disk, notes, server, number, rest.as_slice())
}

/// The code of the first fault of a file, if it has one.
fn fault_in(file: &[u8]) -> Option<u8>
    ensures { result ≡ fault_code file.now }
{
    match check(file) {
        Ok(_header) => None,
        Err(fault) => Some(fault.code),
    }
}
