//! The upload of a file: what each packet gives to it, and what it sends (FTL0 1990, uploading).

ghost use Rattle.std.specs.Prelude.{◌≡◌, ◌≤◌, [], drop, length, take, true, Ok};
ghost use Rattle.ftl0_packets.specs.Values.{value_of};
ghost use Rattle.client_notes.specs.Limits.{longest_file};
ghost use Rattle.ftl0_client_job.specs.Due.{PutsDue, most_data, upload_due};
ghost use Rattle.ftl0_client_job.specs.JobState.{MayGo, MayUpload};
ghost use Rattle.ftl0_client_job.specs.Noting.{NotesAtOnce};
ghost use Rattle.ftl0_client_job.specs.Row.{at_once as ending_at_once};
ghost use Rattle.ftl0_client_job.specs.Taking.{Answers, TakesAtOnce, with_notes};
ghost use Rattle.ftl0_client_job.specs.Upload.{ack_row, error_row, go_resp_row, go_row, login_row};
ghost use Rattle.ftl0_client_job.specs.Upload.{is_new as is_new_upload, may_go as may_be_sent, new_upload};
ghost use Rattle.ftl0_client_job.specs.Upload.{number_commands, sending_row, upload_row};

use crate::ending::strange;
use crate::limits::MOST_DATA;
use crate::noting::{note_acked, note_number, note_refused};
use crate::phases::UploadPhase;
use crate::{Ending, Outcome, Replies};
use arrayvec::ArrayVec;
use client_notes::{Notes, TaskNumber};
use disk_model::{Disk, Halt};
use ftl0_packets::{ErrorCode, Packet, write_packet};
use px_base::{FileBytes, FileNumber};
use std::marker::Model;

/// The type of UL_GO_RESP.
const UL_GO_RESP: u8 = 4;

/// The upload of a task's file. Contracts see it as the `Upload` of `specs/Upload.antt`.
#[derive(Drop)]
pub(crate) struct Upload {
    /// The task of the notes.
    task: TaskNumber,
    /// The number that the file was known to have on the server when the upload began, or 0.
    known: FileNumber,
    file: FileBytes,
    phase: UploadPhase,
}

impl Model for Upload {
    ghost use Rattle.std.specs.Prelude.{length, ◌≤◌};
    ghost use Rattle.client_notes.specs.Limits.{longest_file};
    ghost use Rattle.ftl0_client_job.specs.Upload.{IsWithin, Upload};

    ghost Value = { Upload };

    ghost view = { λ a. record { task = a.task; known = a.known; file = a.file; phase = a.phase } };

    ghost invariant = { λ a. (length a.file ≤ longest_file) × IsWithin (length a.file) a.phase };
}

impl Upload {
    /// An upload that waits for LOGIN_RESP.
    pub(crate) fn new(task: TaskNumber, known: FileNumber, file: FileBytes) -> Upload
        requires { length file ≤ longest_file }
        ensures { result ≡ new_upload task known file }
    {
        Upload {
            task,
            known,
            file,
            phase: UploadPhase::Login,
        }
    }

    /// Takes a packet: its row, or a stop. Takes no memory.
    pub(crate) fn take<D: Disk>(
        &mut self,
        disk: &mut D,
        packet: &Packet<'_>,
        notes: &mut Notes,
        replies: &mut Replies,
    ) -> Result<Option<Ending>, Halt>
        requires empty { replies.old.items ≡ [] }
        requires may { MayUpload D.Disk notes.old disk.old self.old }
        ensures { TakesAtOnce D.Disk (upload_row self.old (value_of packet.now))
            (with_notes self.old notes.old disk.old) (with_notes self.new notes.new disk.new) replies.new.items result }
    {
        let phase = self.phase;
        match phase {
            UploadPhase::Login => Ok(self.take_login(packet, replies)),
            UploadPhase::Go => self.take_go(disk, packet, notes),
            UploadPhase::Sending { .. } => self.take_sending(disk, packet, notes, replies),
            UploadPhase::Ack { number } => self.take_ack(disk, packet, notes, number),
        }
    }

    /// Login: LOGIN_RESP.
    fn take_login(&mut self, packet: &Packet<'_>, replies: &mut Replies) -> Option<Ending>
        requires empty { replies.old.items ≡ [] }
        requires login { self.old.phase ≡ UploadPhase.Login }
        ensures { Answers (login_row self.old (value_of packet.now)) self.old self.new replies.new.items (Ok result) }
    {
        let Packet::LoginResp { .. } = *packet else {
            return Some(strange(packet.kind()));
        };
        let upload = Packet::UploadCmd {
            number: self.known.get(),
            length: self.file.len() as u32,
        };
        write_packet(&upload, replies);
        self.phase = UploadPhase::Go;
        None
    }

    /// Go: UL_GO_RESP and UL_ERROR_RESP.
    fn take_go<D: Disk>(
        &mut self,
        disk: &mut D,
        packet: &Packet<'_>,
        notes: &mut Notes,
    ) -> Result<Option<Ending>, Halt>
        requires { MayGo D.Disk notes.old disk.old self.old }
        ensures { TakesAtOnce D.Disk (go_row self.old (value_of packet.now))
            (with_notes self.old notes.old disk.old) (with_notes self.new notes.new disk.new) [] result }
    {
        match *packet {
            Packet::UlGoResp { number, offset } => {
                self.send_from(disk, notes, FileNumber::new(number), offset)
            }
            Packet::UlErrorResp(code) => self.end_by_error(disk, notes, code),
            _ => Ok(Some(strange(packet.kind()))),
        }
    }

    /// Go, UL_GO_RESP: the file is sent from the offset on.
    fn send_from<D: Disk>(
        &mut self,
        disk: &mut D,
        notes: &mut Notes,
        number: FileNumber,
        offset: u32,
    ) -> Result<Option<Ending>, Halt>
        requires { MayGo D.Disk notes.old disk.old self.old }
        ensures { TakesAtOnce D.Disk (go_resp_row self.old number offset)
            (with_notes self.old notes.old disk.old) (with_notes self.new notes.new disk.new) [] result }
    {
        if !self.may_go(number, offset) {
            return Ok(Some(strange(UL_GO_RESP)));
        }
        self.note_number(disk, notes, number)?;
        self.phase = UploadPhase::Sending {
            number,
            place: offset,
        };
        Ok(None)
    }

    /// Whether no number of the file is known yet.
    fn is_new(&self) -> bool
        ensures { result ≡ is_new_upload self.now }
    {
        self.known.get() == 0
    }

    /// Whether the file may be sent by a UL_GO_RESP with this number and offset.
    fn may_go(&self, number: FileNumber, offset: u32) -> bool
        ensures { result ≡ may_be_sent self.now number offset }
    {
        if self.is_new() {
            0 < number.get() && offset == 0
        } else {
            number == self.known && offset as usize <= self.file.len()
        }
    }

    /// Notes the number of a new file.
    fn note_number<D: Disk>(
        &self,
        disk: &mut D,
        notes: &mut Notes,
        number: FileNumber,
    ) -> Result<(), Halt>
        requires go { MayGo D.Disk notes.old disk.old self.now }
        requires some { is_new_upload self.now ≡ true → 1 ≤ number }
        ensures { NotesAtOnce D.Disk notes.old notes.new disk.old disk.new (number_commands self.now number) result }
    {
        if self.is_new() {
            note_number(disk, notes, self.task, number)?;
        }
        Ok(())
    }

    /// Go, UL_ERROR_RESP: the file is refused, unless it is complete already.
    fn end_by_error<D: Disk>(
        &self,
        disk: &mut D,
        notes: &mut Notes,
        code: u8,
    ) -> Result<Option<Ending>, Halt>
        requires { MayGo D.Disk notes.old disk.old self.now }
        ensures { TakesAtOnce D.Disk (error_row self.now code)
            (with_notes self.now notes.old disk.old) (with_notes self.now notes.new disk.new) [] result }
    {
        if !self.is_new() && ErrorCode::FileComplete.is(code) {
            note_acked(disk, notes, self.task)?;
            return Ok(Some(acked(self.known)));
        }
        note_refused(disk, notes, self.task, code)?;
        Ok(Some(Ending::at_once(Outcome::Refused { code })))
    }

    /// Sending: UL_NAK_RESP, at which DATA_END ends the file.
    fn take_sending<D: Disk>(
        &self,
        disk: &mut D,
        packet: &Packet<'_>,
        notes: &mut Notes,
        replies: &mut Replies,
    ) -> Result<Option<Ending>, Halt>
        requires empty { replies.old.items ≡ [] }
        requires may { MayUpload D.Disk notes.old disk.old self.now }
        ensures { TakesAtOnce D.Disk (sending_row self.now (value_of packet.now))
            (with_notes self.now notes.old disk.old) (with_notes self.now notes.new disk.new) replies.new.items result }
    {
        let Packet::UlNakResp(code) = *packet else {
            return Ok(Some(strange(packet.kind())));
        };
        note_refused(disk, notes, self.task, code)?;
        write_packet(&Packet::DataEnd, replies);
        Ok(Some(Ending::later(Outcome::Refused { code })))
    }

    /// Ack: UL_ACK_RESP and UL_NAK_RESP.
    fn take_ack<D: Disk>(
        &self,
        disk: &mut D,
        packet: &Packet<'_>,
        notes: &mut Notes,
        number: FileNumber,
    ) -> Result<Option<Ending>, Halt>
        requires may { MayUpload D.Disk notes.old disk.old self.now }
        requires ack { self.now.phase ≡ UploadPhase.Ack number }
        requires some { 1 ≤ number }
        ensures { TakesAtOnce D.Disk (ack_row self.now number (value_of packet.now))
            (with_notes self.now notes.old disk.old) (with_notes self.now notes.new disk.new) [] result }
    {
        match *packet {
            Packet::UlAckResp => {
                note_acked(disk, notes, self.task)?;
                Ok(Some(acked(number)))
            }
            Packet::UlNakResp(code) => {
                note_refused(disk, notes, self.task, code)?;
                Ok(Some(Ending::at_once(Outcome::Refused { code })))
            }
            _ => Ok(Some(strange(packet.kind()))),
        }
    }

    /// Replaces what `out` has by what is due next: DATA of the next 254 octets, the last one shorter, or DATA_END if
    /// none is left. It answers false, and nothing changed, exactly if nothing is due. Takes no memory.
    pub(crate) fn fill(&mut self, out: &mut ArrayVec<u8, 256>) -> bool
        ensures { PutsDue (upload_due self.old) result self.old self.new out.old.items out.new.items }
    {
        let phase = self.phase;
        let UploadPhase::Sending { number, place } = phase else {
            return false;
        };
        let part = self.part_at(place);
        if part.is_empty() {
            write_packet(&Packet::DataEnd, out);
            self.phase = UploadPhase::Ack { number };
        } else {
            write_packet(&Packet::DataPart(&part), out);
            self.phase = UploadPhase::Sending {
                number,
                place: place + part.len() as u32,
            };
        }
        true
    }

    /// The octets of the next DATA from this place on, which lies within the file.
    fn part_at(&self, place: u32) -> ArrayVec<u8, MOST_DATA>
        requires { place ≤ length self.now.file }
        ensures { result.items ≡ take most_data (drop place self.now.file) }
    {
        let left = &self.file.as_slice()[place as usize..];
        let mut part = ArrayVec::new();
        part.try_extend_from_slice(&left[..left.len().min(MOST_DATA)])
            .unwrap();
        part
    }
}

/// The file of this number was acknowledged.
fn acked(number: FileNumber) -> Ending
    ensures { result ≡ ending_at_once (Outcome.Acked number) }
{
    Ending::at_once(Outcome::Acked { number })
}
