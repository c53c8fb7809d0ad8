//! The list of the files that a selection matches: what each packet gives to it (FTL0 1990, directories and
//! selections).

ghost use Rattle.std.specs.Prelude.{◌≡◌, ◌≤◌, [], length, Ok};
ghost use Rattle.ftl0_packets.specs.Values.{value_of};
ghost use Rattle.ftl0_client_job.specs.Directory.{data_end_row, data_row, directory_row, empty_row, listing_row};
ghost use Rattle.ftl0_client_job.specs.Directory.{login_row, new_directory};
ghost use Rattle.ftl0_client_job.specs.Directory.{is_empty_code, select_resp_row, selecting_row};
ghost use Rattle.ftl0_client_job.specs.Taking.{Answers, AnswersAlone};

use crate::ending::strange;
use crate::limits::LONGEST_LISTING;
use crate::phases::DirectoryPhase;
use crate::short::are_short_headers;
use crate::{Ending, Outcome, Replies};
use ftl0_packets::{ErrorCode, Packet, write_packet};
use px_base::{FileBytes, OutOfMemory};
use std::alloc::Global;
use std::marker::Model;

/// The types of DATA, DATA_END and DL_ERROR_RESP.
const DATA: u8 = 0;

const DATA_END: u8 = 1;

const DL_ERROR_RESP: u8 = 9;

/// The list of the files of a selection. Contracts see it as the `Directory` of `specs/Directory.antt`.
#[derive(Drop)]
pub(crate) struct Directory {
    tokens: FileBytes,
    /// The octets that came.
    listing: FileBytes,
    phase: DirectoryPhase,
}

impl Model for Directory {
    ghost use Rattle.std.specs.Prelude.{length, ◌≤◌};
    ghost use Rattle.ftl0_client_job.specs.Directory.{Directory, longest_listing};

    ghost Value = { Directory };

    ghost view = { λ a. record { tokens = a.tokens; listing = a.listing; phase = a.phase } };

    ghost invariant = { λ a. (length a.tokens ≤ 2047) × (length a.listing ≤ longest_listing) };
}

impl Directory {
    /// A list that waits for LOGIN_RESP. Takes no memory yet.
    pub(crate) fn new(alloc: Global, tokens: FileBytes) -> Directory
        requires { length tokens ≤ 2047 }
        ensures { result ≡ new_directory tokens }
    {
        Directory {
            tokens,
            listing: FileBytes::new(alloc),
            phase: DirectoryPhase::Login,
        }
    }

    /// The octets that came.
    pub(crate) fn listing(&self) -> &[u8]
        ensures { result.now ≡ self.now.listing }
    {
        self.listing.as_slice()
    }

    /// Takes a packet: its row. If there is no memory nothing changes. Takes memory.
    pub(crate) fn take(
        &mut self,
        packet: &Packet<'_>,
        replies: &mut Replies,
    ) -> Result<Option<Ending>, OutOfMemory>
        requires { replies.old.items ≡ [] }
        ensures { AnswersAlone (directory_row self.old (value_of packet.now)) self.old self.new replies.new.items result }
    {
        match self.phase {
            DirectoryPhase::Login => Ok(self.take_login(packet, replies)),
            DirectoryPhase::Selecting => Ok(self.take_selecting(packet, replies)),
            DirectoryPhase::Listing => self.take_listing(packet, replies),
        }
    }

    /// Login: LOGIN_RESP.
    fn take_login(&mut self, packet: &Packet<'_>, replies: &mut Replies) -> Option<Ending>
        requires { replies.old.items ≡ [] }
        ensures { Answers (login_row self.old (value_of packet.now)) self.old self.new replies.new.items (Ok result) }
    {
        let Packet::LoginResp { .. } = *packet else {
            return Some(strange(packet.kind()));
        };
        write_packet(&Packet::SelectCmd(self.tokens.as_slice()), replies);
        self.phase = DirectoryPhase::Selecting;
        None
    }

    /// Selecting: SELECT_RESP and DL_ERROR_RESP.
    fn take_selecting(&mut self, packet: &Packet<'_>, replies: &mut Replies) -> Option<Ending>
        requires { replies.old.items ≡ [] }
        ensures { Answers (selecting_row self.old (value_of packet.now)) self.old self.new replies.new.items (Ok result) }
    {
        match *packet {
            Packet::SelectResp(count) => self.begin(count, replies),
            Packet::DlErrorResp(code) => Some(Ending::at_once(Outcome::Refused { code })),
            _ => Some(strange(packet.kind())),
        }
    }

    /// Selecting, SELECT_RESP: the first headers are asked for, if there are any.
    fn begin(&mut self, count: u16, replies: &mut Replies) -> Option<Ending>
        requires { replies.old.items ≡ [] }
        ensures { Answers (select_resp_row self.old count) self.old self.new replies.new.items (Ok result) }
    {
        if count == 0 {
            return Some(Ending::at_once(Outcome::Listed));
        }
        write_packet(&Packet::DirShortCmd(0), replies);
        self.phase = DirectoryPhase::Listing;
        None
    }

    /// Listing: DATA, DATA_END and DL_ERROR_RESP.
    fn take_listing(
        &mut self,
        packet: &Packet<'_>,
        replies: &mut Replies,
    ) -> Result<Option<Ending>, OutOfMemory>
        requires { replies.old.items ≡ [] }
        ensures { AnswersAlone (listing_row self.old (value_of packet.now)) self.old self.new replies.new.items result }
    {
        match *packet {
            Packet::DataPart(octets) => self.take_data(octets),
            Packet::DataEnd => Ok(self.go_on(replies)),
            Packet::DlErrorResp(code) if says_empty(code) => Ok(Some(self.end())),
            Packet::DlErrorResp(code) => Ok(Some(Ending::at_once(Outcome::Refused { code }))),
            _ => Ok(Some(strange(packet.kind()))),
        }
    }

    /// Listing, DATA.
    fn take_data(&mut self, octets: &[u8]) -> Result<Option<Ending>, OutOfMemory>
        ensures { AnswersAlone (data_row self.old octets.now) self.old self.new [] result }
    {
        if octets.len() > LONGEST_LISTING - self.listing.len() {
            return Ok(Some(strange(DATA)));
        }
        self.listing.append(octets)?;
        Ok(None)
    }

    /// Listing, DATA_END: the next headers are asked for.
    fn go_on(&self, replies: &mut Replies) -> Option<Ending>
        requires { replies.old.items ≡ [] }
        ensures { Answers (data_end_row self.now) self.now self.now replies.new.items (Ok result) }
    {
        if !are_short_headers(self.listing.as_slice()) {
            return Some(strange(DATA_END));
        }
        write_packet(&Packet::DirShortCmd(0), replies);
        None
    }

    /// Listing, selection empty: the list is whole.
    fn end(&self) -> Ending
        ensures { Answers (empty_row self.now) self.now self.now [] (Ok (Some result)) }
    {
        if are_short_headers(self.listing.as_slice()) {
            Ending::at_once(Outcome::Listed)
        } else {
            strange(DL_ERROR_RESP)
        }
    }
}

/// Whether the code says that the selection is empty.
fn says_empty(code: u8) -> bool
    ensures { result ≡ is_empty_code code }
{
    ErrorCode::SelectionEmpty.is(code) || ErrorCode::AlsoSelectionEmpty.is(code)
}
