//! Downloads, directories and selections of one session: what each packet gives, and what is sent next.

ghost use Rattle.std.specs.Prelude.{◌≡◌, ◌↔◌, ◌<◌, ◌≤◌, [], length, min, take as front, IfNone, IfOk, IfSome, IsErr};
ghost use Rattle.std.specs.Prelude.{IsErrOf, IsTrue, OnErr};
ghost use Rattle.std.specs.Prelude.{OnOk, Some, false, true};
ghost use Rattle.std.specs.List.{list_all};
ghost use Rattle.std.specs.Option.{ForSome, option_map};
ghost use Rattle.ftl0_packets.specs.ErrorCodes.{octet_of};
ghost use Rattle.ftl0_packets.specs.Layout.{dl_error_resp, information, packet_text};
ghost use Rattle.ftl0_packets.specs.Values.{value_of};
ghost use Rattle.file_store.specs.Reads.{OnlyReads};
ghost use Rattle.file_store.specs.State.{IsKnown, IsReady, store_in, store_on};
ghost use Rattle.selection.specs.Values.{tree_of};
ghost use Rattle.ftl0_session.specs.Lists.Lists.{left_of};
ghost use Rattle.ftl0_session.specs.Downloads.Filling.{PutsDue, filled};
ghost use Rattle.ftl0_session.specs.Downloads.Needs.{AreComplete, IsDueIn, KeepsFiles, LiesIn, MayCommand, MayList};
ghost use Rattle.ftl0_session.specs.Downloads.Needs.{MaySend, MayTake};
ghost use Rattle.ftl0_session.specs.Downloads.Sending.{is_due as is_due_in, is_read, most_data, octets_due};
ghost use Rattle.ftl0_session.specs.Downloads.Sending.{octets_left};
ghost use Rattle.ftl0_session.specs.Downloads.Sending.{state_after, state_at_end};
ghost use Rattle.ftl0_session.specs.Downloads.Table.{asked_file, directory_row, download_cmd_row, file_of, has_file};
ghost use Rattle.ftl0_session.specs.Downloads.Table.{download_row, listed_files};
ghost use Rattle.ftl0_session.specs.Downloads.Table.{listing, lists_after, ready, reply_sending, reply_waiting};
ghost use Rattle.ftl0_session.specs.Downloads.Table.{select_row};
ghost use Rattle.ftl0_session.specs.Downloads.Taking.{MakesRow, SelectsBy, SelectsNone, answer_row};
ghost use Rattle.ftl0_session.specs.Downloads.Taking.{TakesByRow, due_by};
ghost use Rattle.ftl0_session.specs.Downloads.Taking.{made, made_by};

use crate::downloads::directory::{ShortForms, read_short_forms, read_spans_of_headers};
use crate::downloads::selecting::chosen_files;
use crate::downloads::span::{MOST_DATA, MOST_LISTED, Part, Span, Spans, read_spans};
use crate::lists::Lists;
use arrayvec::ArrayVec;
use disk_model::{Disk, DiskFault};
use file_store::{FileStore, HeaderFault};
use ftl0_packets::{ErrorCode, Packet, write_packet};
use px_base::{Call, FileNumber};
use selection::Selection;
use std::marker::Model;

/// The most octets of tokens in a packet.
const MOST_TOKENS: usize = 2047;

/// The octets of the replies to one packet.
type Replies = ArrayVec<u8, 32>;

/// What a session does apart from uploading.
///
/// A line of the picture is a packet, then `/` and the reply, `-` for none; what has no `/` is what
/// [`Downloads::fill`] sends. The rows are in specs/Downloads/Table.antt, what is sent in
/// specs/Downloads/Sending.antt. Any other packet has no row here, and changes nothing.
///
/// ```text
/// +---------+  DOWNLOAD_CMD           / -                                    +-------------------+
/// | Ready   |--------------------------------------------------------------->| Sending           |
/// |         |                                                                | sends DATA        |
/// |         |  DL_NAK_CMD             / DL_ABORTED_RESP                      |                   |
/// |         |  a read fails           sends DL_ERROR_RESP 3                  |                   |
/// |         |<---------------------------------------------------------------|                   |
/// |         |                                                                +-------------------+
/// |         |                                          no octets are left:    |
/// |         |                                          sends DATA_END         v
/// |         |                                                                +-------------------+
/// |         |  DL_ACK_CMD             / DL_COMPLETED_RESP                    | Waiting           |
/// |         |  DL_NAK_CMD             / DL_ABORTED_RESP                      |                   |
/// |         |<---------------------------------------------------------------|                   |
/// |         |                                                                +-------------------+
/// |         |  DIR_SHORT_CMD          / -                                    +-------------------+
/// |         |--------------------------------------------------------------->| ListingShort      |
/// |         |  no octets are left     sends DATA_END                         | sends DATA        |
/// |         |<---------------------------------------------------------------|                   |
/// |         |                                                                +-------------------+
/// |         |  DIR_LONG_CMD           / -                                    +-------------------+
/// |         |--------------------------------------------------------------->| ListingLong       |
/// |         |  no octets are left     sends DATA_END                         | sends DATA        |
/// |         |  a read fails           sends DL_ERROR_RESP 3                  |                   |
/// |         |<---------------------------------------------------------------|                   |
/// +---------+                                                                +-------------------+
///
/// In Ready, which stays:
///   DOWNLOAD_CMD, refused                    / DL_ERROR_RESP 10, 11, 4, 2
///   DIR_SHORT_CMD, DIR_LONG_CMD, refused     / DL_ERROR_RESP 11, 4; 3 if a read fails
///   SELECT_CMD                               / SELECT_RESP count
///   SELECT_CMD, refused                      / DL_ERROR_RESP 8; 3 if a read fails
/// ```
#[derive(Clone, Copy)]
enum Phase {
    /// It is ready for a command.
    Ready,
    /// It sends these octets of a file.
    Sending(Span),
    /// The file was sent, and it waits for DL_ACK_CMD or DL_NAK_CMD.
    Waiting,
    /// It sends short forms of headers.
    ListingShort,
    /// It sends headers.
    ListingLong,
}

/// How headers are listed.
#[derive(Clone, Copy)]
enum Form {
    /// DIR_SHORT_CMD: their short forms.
    Short,
    /// DIR_LONG_CMD: as they are stored.
    Long,
}

/// The downloads, directories and selections of one session: what is due to its caller. Contracts see it as a
/// `DownloadState`.
#[derive(Drop)]
pub struct Downloads {
    phase: Phase,
    /// The short forms that are listed, one after another.
    short_forms: ShortForms,
    /// How many octets of them were sent.
    sent: usize,
    /// Where the headers lie that are listed, and how much of them is due.
    headers: Spans,
}

impl Model for Downloads {
    ghost use Rattle.ftl0_session.specs.Downloads.Table.{DownloadState};

    ghost Value = { DownloadState };

    ghost use Rattle.ftl0_session.specs.Downloads.View.{IsSent, state_in};

    ghost view = { state_in };

    ghost invariant = { IsSent };
}

impl Downloads {
    /// Nothing is due: the session is ready for a command. Takes no memory.
    pub fn new() -> Downloads
        ensures { result ≡ ready }
    {
        Downloads {
            phase: Phase::Ready,
            short_forms: ArrayVec::new(),
            sent: 0,
            headers: ArrayVec::new(),
        }
    }

    /// Whether the session is ready for a command: it sends nothing, and waits for neither DL_ACK_CMD nor DL_NAK_CMD.
    /// Takes no memory.
    pub fn is_ready(&self) -> bool
        ensures { IsTrue result ↔ (self.now ≡ ready) }
    {
        matches!(self.phase, Phase::Ready)
    }

    /// Takes a packet: one row of the session's table, whose replies are put in place of what `replies` holds. It
    /// answers false, and nothing changed, exactly when the packet has no row in the state. A directory command reads
    /// the headers of its files, and SELECT_CMD those of all complete files; a read that fails gives code 3. Takes no
    /// memory.
    pub fn take<D: Disk>(
        &mut self,
        disk: &mut D,
        packet: &Packet<'_>,
        caller: Call,
        store: &mut FileStore,
        lists: &mut Lists,
        replies: &mut Replies,
    ) -> bool
        requires { MayTake D.Disk store.old disk.old lists.old self.old }

        // The answer is the packet's row, if it has one.
        ensures takes { TakesByRow D.Disk store.old
            (λ files. download_row caller files lists.old self.old (value_of packet.now)) disk.old disk.new
            (made self.old lists.old replies.old.items) (made self.new lists.new replies.new.items) result }
        ensures keeps { KeepsFiles D.Disk store.old store.new disk.new lists.new self.new }
    {
        match self.phase {
            Phase::Ready => self.take_command(disk, packet, caller, store, lists, replies),
            Phase::Sending(_) => self.end_by(reply_in_sending(packet), replies),
            Phase::Waiting => self.end_by(reply_in_waiting(packet), replies),
            Phase::ListingShort | Phase::ListingLong => false,
        }
    }

    /// Puts what is due next in place of what `out` holds: DATA of the next 254 octets, the last one shorter, or
    /// DATA_END if none is left; or code 3 instead of a DATA whose octets can't be read, and only then. It answers
    /// false, and nothing changed, exactly when nothing is due. It reads what it sends. Takes no memory.
    #[inline(always)]
    pub fn fill<D: Disk>(
        &mut self,
        disk: &mut D,
        store: &mut FileStore,
        out: &mut ArrayVec<u8, 256>,
    ) -> bool
        requires { MaySend D.Disk store.old disk.old self.old }
        ensures puts { PutsDue D.Disk (store_on D.Disk store.old disk.old) (filled disk.old self.old out.old.items)
            (filled disk.new self.new out.new.items) result }
        ensures due { result ≡ is_due_in self.old }
        ensures none { result ≡ false → (self.new ≡ self.old) × (disk.new ≡ disk.old)
            × (out.new.items ≡ out.old.items) }
        ensures some { result ≡ true → 0 < length out.new.items }
        ensures fewer { result ≡ true → octets_left (store_in store.old) self.new
            < octets_left (store_in store.old) self.old }
        ensures store { store.new ≡ store.old }
        ensures may { MaySend D.Disk store.new disk.new self.new }
    {
        if !self.is_due() {
            return false;
        }
        let mut part = ArrayVec::new();
        match self.read_part(disk, store, &mut part) {
            Err(DiskFault) => {
                self.phase = Phase::Ready;
                refuse(ErrorCode::ServerFsys, out);
            }
            Ok(()) if part.is_empty() => {
                self.end();
                write_packet(&Packet::DataEnd, out);
            }
            Ok(()) => write_packet(&Packet::DataPart(&part), out),
        }
        true
    }

    /// Whether anything is due.
    fn is_due(&self) -> bool
        ensures { result ≡ is_due_in self.now }
    {
        !matches!(self.phase, Phase::Ready | Phase::Waiting)
    }

    /// All that was due was sent.
    fn end(&mut self)
        ensures { self.new ≡ state_at_end self.old }
    {
        self.phase = match self.phase {
            Phase::Ready | Phase::ListingShort | Phase::ListingLong => Phase::Ready,
            Phase::Sending(_) | Phase::Waiting => Phase::Waiting,
        };
    }

    /// Reads the octets of the next DATA, and moves on past them. After a fault what is due is open.
    #[inline(never)]
    fn read_part<D: Disk>(
        &mut self,
        disk: &mut D,
        store: &mut FileStore,
        part: &mut Part,
    ) -> Result<(), DiskFault>
        requires may { MaySend D.Disk store.old disk.old self.old }
        requires empty { part.old.items ≡ [] }
        ensures octets { OnOk result (IsKnown D.Disk disk.old
            → part.new.items ≡ front most_data (octets_due (store_on D.Disk store.old disk.old) self.old)) }
        ensures count { OnOk result
            (length part.new.items ≡ min most_data (length (octets_due (store_in store.old) self.old))) }
        ensures state { OnOk result (self.new ≡ state_after most_data self.old) }
        ensures some { OnErr result (0 < length (octets_due (store_in store.old) self.old)) }
        ensures read { OnErr result (IsTrue (is_read self.old)) }
        ensures reads { OnlyReads D.Disk (IsErr result) store.old store.new disk.old disk.new }
    {
        match self.phase {
            Phase::Ready | Phase::Waiting => {}
            Phase::Sending(span) => {
                let mut span = span;
                span.read(disk, store, part)?;
                self.phase = Phase::Sending(span);
            }
            Phase::ListingShort => {
                let left = &self.short_forms[self.sent..];
                let count = left.len().min(MOST_DATA);
                part.try_extend_from_slice(&left[..count]).unwrap();
                self.sent += count;
            }
            Phase::ListingLong => self.headers = read_spans(disk, store, &self.headers, part)?,
        }
        Ok(())
    }

    /// Ready: DOWNLOAD_CMD, the directory commands and SELECT_CMD.
    fn take_command<D: Disk>(
        &mut self,
        disk: &mut D,
        packet: &Packet<'_>,
        caller: Call,
        store: &mut FileStore,
        lists: &mut Lists,
        replies: &mut Replies,
    ) -> bool
        requires { MayCommand D.Disk store.old disk.old lists.old self.old }
        ensures takes { TakesByRow D.Disk store.old
            (λ files. download_row caller files lists.old self.old (value_of packet.now)) disk.old disk.new
            (made self.old lists.old replies.old.items) (made self.new lists.new replies.new.items) result }
        ensures keeps { KeepsFiles D.Disk store.old store.new disk.new lists.new self.new }
    {
        match *packet {
            Packet::DownloadCmd {
                number,
                offset,
                lock,
            } => self.download(number, offset, lock, caller, store, lists, replies),
            Packet::DirShortCmd(number) => {
                self.list(disk, Form::Short, number, caller, store, lists, replies)
            }
            Packet::DirLongCmd(number) => {
                self.list(disk, Form::Long, number, caller, store, lists, replies)
            }
            Packet::SelectCmd(tokens) => select(disk, tokens, caller, store, lists, replies),
            _ => return false,
        }
        true
    }

    /// Ready, DOWNLOAD_CMD: the file is sent from the offset on, or the command is refused.
    fn download(
        &mut self,
        number: u32,
        offset: u32,
        lock: u8,
        caller: Call,
        store: &FileStore,
        lists: &mut Lists,
        replies: &mut Replies,
    )
        requires ready { self.old ≡ ready }
        requires complete { AreComplete (store_in store.now) lists.old }
        ensures row { made self.new lists.new replies.new.items ≡ made_by
            (download_cmd_row caller (store_in store.now) lists.old number offset lock) }
        ensures due { IsDueIn (store_in store.now) self.new }
        ensures complete { AreComplete (store_in store.now) lists.new }
    {
        match asked_span(number, offset, lock, caller, store, lists) {
            Ok(span) => {
                take_numbers(number, 1, caller, lists);
                self.phase = Phase::Sending(span);
                replies.clear();
            }
            Err(code) => refuse(code, replies),
        }
    }

    /// Ready, DIR_SHORT_CMD or DIR_LONG_CMD: the headers of the files are listed, or the command is refused.
    fn list<D: Disk>(
        &mut self,
        disk: &mut D,
        form: Form,
        number: u32,
        caller: Call,
        store: &mut FileStore,
        lists: &mut Lists,
        replies: &mut Replies,
    )
        requires { MayCommand D.Disk store.old disk.old lists.old self.old }
        ensures row { MakesRow D.Disk store.old disk.old disk.new
            (λ files. directory_row caller files lists.old number (due_by form))
            (made self.new lists.new replies.new.items) }
        ensures keeps { KeepsFiles D.Disk store.old store.new disk.new lists.new self.new }
    {
        let numbers = files_to_list(number, caller, lists);
        if numbers.is_empty() {
            return refuse(ErrorCode::SelectionEmpty, replies);
        }
        if !are_files(store, &numbers) {
            return refuse(ErrorCode::NoSuchFileNumber, replies);
        }
        match self.read_headers(disk, form, &numbers, store) {
            Ok(()) => {
                take_numbers(number, numbers.len(), caller, lists);
                replies.clear();
            }
            Err(_fault) => refuse(ErrorCode::ServerFsys, replies),
        }
    }

    /// Reads the headers of complete files, which are listed then. After a fault the session is ready as before.
    fn read_headers<D: Disk>(
        &mut self,
        disk: &mut D,
        form: Form,
        numbers: &[u32],
        store: &mut FileStore,
    ) -> Result<(), HeaderFault>
        requires may { MayList D.Disk store.old disk.old numbers.now }
        requires ready { self.old ≡ ready }
        ensures listing { OnOk result (IsKnown D.Disk disk.old
            → self.new ≡ listing (due_by form (store_on D.Disk store.old disk.old) numbers.now)) }
        ensures ready { OnErr result (self.new ≡ ready) }
        ensures due { IsDueIn (store_in store.new) self.new }
        ensures there { IsErrOf result HeaderFault.NoHeader → ¬ IsKnown D.Disk disk.old }
        ensures reads { OnlyReads D.Disk (IsErrOf result HeaderFault.Disk) store.old store.new disk.old disk.new }
    {
        match form {
            Form::Short => {
                self.sent = 0;
                read_short_forms(disk, store, numbers, &mut self.short_forms)?;
                self.phase = Phase::ListingShort;
            }
            Form::Long => {
                self.headers = read_spans_of_headers(disk, store, numbers)?;
                self.phase = Phase::ListingLong;
            }
        }
        Ok(())
    }

    /// A download ends with this reply, if there is one.
    fn end_by(&mut self, reply: Option<Packet<'static>>, replies: &mut Replies) -> bool
        requires { ForSome reply (λ packet. information (value_of packet) ≡ []) }
        ensures none { IfNone reply.entry ((result ≡ false) × (self.new ≡ self.old)
            × (replies.new.items ≡ replies.old.items)) }
        ensures some { IfSome reply.entry (λ packet. (result ≡ true) × (self.new ≡ ready)
            × (replies.new.items ≡ packet_text (value_of packet))) }
    {
        let Some(packet) = reply else {
            return false;
        };
        self.phase = Phase::Ready;
        write_packet(&packet, replies);
        true
    }
}

/// The reply to a packet while a file is sent, if it has one.
fn reply_in_sending(packet: &Packet<'_>) -> Option<Packet<'static>>
    ensures reply { option_map value_of result ≡ reply_sending (value_of packet.now) }
    ensures bare { IfSome result (λ reply. information (value_of reply) ≡ []) }
{
    match packet {
        Packet::DlNakCmd => Some(Packet::DlAbortedResp),
        _ => None,
    }
}

/// The reply to a packet while DL_ACK_CMD or DL_NAK_CMD is waited for, if it has one.
fn reply_in_waiting(packet: &Packet<'_>) -> Option<Packet<'static>>
    ensures reply { option_map value_of result ≡ reply_waiting (value_of packet.now) }
    ensures bare { IfSome result (λ reply. information (value_of reply) ≡ []) }
{
    match packet {
        Packet::DlAckCmd => Some(Packet::DlCompletedResp),
        Packet::DlNakCmd => Some(Packet::DlAbortedResp),
        _ => None,
    }
}

/// The octets of a file that a DOWNLOAD_CMD asks for, or the code of its refusal.
fn asked_span(
    number: u32,
    offset: u32,
    lock: u8,
    caller: Call,
    store: &FileStore,
    lists: &Lists,
) -> Result<Span, ErrorCode>
    ensures row { download_cmd_row caller (store_in store.now) lists.now number offset lock
        ≡ answer_row caller lists.now number result }
    ensures within { IfOk result (λ span. LiesIn (store_in store.now) span.number span.place span.last) }
    ensures left { OnOk result (number ≡ 0 → 1 ≤ length (left_of lists.now caller)) }
{
    if lock != 0 {
        return Err(ErrorCode::NoSuchDestination);
    }
    let asked = first_asked(number, caller, lists).ok_or(ErrorCode::SelectionEmpty)?;
    let last = length_of(store, asked).ok_or(ErrorCode::NoSuchFileNumber)?;
    if offset > last {
        return Err(ErrorCode::BadContinue);
    }
    Ok(Span {
        number: asked,
        place: offset,
        last,
    })
}

/// The file that a DOWNLOAD_CMD with this number asks for: for number 0 the first one that is left in the caller's
/// list.
fn first_asked(number: u32, caller: Call, lists: &Lists) -> Option<FileNumber>
    ensures { result ≡ asked_file lists.now caller number }
{
    if number == 0 {
        lists.numbers(caller).first().copied().map(FileNumber::new)
    } else {
        Some(FileNumber::new(number))
    }
}

/// The files that a directory command with this number lists: for number 0 the next ones that are left in the caller's
/// list, at most ten.
fn files_to_list(number: u32, caller: Call, lists: &Lists) -> ArrayVec<u32, MOST_LISTED>
    ensures { result.items ≡ listed_files lists.now caller number }
{
    let mut files = ArrayVec::new();
    if number == 0 {
        let left = lists.numbers(caller);
        files
            .try_extend_from_slice(&left[..left.len().min(MOST_LISTED)])
            .unwrap();
    } else {
        files.push(number);
    }
    files
}

/// The length of the complete file of this number, if there is one.
fn length_of(store: &FileStore, number: FileNumber) -> Option<u32>
    ensures { result ≡ option_map length (file_of (store_in store.now) number) }
{
    match store.info(number) {
        Some(info) if info.complete => Some(info.held),
        _ => None,
    }
}

/// Whether each of these numbers is that of a complete file.
fn are_files(store: &FileStore, numbers: &[u32]) -> bool
    ensures { result ≡ list_all (has_file (store_in store.now)) numbers.now }
{
    numbers.iter().all(|number| length_of(store, FileNumber::new(*number)).is_some())
}

/// A command with this number takes `count` numbers from the beginning of the caller's list: only one with number 0
/// does.
fn take_numbers(number: u32, count: usize, caller: Call, lists: &mut Lists)
    requires { number ≡ 0 → count ≤ length (left_of lists.old caller) }
    ensures { lists.new ≡ lists_after lists.old caller number count }
{
    if number == 0 {
        lists.take(caller, count);
    }
}

/// Ready, SELECT_CMD: the caller's list becomes the complete files that match the selection, or the command is refused.
fn select<D: Disk>(
    disk: &mut D,
    tokens: &[u8],
    caller: Call,
    store: &mut FileStore,
    lists: &mut Lists,
    replies: &mut Replies,
)
    requires ready { IsReady D.Disk store.old disk.old }
    requires complete { AreComplete (store_in store.old) lists.old }
    ensures row { MakesRow D.Disk store.old disk.old disk.new
        (λ files. select_row caller files lists.old tokens.now) (made ready lists.new replies.new.items) }
    ensures keeps { KeepsFiles D.Disk store.old store.new disk.new lists.new ready }
{
    let Some(selection) = selection_of(tokens) else {
        return refuse(ErrorCode::PoorlyFormedSel, replies);
    };
    match chosen_files(disk, store, &selection) {
        Ok(numbers) => {
            lists.select(caller, &numbers);
            write_packet(&Packet::SelectResp(numbers.len() as u16), replies);
        }
        Err(_fault) => refuse(ErrorCode::ServerFsys, replies),
    }
}

/// The selection of these tokens; none if they have a fault, or are more than a packet has.
fn selection_of(tokens: &[u8]) -> Option<Selection>
    ensures some { IfSome result (λ selection. SelectsBy tokens.now (tree_of selection)) }
    ensures none { IfNone result (SelectsNone tokens.now) }
{
    if tokens.len() > MOST_TOKENS {
        return None;
    }
    Selection::read(tokens).ok()
}

/// Refuses a command with this code, or says it instead of a DATA: DL_ERROR_RESP in place of what `out` holds.
fn refuse<const N: usize>(code: ErrorCode, out: &mut ArrayVec<u8, N>)
    requires { 3 ≤ N }
    ensures { out.new.items ≡ packet_text (dl_error_resp (octet_of code)) }
{
    write_packet(&Packet::DlErrorResp(code.code()), out);
}
