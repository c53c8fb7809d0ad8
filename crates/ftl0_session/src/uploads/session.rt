//! The uploads of one caller's session: what each packet of uploading gives (FTL0 1990, uploading).

ghost use Rattle.std.specs.Prelude.{◌≡◌, ◌≢◌, ◌↔◌, ℕ, [], ◌∷◌, false, true, IsErr, IsTrue, None, Ok};
ghost use Rattle.ftl0_packets.specs.ErrorCodes.{octet_of};
ghost use Rattle.ftl0_packets.specs.Items.{kind_of_item, texts};
ghost use Rattle.ftl0_packets.specs.Layout.{data_end, data_part, packet_text, ul_ack_resp, ul_error_resp};
ghost use Rattle.ftl0_packets.specs.Layout.{ul_go_resp, ul_nak_resp, upload_cmd};
ghost use Rattle.ftl0_packets.specs.Values.{item_of};
ghost use Rattle.file_store.specs.EntriesKept.{KeepsComplete};
ghost use Rattle.file_store.specs.State.{StandsOn, store_in};
ghost use Rattle.ftl0_session.specs.Uploads.Asked.{AnswersAborting, AnswersAsked};
ghost use Rattle.ftl0_session.specs.Uploads.Others.{KeepsOtherCallers};
ghost use Rattle.ftl0_session.specs.Uploads.Session.{command as in_command, is_upload_kind};
ghost use Rattle.disk_model.specs.AtDisk.{at};
ghost use Rattle.ftl0_session.specs.Uploads.SessionState.{IsHeld, IsOnlyOut, MayTake, NoOtherOut, Parks};
ghost use Rattle.ftl0_session.specs.Uploads.SessionState.{new_session, receiving_of, state_of};
ghost use Rattle.ftl0_session.specs.Uploads.Taking.{Answered, AnsweredAlone, AnswersRefusal, TakesPacket, working_at};
ghost use Rattle.ftl0_session.specs.declared.uploads.phase.Phase.TheVariants.{Command as command_phase};
ghost use Rattle.ftl0_session.specs.declared.uploads.phase.Phase.TheVariants.{Receiving as receiving_phase};
ghost use Rattle.ftl0_session.specs.Uploads.Events.{packet_of};

use crate::uploads::Phase;
use crate::uploads::asked::Asked;
use arrayvec::ArrayVec;
use disk_model::{Disk, DiskFault};
use file_store::laws::state_law;
use file_store::{
    AppendRefusal, BeginRefusal, FileStore, OpenUpload, Receipt, ResumeRefusal, SealRefusal,
};
use ftl0_packets::{ErrorCode, Malformed, Packet, write_packet};
use px_base::{Call, FileNumber, Moment};
use std::marker::Model;
use std::mem;

/// The octets of the replies to one packet.
pub type Replies = ArrayVec<u8, 32>;

/// The session of one caller. It must be ended, which parks its upload. Contracts see it as a `SessionState`.
pub struct Session {
    caller: Call,
    phase: Phase,
}

impl Model for Session {
    ghost use Rattle.ftl0_session.specs.Uploads.SessionState.{SessionState};

    ghost Value = { SessionState };

    ghost view = { λ a. record { caller = a.caller; phase = a.phase } };
}

/// What a packet gives in a phase: the phase after it, and the answer.
type Taken = (Phase, Result<(), DiskFault>);

impl Session {
    /// The session of this caller, in the state Command; nothing is replied. Takes no memory.
    pub fn new(caller: Call) -> Session
        ensures { result ≡ new_session caller }
    {
        Session {
            caller,
            phase: Phase::Command,
        }
    }

    /// Whether it waits for a command: it receives no file, and waits for the end of none. Takes no memory.
    pub fn is_ready(&self) -> bool
        ensures { IsTrue result ↔ (self.now.phase ≡ command_phase) }
    {
        matches!(self.phase, Phase::Command)
    }

    /// Whose session it is. Takes no memory.
    pub fn caller(&self) -> Call
        ensures { result ≡ self.now.caller }
    {
        self.caller
    }

    /// Takes a packet of uploading: its row of the session's table, or code 3 if a write or a sync of the disk fails.
    /// The row's commands are on the disk before its replies are given. A read that fails gives the row for that. Takes
    /// no memory.
    pub fn take<D: Disk>(
        &mut self,
        disk: &mut D,
        packet: Result<Packet<'_>, Malformed>,
        moment: Moment,
        store: &mut FileStore,
        replies: &mut Replies,
    ) -> Result<(), DiskFault>
        requires kind { is_upload_kind (kind_of_item (item_of packet)) ≡ true }
        requires may { MayTake D.Disk store.old disk.old self.old.caller self.old.phase }

        // The answer is the packet's row, and the row's commands are on the disk; or a write or a sync failed in one of
        // them. A read that failed gives the row for that.
        ensures takes { TakesPacket D.Disk (packet_of self.old.caller moment (item_of packet.entry))
            (working_at (at store.old disk.old) (state_of store.old self.old.phase))
            (working_at (at store.new disk.new) (state_of store.new self.new.phase)) replies.new.items result }
        ensures failed { IsErr result → store.new.journal.failed ≡ true }
        ensures kept { KeepsComplete (store_in store.old) (store_in store.new) }
        ensures others { KeepsOtherCallers store.old store.new self.old.caller }

        // What the next packet needs.
        ensures caller { self.new.caller ≡ self.old.caller }
        ensures healthy { ¬ IsErr result → store.new.journal.failed ≡ false }
        ensures stands_on { StandsOn D.Disk store.new disk.new }
        ensures held { IsHeld store.new self.new }
        ensures only { IsOnlyOut store.new self.new }
    {
        let phase = mem::replace(&mut self.phase, Phase::Command);
        let asked = Asked::of(packet);
        let (phase, answer) = self.take_asked(disk, phase, asked, moment, store, replies);
        match mem::replace(&mut self.phase, phase) {
            Phase::Command | Phase::Aborting => answer,
            Phase::Receiving(_up) => unreachable!(),
        }
    }

    /// Acknowledges a file: no other call replies UL_ACK_RESP, and none does without a receipt, which it spends. Takes
    /// no memory.
    pub fn ack(&self, receipt: Receipt, replies: &mut Replies)
        ensures { replies.new.items ≡ packet_text ul_ack_resp }
    {
        receipt.spend();
        write_packet(&Packet::UlAckResp, replies);
    }

    /// Ends the session, and parks its upload. No upload of an entry of its caller is out then, if none was except the
    /// session's own. Takes no memory.
    pub fn end(self, store: &mut FileStore)
        requires { IsHeld store.old self }
        ensures parks { Parks store.old store.new self.phase }
        ensures only { IsOnlyOut store.old self → NoOtherOut store.new self.caller None }
        ensures others { KeepsOtherCallers store.old store.new self.caller }
    {
        let Session { caller: _, phase } = self;
        match phase {
            Phase::Receiving(up) => store.park(up),
            Phase::Command | Phase::Aborting => {}
        }
    }

    /// What is asked of the session in this phase, which was taken from it: one row of its table.
    fn take_asked<D: Disk>(
        &self,
        disk: &mut D,
        phase: Phase,
        asked: Asked<'_>,
        moment: Moment,
        store: &mut FileStore,
        replies: &mut Replies,
    ) -> Taken
        requires { MayTake D.Disk store.old disk.old self.now.caller phase }
        ensures { AnswersAsked asked.entry
            (λ item. Answered D.Disk (packet_of self.now.caller moment item) (state_of store.old phase)
            (at store.old disk.old) (at store.new disk.new) replies.new.items result) }
    {
        match phase {
            Phase::Command => take_command(disk, self.caller, asked, moment, store, replies),
            Phase::Receiving(up) => self.take_receiving(disk, up, asked, moment, store, replies),
            Phase::Aborting => take_aborting(asked, replies),
        }
    }

    /// Receiving: DATA and DATA_END.
    fn take_receiving<D: Disk>(
        &self,
        disk: &mut D,
        up: OpenUpload,
        asked: Asked<'_>,
        moment: Moment,
        store: &mut FileStore,
        replies: &mut Replies,
    ) -> Taken
        requires { MayTake D.Disk store.old disk.old self.now.caller (receiving_phase up) }
        ensures { AnswersAsked asked.entry
            (λ item. Answered D.Disk (packet_of self.now.caller moment item) (receiving_of store.old up)
            (at store.old disk.old) (at store.new disk.new) replies.new.items result) }
    {
        match asked {
            Asked::Part(octets) => take_data(disk, self.caller, up, octets, store, replies),
            Asked::End => self.take_end(disk, up, moment, store, replies),
            _ => refuse(Phase::Receiving(up), ErrorCode::IllFormedCmd, replies),
        }
    }

    /// Receiving, DATA_END: the file is sealed and acknowledged, or refused; or it can't be read, and stays under way.
    fn take_end<D: Disk>(
        &self,
        disk: &mut D,
        up: OpenUpload,
        moment: Moment,
        store: &mut FileStore,
        replies: &mut Replies,
    ) -> Taken
        requires { MayTake D.Disk store.old disk.old self.now.caller (receiving_phase up) }
        ensures { Answered D.Disk (packet_of self.now.caller moment (Ok data_end)) (receiving_of store.old up)
            (at store.old disk.old) (at store.new disk.new) replies.new.items result }
    {
        match store.seal(disk, up, moment) {
            Ok(receipt) => {
                self.ack(receipt, replies);
                (Phase::Command, Ok(()))
            }
            Err(SealRefusal::Short(up)) => {
                store.park(up);
                reply_nak(ErrorCode::BodyCheck, replies);
                (Phase::Command, Ok(()))
            }
            Err(SealRefusal::Header { code }) => {
                write_packet(&Packet::UlNakResp(code), replies);
                (Phase::Command, Ok(()))
            }
            Err(SealRefusal::Read(up)) => {
                store.park(up);
                reply_nak(ErrorCode::ServerFsys, replies);
                (Phase::Command, Ok(()))
            }
            Err(SealRefusal::Disk) => {
                reply_nak(ErrorCode::ServerFsys, replies);
                (Phase::Command, Err(DiskFault))
            }
            Err(SealRefusal::Failed) => unreachable!(),
        }
    }
}

/// Command: UPLOAD_CMD, for a new file or for one that goes on.
fn take_command<D: Disk>(
    disk: &mut D,
    caller: Call,
    asked: Asked<'_>,
    moment: Moment,
    store: &mut FileStore,
    replies: &mut Replies,
) -> Taken
    requires { MayTake D.Disk store.old disk.old caller command_phase }
    ensures { AnswersAsked asked.entry (λ item. Answered D.Disk (packet_of caller moment item) in_command
        (at store.old disk.old) (at store.new disk.new) replies.new.items result) }
{
    match asked {
        Asked::Upload { number: 0, length } => begin(disk, caller, length, moment, store, replies),
        Asked::Upload { number, length } => {
            let number = FileNumber::new(number);
            resume(caller, number, length, store, replies)
        }
        _ => refuse(Phase::Command, ErrorCode::IllFormedCmd, replies),
    }
}

/// Begins a new file.
fn begin<D: Disk>(
    disk: &mut D,
    caller: Call,
    length: u32,
    moment: Moment,
    store: &mut FileStore,
    replies: &mut Replies,
) -> Taken
    requires { MayTake D.Disk store.old disk.old caller command_phase }
    ensures { Answered D.Disk (packet_of caller moment (Ok (upload_cmd 0 length))) in_command
        (at store.old disk.old) (at store.new disk.new) replies.new.items result }
{
    // No entry has the number that comes next.
    state_law(store);
    match store.begin(disk, caller, length, moment) {
        Ok(up) => {
            go_on(up.number(), 0, replies);
            (Phase::Receiving(up), Ok(()))
        }
        Err(refusal) => (Phase::Command, refuse_begin(refusal, replies)),
    }
}

/// Answers a refusal to begin a file. The store hadn't failed before.
fn refuse_begin(refusal: BeginRefusal, replies: &mut Replies) -> Result<(), DiskFault>
    requires healthy { refusal ≢ BeginRefusal.Failed }
    ensures { AnswersRefusal refusal replies.new.items result }
{
    match refusal {
        BeginRefusal::TooLong
        | BeginRefusal::TooMany
        | BeginRefusal::NumbersGone
        | BeginRefusal::NoRoom { .. } => {
            reply_error(ErrorCode::NoRoom, replies);
            Ok(())
        }
        BeginRefusal::Disk => {
            reply_error(ErrorCode::ServerFsys, replies);
            Err(DiskFault)
        }
        BeginRefusal::Failed => unreachable!(),
    }
}

/// Goes on with a file that was begun before.
fn resume(
    caller: Call,
    number: FileNumber,
    length: u32,
    store: &mut FileStore,
    replies: &mut Replies,
) -> Taken
    requires healthy { store.old.journal.failed ≡ false }
    requires only { NoOtherOut store.old caller None }
    requires number { number ≢ 0 }
    ensures { (moment : ℕ) → AnsweredAlone (packet_of caller moment (Ok (upload_cmd number length))) in_command
        store.old store.new replies.new.items result }
{
    match store.resume(number, caller, length) {
        Ok(up) => {
            go_on(number, up.held(), replies);
            (Phase::Receiving(up), Ok(()))
        }
        Err(ResumeRefusal::NoSuch) => refuse(Phase::Command, ErrorCode::NoSuchFileNumber, replies),
        Err(ResumeRefusal::Bad) => refuse(Phase::Command, ErrorCode::BadContinue, replies),
        Err(ResumeRefusal::Complete) => refuse(Phase::Command, ErrorCode::FileComplete, replies),
        Err(ResumeRefusal::Failed) => unreachable!(),
    }
}

/// Lets the octets of the file of this number come, from this place on.
fn go_on(number: FileNumber, offset: u32, replies: &mut Replies)
    ensures { replies.new.items ≡ texts (ul_go_resp number offset ∷ []) }
{
    let granted = Packet::UlGoResp {
        number: number.get(),
        offset,
    };
    write_packet(&granted, replies);
}

/// Refuses a packet with this code. The phase stays.
fn refuse(phase: Phase, code: ErrorCode, replies: &mut Replies) -> Taken
    ensures text { replies.new.items ≡ texts (ul_error_resp (octet_of code) ∷ []) }
    ensures taken { result ≡ (phase, Ok tt) }
{
    reply_error(code, replies);
    (phase, Ok(()))
}

/// Replies UL_ERROR_RESP with this code.
fn reply_error(code: ErrorCode, replies: &mut Replies)
    ensures { replies.new.items ≡ packet_text (ul_error_resp (octet_of code)) }
{
    write_packet(&Packet::UlErrorResp(code.code()), replies);
}

/// Replies UL_NAK_RESP with this code.
fn reply_nak(code: ErrorCode, replies: &mut Replies)
    ensures { replies.new.items ≡ packet_text (ul_nak_resp (octet_of code)) }
{
    write_packet(&Packet::UlNakResp(code.code()), replies);
}

/// Replies nothing to a packet, which leaves this phase.
fn reply_nothing(phase: Phase, replies: &mut Replies) -> Taken
    ensures text { replies.new.items ≡ [] }
    ensures taken { result ≡ (phase, Ok tt) }
{
    replies.clear();
    (phase, Ok(()))
}

/// Receiving, DATA: the octets become the file's, unless they are more than it has.
fn take_data<D: Disk>(
    disk: &mut D,
    caller: Call,
    up: OpenUpload,
    octets: &[u8],
    store: &mut FileStore,
    replies: &mut Replies,
) -> Taken
    requires { MayTake D.Disk store.old disk.old caller (receiving_phase up) }
    ensures { (moment : ℕ) → Answered D.Disk (packet_of caller moment (Ok (data_part octets.entry.now)))
        (receiving_of store.old up) (at store.old disk.old) (at store.new disk.new) replies.new.items
        result }
{
    match store.append(disk, up, octets) {
        Ok(up) => reply_nothing(Phase::Receiving(up), replies),
        Err(AppendRefusal::TooMuch(up)) => {
            store.park(up);
            reply_nak(ErrorCode::IllFormedCmd, replies);
            (Phase::Aborting, Ok(()))
        }
        Err(AppendRefusal::Disk) => {
            reply_nak(ErrorCode::ServerFsys, replies);
            (Phase::Command, Err(DiskFault))
        }
        Err(AppendRefusal::Failed) => unreachable!(),
    }
}

/// Aborting: what is left of the refused file is ignored, up to its end.
fn take_aborting(asked: Asked<'_>, replies: &mut Replies) -> Taken
    ensures { AnswersAborting asked.entry replies.new.items result }
{
    match asked {
        Asked::Part(_) => reply_nothing(Phase::Aborting, replies),
        Asked::End => reply_nothing(Phase::Command, replies),
        _ => refuse(Phase::Aborting, ErrorCode::IllFormedCmd, replies),
    }
}
