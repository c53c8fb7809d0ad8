//! The session of one caller: what each packet gives, and what is sent next (FTL0 1990).

ghost use Rattle.std.specs.Prelude.{◌≡◌, ◌≢◌, ◌<◌, ℕ, [], length, false, true, None};
ghost use Rattle.disk_model.specs.AtDisk.{at};
ghost use Rattle.ftl0_packets.specs.Items.{kind_of_item};
ghost use Rattle.ftl0_packets.specs.Layout.{packet_text};
ghost use Rattle.ftl0_packets.specs.Values.{item_of};
ghost use Rattle.ftl0_session.specs.Lists.Lists.{has_left};
ghost use Rattle.file_store.specs.State.{store_in, store_on};
ghost use Rattle.ftl0_session.specs.Uploads.Others.{KeepsOtherCallers};
ghost use Rattle.ftl0_session.specs.Uploads.Session.{is_upload_kind};
ghost use Rattle.ftl0_session.specs.Uploads.SessionState.{IsHeld, IsOnlyOut, NoOtherOut, Parks};
ghost use Rattle.ftl0_session.specs.Downloads.Needs.{KeepsFiles, MaySend};
ghost use Rattle.ftl0_session.specs.Downloads.Table.{ready};
ghost use Rattle.ftl0_session.specs.Filling.{PutsDue};
ghost use Rattle.ftl0_session.specs.SessionState.{DoesOne, MayTake, caller_of, new_session, session_of, state_in};
ghost use Rattle.ftl0_session.specs.SessionState.{working_on};
ghost use Rattle.ftl0_session.specs.Downloads.Sending.{is_due, octets_left};
ghost use Rattle.ftl0_session.specs.Table.{download_part, error_by, flags, greeting};
ghost use Rattle.ftl0_session.specs.Taking.{Taken, TakenOver, TakesDownload, lent};
ghost use Rattle.ftl0_session.specs.Downloads.Filling.{filled};
ghost use Rattle.ftl0_session.specs.Uploads.Events.{packet_of};
ghost use Rattle.ftl0_session.specs.Downloads.Taking.{made};
ghost use Rattle.ftl0_session.specs.declared.uploads.phase.Phase.TheVariants.{Command as command_phase};

use crate::downloads::Downloads;
use crate::downloads::laws::stays_law;
use crate::lists::Lists;
use crate::uploads::{Replies, Session as Uploads};
use arrayvec::ArrayVec;
use disk_model::{Disk, DiskFault};
use file_store::FileStore;
use ftl0_packets::{ErrorCode, Malformed, Packet, write_packet};
use px_base::{Call, Moment};
use std::marker::Model;

/// LOGIN_RESP's flags: bit 2, file headers are in use. Bits 1 and 0 are the version, 0.
const FLAGS: u8 = 4;

/// Bit 3 of LOGIN_RESP's flags: the caller's selection has numbers left.
const SELECTED: u8 = 8;

/// The session of one caller. It must be ended, which parks its upload. While it receives a file, or waits for the end
/// of one that it refused, it does nothing of downloading. Contracts see it as a `SessionState`.
pub struct Session {
    uploads: Uploads,
    downloads: Downloads,
}

impl Model for Session {
    ghost use Rattle.ftl0_session.specs.SessionState.{DoesOne, SessionState, session_of};

    ghost Value = { SessionState };

    ghost view = { λ a. session_of a.uploads a.downloads };

    ghost invariant = { λ a. DoesOne a.uploads.phase a.downloads };
}

impl Session {
    /// The session of this caller, in the state Command, with LOGIN_RESP at this moment in place of what `replies`
    /// holds (FTL0 1990, LOGIN_RESP): bit 3 of its flags says whether the caller's selection has numbers left. Takes
    /// no memory.
    pub fn new(caller: Call, moment: Moment, lists: &Lists, replies: &mut Replies) -> Session
        ensures session { result ≡ new_session caller }
        ensures text { replies.new.items ≡ packet_text (greeting moment (has_left lists.now caller)) }
    {
        let greeting = Packet::LoginResp {
            moment: moment.get(),
            flags: flags_of(lists.left(caller)),
        };
        write_packet(&greeting, replies);
        Session {
            uploads: Uploads::new(caller),
            downloads: Downloads::new(),
        }
    }

    /// Whose session it is. Takes no memory.
    pub fn caller(&self) -> Call
        ensures { result ≡ caller_of self.now }
    {
        self.uploads.caller()
    }

    /// Takes a packet: one row of the session's table, or code 3 if a write or a sync of the disk fails. The replies
    /// are put in place of what `replies` holds; the row's commands are on the disk before they are given. A read that
    /// fails gives the row for that, and the session goes on. Takes no memory.
    ///
    /// After a fault of the disk the upload is spent, and the store has failed. Some of the packet's octets may be
    /// held, and its file begun, complete or gone.
    pub fn take<D: Disk>(
        &mut self,
        disk: &mut D,
        packet: Result<Packet<'_>, Malformed>,
        moment: Moment,
        store: &mut FileStore,
        lists: &mut Lists,
        replies: &mut Replies,
    ) -> Result<(), DiskFault>
        requires { MayTake D.Disk store.old disk.old lists.old self.old }

        // If it is known what the store's files hold, the answer is the packet's row for the reads that were made, and
        // the row's commands are on the disk; or a write or a sync failed in one of them. So it is on any disk of a row
        // for which no octet of a file is looked at; and there each code 3 has its cause. It leaves what the next
        // packet needs.
        ensures { Taken D.Disk (packet_of (caller_of self.old) moment (item_of packet.entry)) self.old self.new
            (working_on store.old lists.old disk.old) (working_on store.new lists.new disk.new) replies.new.items
            result }
    {
        take_packet(
            &mut self.uploads,
            &mut self.downloads,
            disk,
            packet,
            moment,
            store,
            lists,
            replies,
        )
    }

    /// Puts what is due next in place of what `out` holds: DATA of the next 254 octets, the last one shorter, or
    /// DATA_END if none is left; or code 3 instead of a DATA whose octets can't be read, and only then. It answers
    /// false, and nothing changed, exactly when nothing is due. It reads what it sends. Takes no memory.
    #[inline(always)]
    pub fn fill<D: Disk>(
        &mut self,
        disk: &mut D,
        store: &mut FileStore,
        out: &mut ArrayVec<u8, 256>,
    ) -> bool
        requires { MaySend D.Disk store.old disk.old self.old.downloads }
        ensures puts { PutsDue D.Disk (store_on D.Disk store.old disk.old)
            (filled disk.old (state_in store.old self.old) out.old.items)
            (filled disk.new (state_in store.new self.new) out.new.items) result }
        ensures due { result ≡ is_due (download_part (state_in store.old self.old)) }
        ensures none { result ≡ false → (self.new ≡ self.old) × (disk.new ≡ disk.old)
            × (out.new.items ≡ out.old.items) }
        ensures some { result ≡ true → 0 < length out.new.items }
        ensures fewer { result ≡ true → octets_left (store_in store.old) (download_part (state_in store.old self.new))
            < octets_left (store_in store.old) (download_part (state_in store.old self.old)) }
        ensures uploads { self.new.uploads ≡ self.old.uploads }
        ensures store { store.new ≡ store.old }
        ensures may { MaySend D.Disk store.new disk.new self.new.downloads }
    {
        self.downloads.fill(disk, store, out)
    }

    /// Ends the session, and parks its upload. No upload of an entry of its caller is out then, if none was except the
    /// session's own. Takes no memory.
    pub fn end(self, store: &mut FileStore)
        requires { IsHeld store.old self.uploads }
        ensures parks { Parks store.old store.new self.uploads.phase }
        ensures only { IsOnlyOut store.old self.uploads → NoOtherOut store.new (caller_of self) None }
        ensures others { KeepsOtherCallers store.old store.new (caller_of self) }
    {
        let Session {
            uploads,
            downloads: _,
        } = self;
        uploads.end(store);
    }
}

/// LOGIN_RESP's flags, by whether the caller's selection has numbers left.
fn flags_of(left: bool) -> u8
    ensures { result ≡ flags left }
{
    if left { FLAGS + SELECTED } else { FLAGS }
}

/// Takes a packet: by its row of uploading if it is of uploading and the session does nothing of downloading, else by
/// its row of downloading, or by error 1.
fn take_packet<D: Disk>(
    uploads: &mut Uploads,
    downloads: &mut Downloads,
    disk: &mut D,
    packet: Result<Packet<'_>, Malformed>,
    moment: Moment,
    store: &mut FileStore,
    lists: &mut Lists,
    replies: &mut Replies,
) -> Result<(), DiskFault>
    requires may { MayTake D.Disk store.old disk.old lists.old (session_of uploads.old downloads.old) }
    requires one { DoesOne uploads.old.phase downloads.old }
    ensures taken { TakenOver D.Disk moment (item_of packet.entry)
        (lent uploads.old downloads.old store.old lists.old disk.old)
        (lent uploads.new downloads.new store.new lists.new disk.new) replies.new.items result }
    ensures one { DoesOne uploads.new.phase downloads.new }
{
    let of_uploading = is_of_uploading(&packet);
    if of_uploading && downloads.is_ready() {
        return take_upload(uploads, disk, packet, moment, store, lists, replies);
    }
    take_other(
        uploads,
        downloads,
        disk,
        packet,
        of_uploading,
        store,
        lists,
        replies,
    );
    Ok(())
}

/// Takes a packet of uploading, while the session does nothing of downloading. The lists stay.
fn take_upload<D: Disk>(
    uploads: &mut Uploads,
    disk: &mut D,
    packet: Result<Packet<'_>, Malformed>,
    moment: Moment,
    store: &mut FileStore,
    lists: &Lists,
    replies: &mut Replies,
) -> Result<(), DiskFault>
    requires may { MayTake D.Disk store.old disk.old lists.now (session_of uploads.old ready) }
    requires kind { is_upload_kind (kind_of_item (item_of packet)) ≡ true }
    ensures { TakenOver D.Disk moment (item_of packet.entry) (lent uploads.old ready store.old lists.now disk.old)
        (lent uploads.new ready store.new lists.now disk.new) replies.new.items result }
{
    // While the store keeps its complete files, so do the lists.
    stays_law();
    uploads.take(disk, packet, moment, store, replies)
}

/// Takes any other packet: by its row of downloading, or by error 1. It stays a call of its own, so that its buffers
/// aren't part of what a packet of uploading costs.
#[inline(never)]
fn take_other<D: Disk>(
    uploads: &Uploads,
    downloads: &mut Downloads,
    disk: &mut D,
    packet: Result<Packet<'_>, Malformed>,
    of_uploading: bool,
    store: &mut FileStore,
    lists: &mut Lists,
    replies: &mut Replies,
)
    requires may { MayTake D.Disk store.old disk.old lists.old (session_of uploads.now downloads.old) }
    requires one { DoesOne uploads.now.phase downloads.old }
    requires kind { of_uploading ≡ is_upload_kind (kind_of_item (item_of packet)) }
    requires other { of_uploading ≡ true → downloads.old ≢ ready }
    ensures taken { (moment : ℕ) → TakenOver D.Disk moment (item_of packet.entry)
        (lent uploads.now downloads.old store.old lists.old disk.old)
        (lent uploads.now downloads.new store.new lists.new disk.new) replies.new.items (Ok tt) }
    ensures one { DoesOne uploads.now.phase downloads.new }
{
    if take_download(uploads, downloads, disk, packet, store, lists, replies) {
        return;
    }
    refuse(of_uploading, replies);
}

/// Takes a packet that has a row of downloading. It answers false, and nothing changed, exactly when it has none.
fn take_download<D: Disk>(
    uploads: &Uploads,
    downloads: &mut Downloads,
    disk: &mut D,
    packet: Result<Packet<'_>, Malformed>,
    store: &mut FileStore,
    lists: &mut Lists,
    replies: &mut Replies,
) -> bool
    requires { MayTake D.Disk store.old disk.old lists.old (session_of uploads.now downloads.old) }
    ensures takes { TakesDownload D.Disk uploads.now store.old (item_of packet.entry)
        (at (made downloads.old lists.old replies.old.items) disk.old)
        (at (made downloads.new lists.new replies.new.items) disk.new) result }
    ensures keeps { KeepsFiles D.Disk store.old store.new disk.new lists.new downloads.new }
    ensures waits { result ≡ true → uploads.now.phase ≡ command_phase }
{
    let Ok(packet) = packet else {
        return false;
    };
    if !uploads.is_ready() {
        return false;
    }
    downloads.take(disk, &packet, uploads.caller(), store, lists, replies)
}

/// The type of a packet, malformed or not.
fn kind_of(packet: &Result<Packet<'_>, Malformed>) -> u8
    ensures { result ≡ kind_of_item (item_of packet.now) }
{
    match packet {
        Ok(packet) => packet.kind(),
        Err(malformed) => malformed.kind,
    }
}

/// Whether a packet is of uploading: DATA, DATA_END or UPLOAD_CMD, malformed or not.
fn is_of_uploading(packet: &Result<Packet<'_>, Malformed>) -> bool
    ensures { result ≡ is_upload_kind (kind_of_item (item_of packet.now)) }
{
    matches!(kind_of(packet), 0 | 1 | 3)
}

/// A packet that is malformed or has no row in the state: error 1.
fn refuse(of_uploading: bool, replies: &mut Replies)
    ensures { replies.new.items ≡ packet_text (error_by of_uploading) }
{
    let code = ErrorCode::IllFormedCmd.code();
    if of_uploading {
        write_packet(&Packet::UlErrorResp(code), replies);
    } else {
        write_packet(&Packet::DlErrorResp(code), replies);
    }
}
