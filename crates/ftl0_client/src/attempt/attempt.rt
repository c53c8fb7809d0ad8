//! An attempt of a client.

ghost use Rattle.std.specs.Prelude.{◌≡◌, ◌<◌, ◌++◌, false, true};
ghost use Rattle.std.specs.Prelude.{IfOk, IsTrue, None, OnOk};
ghost use Rattle.ax25_frames.specs.Values.{value_of};
ghost use Rattle.ax25_link.specs.Ends.{LinkEnd, free_octets};
ghost use Rattle.ax25_link.specs.Kept.{Fits, HasStations, SameStations, StandsFor, Steps};
ghost use Rattle.ax25_link.specs.Kept.{is_pending};
ghost use Rattle.ax25_link.specs.declared.state.LinkState.{LinkState};
ghost use Rattle.ax25_link.specs.Window.{IsGoodK, Window, window_of};
ghost use Rattle.ftl0_packets.specs.Items.{kind_of_item};
ghost use Rattle.ftl0_packets.specs.Reading.{is_whole, read_item};
ghost use Rattle.ftl0_packets.specs.Values.{item_of};
ghost use Rattle.packet_link.specs.PacketLink.{GivesFrame, KeepsReader, octets_in};
ghost use Rattle.ftl0_client.specs.Calls.{SameJob};
ghost use Rattle.client_notes.specs.Notes.{Lists};
ghost use Rattle.ftl0_client_job.specs.JobState.{NotesGoWith};
ghost use Rattle.ftl0_client_job.specs.Table.{listing_of};
ghost use Rattle.ftl0_client_job.specs.Taking.{with_notes};
ghost use Rattle.ftl0_client.specs.Attempt.Attempted.{calling, outcome_by};
ghost use Rattle.ftl0_client.specs.Attempt.AttemptState.{AttemptState as Carried};
ghost use Rattle.ftl0_client.specs.Attempt.AttemptState.{Becomes, HearsFrame, IsAttempt, IsSomeAttempt, LeavesFit};
ghost use Rattle.ftl0_client.specs.Attempt.AttemptState.{MayHearFrame, PutsBy, TakesFrame, is_closed, working};
ghost use Rattle.ftl0_client.specs.Attempt.Feeding.{AnswersPacket, KeepsFit, KeepsUp, MayAnswer, QueuesNext};
ghost use Rattle.ftl0_client.specs.Attempt.Feeding.{Replies as HasReplied, RepliesAndParts, TakesOctetsBy};
ghost use Rattle.ftl0_client.specs.Attempt.Hearing.{after_ticking, down_by};
ghost use Rattle.ftl0_client.specs.Attempt.Hearing.{ticking};
ghost use Rattle.ftl0_client.specs.Attempt.Settling.{is_later as is_to_part_later, parting_later, queuing, settled};
ghost use Rattle.ftl0_client.specs.Attempt.Taking.{parting};

use arrayvec::ArrayVec;
use ax25_frames::Frame;
use ax25_link::{Heard, LinkState, Why, information};
use client_notes::Notes;
use disk_model::{Disk, Halt};
use ftl0_client_job::{Ending, Job, Outcome, Replies};
use ftl0_packets::{Malformed, Packet};
use packet_link::PacketLink;
use px_base::{Call, OutOfMemory};
use std::alloc::Global;
use std::marker::Model;

/// How many octets are free on a link on which nothing is queued or unacknowledged.
const ALL_FREE: usize = 4096;

/// An attempt of a client, over notes and a disk that it doesn't hold. Contracts see it as an `AttemptState`, and speak
/// of the attempts of the definitions that it stands for, whose links have all that was pushed, sent and taken.
#[derive(Drop)]
pub struct Attempt {
    link: PacketLink,
    job: Job,
    /// Why the link went down, if it did before the job had an outcome.
    down: Option<Why>,
}

impl Model for Attempt {
    ghost use Rattle.ftl0_client.specs.Attempt.AttemptState.{AttemptState};

    ghost Value = { AttemptState };

    ghost use Rattle.ftl0_client.specs.Attempt.Inside.{attempt_state};

    ghost view = { attempt_state };
}

impl Attempt {
    /// Calls the server for this job: SABM with P = 1 is pending (AX.25 2.0, 2.4.3.1). At most k I frames are
    /// outstanding at a time; `good_k(k)` is true. Takes memory, and fails only if there is none.
    pub fn call(
        alloc: Global,
        me: Call,
        server: Call,
        k: u8,
        job: Job,
    ) -> Result<Attempt, OutOfMemory>
        requires { IsGoodK k }
        ensures attempt { IfOk result (λ attempt. IsAttempt (window_of k) attempt (calling me server job)) }
        ensures stations { IfOk result (λ attempt. HasStations attempt.link true me server k) }
        ensures job { IfOk result (λ attempt. attempt.job ≡ job) }
    {
        let link = PacketLink::call(alloc, me, server, k)?;
        Ok(Attempt {
            link,
            job,
            down: None,
        })
    }

    /// Hears a frame of the server, while nothing is pending (AX.25 2.0, 2.4; FTL0 1990): the frame's row of the link's
    /// table, and for information that is next in the stream the packets' rows of the client's table. What they note is
    /// on the disk before any frame of the event is given out. A packet whose reply doesn't fit the link is strange,
    /// and nothing of the reply is queued. An outcome hangs the link up at once, unless its row says later; a packet
    /// after it changes nothing. At the end DATA and DATA_END that are due are queued while at least 1,280 octets are
    /// free, and a link that is to be hung up later is, once all that was queued is acknowledged. Takes memory, except
    /// for an upload.
    ///
    /// After a stop no frame of the event is given out, and only `outcome`, `ending` and `listing` are called. After
    /// `Disk` the commands before the one in which the disk failed are noted, and that one may be. After `OutOfMemory`
    /// those before the one for which there was no memory are.
    pub fn hear<D: Disk>(
        &mut self,
        disk: &mut D,
        notes: &mut Notes,
        frame: &Frame<'_>,
    ) -> Result<(), Halt>
        requires { MayHearFrame D.Disk self.old notes.old disk.old (value_of frame.now) }

        // Of whichever attempt it stands for, it is what the frame makes of that; or it stopped at one of the packets.
        ensures hears { HearsFrame D.Disk (value_of frame.now)
            (with_notes self.old notes.old disk.old) (with_notes self.new notes.new disk.new) result }
        ensures puts { PutsBy D.Disk disk.old disk.new result }

        // What the next event needs.
        ensures fit { LeavesFit D.Disk (working self.old.link self.old.job notes.old disk.old)
            (working self.new.link self.new.job notes.new disk.new) result }
    {
        self.take_frame(disk, notes, frame)?;
        self.settle();
        Ok(())
    }

    /// Counts a tick, while nothing is pending (AX.25 2.0, 2.4.7): if the server doesn't answer any more the link is
    /// down. The end of the event is that of `hear`. Takes no memory.
    pub fn tick(&mut self)
        requires { is_pending self.old.link ≡ false }
        ensures ticks { Becomes self.old self.new (λ w a. ticking a) }
        ensures notes_are { (lists : Lists) → NotesGoWith lists self.old.job → NotesGoWith lists self.new.job }
        ensures stations { SameStations self.old.link self.new.link }
    {
        self.count_tick();
        self.settle();
    }

    /// Replaces `out` by the octets of the next pending frame, which is then sent. It is false, and changes nothing,
    /// exactly if nothing is pending. Takes no memory.
    pub fn next_out(&mut self, out: &mut ArrayVec<u8, 400>) -> bool
        ensures gives { GivesFrame {S = Carried} (λ it. it.link) self.old self.new
            out.old.items out.new.items result }
        ensures same { SameJob self.old self.new }
    {
        self.link.next_out(out)
    }

    /// Whether a frame is to be given out. Takes no memory.
    pub fn pending(&self) -> bool
        ensures { result ≡ is_pending self.now.link }
    {
        self.link.pending()
    }

    /// Whether the attempt is over: the link is down, and nothing is pending. Takes no memory.
    pub fn closed(&self) -> bool
        ensures { result ≡ is_closed self.now.link }
    {
        matches!(self.link.state(), LinkState::Down) && !self.link.pending()
    }

    /// What became of the attempt; `None` as long as it goes on. Takes no memory.
    pub fn outcome(&self) -> Option<Outcome>
        ensures { result ≡ outcome_by self.now.job.ending self.now.down }
    {
        match self.job.ending() {
            Some(ending) => Some(ending.outcome),
            None => self.down.map(Outcome::LinkDown),
        }
    }

    /// How the job ended, and when its link is hung up; `None` as long as it has no outcome. Takes no memory.
    pub fn ending(&self) -> Option<Ending>
        ensures { result ≡ self.now.job.ending }
    {
        self.job.ending()
    }

    /// The octets of the list that came: short headers of 73 octets, one after another, if the outcome is `Listed`;
    /// none of any other job. Takes no memory.
    pub fn listing(&self) -> &[u8]
        ensures { result.now ≡ listing_of self.now.job.work }
    {
        self.job.listing()
    }

    /// A law, which does nothing: whatever end the link stands for is one that frames and ticks can bring about.
    pub fn fits_law(&self)
        ensures { Fits self.now.link }
    {
        self.link.stands_law();
    }

    /// A law, which does nothing: it stands for some attempt of the definitions, whatever was heard, and whatever
    /// stopped it.
    pub fn some_law(&self)
        ensures { IsSomeAttempt self.now }
    {
        self.link.stands_law();
    }

    /// Hears a frame, without what is done at the end of the event.
    fn take_frame<D: Disk>(
        &mut self,
        disk: &mut D,
        notes: &mut Notes,
        frame: &Frame<'_>,
    ) -> Result<(), Halt>
        requires { MayHearFrame D.Disk self.old notes.old disk.old (value_of frame.now) }
        ensures takes { TakesFrame D.Disk (value_of frame.now)
            (with_notes self.old notes.old disk.old) (with_notes self.new notes.new disk.new) result }
        ensures puts { PutsBy D.Disk disk.old disk.new result }
        ensures fit { LeavesFit D.Disk (working self.old.link self.old.job notes.old disk.old)
            (working self.new.link self.new.job notes.new disk.new) result }
    {
        match self.link.take(frame) {
            Heard::Nothing | Heard::Opened | Heard::Reopened => Ok(()),
            Heard::Bytes => {
                self.link.stands_law();
                take_packets(
                    &mut self.link,
                    &mut self.job,
                    disk,
                    notes,
                    information(frame),
                )
            }
            Heard::Closed(why) => {
                self.close(why);
                Ok(())
            }
        }
    }

    /// Counts a tick, without what is done at the end of the event.
    fn count_tick(&mut self)
        requires { is_pending self.old.link ≡ false }
        ensures ticks { Becomes self.old self.new (λ w a. after_ticking a) }
        ensures job { self.new.job ≡ self.old.job }
        ensures stations { SameStations self.old.link self.new.link }
    {
        if let Some(why) = self.link.tick() {
            self.close(why);
        }
    }

    /// The link went down for this reason.
    fn close(&mut self, why: Why)
        ensures { self.new ≡ record self.old { down = down_by self.old.job.ending self.old.down why } }
    {
        if self.job.ending().is_none() {
            self.down = Some(why);
        }
    }

    /// The end of an event: while the link is up what is due is queued, and the link is hung up if that was to be done
    /// later.
    fn settle(&mut self)
        ensures settles { Becomes self.old self.new (λ w a. settled a) }
        ensures keeps { KeepsFit self.old self.new }
    {
        if !matches!(self.link.state(), LinkState::Up) {
            return;
        }
        self.queue_due();
        self.hang_up_later();
    }

    /// Queues DATA and DATA_END that are due, one after another, while enough octets are free.
    fn queue_due(&mut self)
        requires { self.old.link.state ≡ LinkState.Up }
        ensures queues { Becomes self.old self.new (λ w a. queuing (free_octets a.end) a) }
        ensures keeps { KeepsUp self.old self.new }
    {
        while self.queue_next() {}
    }

    /// Queues what is due next, if enough octets are free. It answers false, and nothing changed, if nothing is due, or
    /// fewer are free.
    fn queue_next(&mut self) -> bool
        requires { self.old.link.state ≡ LinkState.Up }
        ensures next { QueuesNext self.old self.new result }
        ensures keeps { KeepsUp self.old self.new }
    {
        if !self.link.has_room() {
            return false;
        }
        let mut packet = ArrayVec::new();
        if !self.job.fill(&mut packet) {
            return false;
        }
        self.link.push(&packet);
        true
    }

    /// Hangs the link up if that was to be done later, and all that was queued is acknowledged.
    fn hang_up_later(&mut self)
        requires { self.old.link.state ≡ LinkState.Up }
        ensures parts { Becomes self.old self.new (λ w a. parting_later a) }
        ensures keeps { KeepsFit self.old self.new }
    {
        if is_later(self.job.ending()) && self.link.free() == ALL_FREE {
            self.link.hang_up();
        }
    }
}

/// Takes the packets that these octets, next in the stream, finish, and queues the replies to them.
fn take_packets<D: Disk>(
    link: &mut PacketLink,
    job: &mut Job,
    disk: &mut D,
    notes: &mut Notes,
    octets: &[u8],
) -> Result<(), Halt>
    requires { MayAnswer D.Disk (working link.old.link job.old notes.old disk.old) }
    ensures takes { TakesOctetsBy D.Disk (octets_in link.old ++ octets.now) (octets_in link.new)
        (working link.old.link job.old notes.old disk.old) (working link.new.link job.new notes.new disk.new) result }
    ensures fit { LeavesFit D.Disk (working link.old.link job.old notes.old disk.old)
        (working link.new.link job.new notes.new disk.new) result }
{
    let mut piece = octets;
    while let Some(left) = link.next_packet(piece) {
        answer(link, job, disk, notes)?;
        piece = left;
    }
    Ok(())
}

/// Takes the packet that is whole, and queues the replies to it. After the outcome it is ignored.
fn answer<D: Disk>(
    link: &mut PacketLink,
    job: &mut Job,
    disk: &mut D,
    notes: &mut Notes,
) -> Result<(), Halt>
    requires whole { IsTrue (is_whole link.old.reader) }
    requires may { MayAnswer D.Disk (working link.old.link job.old notes.old disk.old) }
    ensures answers { AnswersPacket D.Disk (read_item link.old.reader)
        (working link.old.link job.old notes.old disk.old) (working link.new.link job.new notes.new disk.new) result }
    ensures up { OnOk result (job.new.ending ≡ None → link.new.link.state ≡ LinkState.Up) }
    ensures fit { LeavesFit D.Disk (working link.old.link job.old notes.old disk.old)
        (working link.new.link job.new notes.new disk.new) result }
    ensures reader { link.new.reader ≡ link.old.reader }
{
    if job.ending().is_some() {
        return Ok(());
    }
    let packet = link.packet();
    let kind = kind_of(&packet);
    let mut replies = Replies::new();
    job.take(disk, packet, notes, &mut replies)?;
    reply(link, job, replies.as_slice(), kind);
    Ok(())
}

/// Queues replies to a packet of this type, or loses them if the link has no room for them; and hangs the link up if
/// the job's outcome asks for that at once.
fn reply(link: &mut PacketLink, job: &mut Job, text: &[u8], kind: u8)
    requires { link.old.link.state ≡ LinkState.Up }
    ensures replies { (w : Window) (end : LinkEnd) → StandsFor w link.old.link end →
        RepliesAndParts kind text.now job.old job.new w end link.new.link }
    ensures up { job.new.ending ≡ None → link.new.link.state ≡ LinkState.Up }
    ensures notes_are { (lists : Lists) → NotesGoWith lists job.old → NotesGoWith lists job.new }
    ensures keeps { KeepsReader link.old link.new }
{
    queue_replies(link, job, text, kind);
    hang_up_at_once(link, job.ending());
}

/// Queues replies to a packet of this type. If the link has no room for them nothing of them is queued, and the packet
/// is strange.
fn queue_replies(link: &mut PacketLink, job: &mut Job, text: &[u8], kind: u8)
    requires { link.old.link.state ≡ LinkState.Up }
    ensures replies { (w : Window) (end : LinkEnd) → StandsFor w link.old.link end →
        HasReplied kind text.now job.old job.new w end link.new.link }
    ensures notes_are { (lists : Lists) → NotesGoWith lists job.old → NotesGoWith lists job.new }
    ensures up { link.new.link.state ≡ LinkState.Up }
    ensures keeps { KeepsReader link.old link.new }
{
    if text.len() > link.free() {
        job.lose_reply(kind);
    } else {
        link.push(text);
    }
}

/// Hangs the link up if the job ended so that it is to be done at once.
fn hang_up_at_once(link: &mut PacketLink, ending: Option<Ending>)
    requires { link.old.link.state ≡ LinkState.Up }
    ensures parts { Steps link.old.link link.new.link (λ w end. parting ending end) }
    ensures stays { ending ≡ None → link.new ≡ link.old }
    ensures keeps { KeepsReader link.old link.new }
{
    if let Some(ending) = ending {
        if !ending.later {
            link.hang_up();
        }
    }
}

/// Whether the job ended so that the link is to be hung up later.
fn is_later(ending: Option<Ending>) -> bool
    ensures { result ≡ is_to_part_later ending }
{
    match ending {
        Some(ending) => ending.later,
        None => false,
    }
}

/// The type of a packet, malformed or not.
fn kind_of(packet: &Result<Packet<'_>, Malformed>) -> u8
    ensures { result ≡ kind_of_item (item_of packet.now) }
{
    match packet {
        Ok(packet) => packet.kind(),
        Err(malformed) => malformed.kind,
    }
}
