//! The client.

ghost use Rattle.std.specs.Prelude.{◌≡◌, ◌⊎◌, ℕ, ◌<◌, ◌≤◌, List, length, false, true};
ghost use Rattle.std.specs.Prelude.{IfOk, IsErr, IsErrOf, IsTrue, OnErr, OnOk};
ghost use Rattle.sha2.specs.Sha256.{sha256};
ghost use Rattle.ax25_frames.specs.Kinds.{FitsControl};
ghost use Rattle.ax25_frames.specs.Values.{value_of};
ghost use Rattle.ax25_link.specs.Window.{IsGoodK, window_of};
ghost use Rattle.turn_loop.specs.Events.{IsFor};
ghost use Rattle.client_notes.specs.Answers.{StartsBy, answer_of, fresh_task, start_reaches};
ghost use Rattle.client_notes.specs.Notes.{is_same_call};
ghost use Rattle.client_notes.specs.OnDisk.{Does, Untouched};
ghost use Rattle.client_notes.specs.State.{StandsOn};
ghost use Rattle.ftl0_client_job.specs.JobState.{IsNew, NotesGoWith};
ghost use Rattle.ftl0_client_job.specs.Laws.{IsOwned, IsStarted};
ghost use Rattle.ftl0_client.specs.Attempt.AttemptState.{PutsBy};
ghost use Rattle.ftl0_client.specs.Calls.{Becomes, HandsOutNext, HasAsked, Hears, KeepsNotes, SameButFrames};
ghost use Rattle.ftl0_client.specs.Calls.{SameClient};
ghost use Rattle.ftl0_client.specs.Client.{Client as ClientValue, asking, client_ticking, hearing_stranger, new_client};
ghost use Rattle.ftl0_client.specs.Outcomes.{is_under_way, outcome_by};
ghost use Rattle.ftl0_client.specs.ClientState.{IsClient, IsFree, IsOwn, LinkFits, MayHear};
ghost use Rattle.ftl0_client.specs.ClientState.{client_closed, client_most, client_pending, listing_in, new_state};
ghost use Rattle.ftl0_client.specs.ClientState.{outcome_in, under_way_in};

use crate::attempt::Attempt;
use arrayvec::ArrayVec;
use ax25_frames::Frame;
use ax25_link::{Refusal, is_answered};
use client_notes::{Begun, Notes, NotesRefusal};
use disk_model::{Disk, Halt};
use ftl0_client_job::laws::{owned_law, started_law};
use ftl0_client_job::{Job, Outcome};
use px_base::{Call, OutOfMemory};
use std::alloc::Global;
use std::marker::Model;

/// A client of one server, with the notes of what it sends and gets. What is asked of it is an attempt: a call to the
/// server, and all that follows until it is asked again. After each frame and each tick the frames that are pending are
/// given out by `next_out`, and only then it takes the next frame or tick. Contracts see it as a `ClientState`; they
/// speak of the clients of the definitions that it stands for, whose links have all that was pushed, sent and taken.
///
/// It keeps in memory the notes, with all octets that were got, and of what was asked last the file that is sent, once,
/// or the list that came; of a download fewer than 512 octets besides the notes. Its link takes 4,096 octets.
#[derive(Drop)]
pub struct Client {
    me: Call,
    server: Call,
    k: u8,
    notes: Notes,
    /// What was asked last, if anything was.
    attempt: Option<Attempt>,
    stray: Option<Refusal>,
}

impl Model for Client {
    ghost use Rattle.ftl0_client.specs.ClientState.{ClientState};

    ghost Value = { ClientState };

    ghost use Rattle.ftl0_client.specs.Inside.{IsInside, client_state};

    ghost view = { client_state };

    ghost invariant = { IsInside };
}

impl Client {
    /// A client with these notes, of which nothing was asked yet: the station `me`, which calls `server`, with at most
    /// k I frames outstanding on its link; `good_k(k)` holds. Takes no memory.
    pub fn start(notes: Notes, me: Call, server: Call, k: u8) -> Client
        requires { IsGoodK k }
        ensures client { IsClient result (new_client me server (window_of k) notes.lists) }
        ensures state { result ≡ new_state me server k notes }
    {
        Client {
            me,
            server,
            k,
            notes,
            attempt: None,
            stray: None,
        }
    }

    /// Starts the task of a file of this name, 1 to 64 octets, length and digest, to this client's server, or goes on
    /// with it ([`Notes::start`]), while nothing is under way. The upload of the file is then asked with the task and
    /// the number that are answered. Takes memory.
    ///
    /// `Changed`: it is unfinished with another length or digest. `Full` comes exactly if a fresh task is wanted and
    /// the notes have 65,536 tasks. After `Disk` only `outcome`, `listing` and `notes` are called.
    pub fn start_task<D: Disk>(
        &mut self,
        disk: &mut D,
        name: &str,
        file_length: u32,
        digest: [u8; 32],
    ) -> Result<Begun, NotesRefusal>
        requires stands_on { StandsOn D.Disk self.old.notes disk.old }
        requires some { 1 ≤ length name.now }
        requires most { length name.now ≤ 64 }
        requires free { IsFree self.old }

        // As the notes' own call says it.
        ensures answers { StartsBy self.old.notes
            (answer_of self.old.notes.lists self.old.server self.old.me name.now file_length digest) result }
        ensures untouched { IsTrue (start_reaches result) ⊎ Untouched self.old.notes self.new.notes disk.old disk.new }
        ensures does { IsTrue (start_reaches result) →
            Does D.Disk (IsErr result) self.old.notes self.new.notes disk.old disk.new
            (fresh_task self.old.notes.lists self.old.server self.old.me name.now file_length digest) }
        ensures stands_on { StandsOn D.Disk self.new.notes disk.new }

        // Nothing but the notes changes, and what the next event needs stays.
        ensures same { self.new ≡ record self.old { notes = self.new.notes } }
        ensures starts { Becomes self.old self.new (λ client. record client { lists = self.new.notes.lists }) }
        ensures may { ¬ IsErrOf result NotesRefusal.Disk → MayHear D.Disk self.old disk.old →
            MayHear D.Disk self.new disk.new }

        // The task is the one that an upload of a file of this length and digest needs, and may be asked.
        ensures started { IfOk result (λ begun. (file : List ℕ) → length file ≡ file_length → sha256 file ≡ digest →
            IsStarted self.new.notes.lists file begun
            × IsOwned self.new.notes.lists self.new.server self.new.me (sha256 file) begun) }
    {
        started_law::<D>();
        owned_law::<D>();
        self.notes
            .start(disk, self.server, self.me, name, file_length, digest)
    }

    /// Asks for a job that was just made, while nothing is under way: an attempt begins, and SABM with P = 1 is pending
    /// (AX.25 2.0, 2.4.3.1). The link of the one before is gone. An upload is of a task of this client and its server
    /// that is unfinished, with the number that the notes have and a file of its length and digest (SHA-256, FIPS
    /// 180-4), and a download is of this client's server. Takes memory, and fails only if there is none; nothing
    /// changes then.
    pub fn ask(&mut self, alloc: Global, job: Job) -> Result<(), OutOfMemory>
        requires free { IsFree self.old }
        requires new { IsNew job }
        requires go_with { NotesGoWith self.old.notes.lists job }
        requires own { IsOwn self.old job.work }
        ensures asks { OnOk result (Becomes self.old self.new (λ client. asking client job)) }
        ensures refused { OnErr result (self.new ≡ self.old) }
        ensures notes { OnOk result (HasAsked self.old self.new) }
    {
        let attempt = Attempt::call(alloc, self.me, self.server, self.k, job)?;
        self.attempt = Some(attempt);
        Ok(())
    }

    /// Hears a frame for this station without repeaters, while nothing is pending. Once something was asked a frame of
    /// the server is the attempt's ([`Attempt::hear`]), whatever became of it. Any other station's, and the server's
    /// before, is answered as by a link that is down: SABM, and any other command with P = 1, by DM with F = P (AX.25
    /// 2.0, 2.4.3.4). What is noted is on the disk before any frame of the event is given out. Takes memory.
    ///
    /// After a stop no frame of the event is given out, and only `outcome`, `listing` and `notes` are called. After
    /// `Disk` the commands before the one in which the disk failed are noted, and that one may be. After `OutOfMemory`
    /// those before the one for which there was no memory are.
    pub fn hear<D: Disk>(&mut self, disk: &mut D, frame: &Frame<'_>) -> Result<(), Halt>
        requires frame { IsFor self.old.me (value_of frame.now) }
        requires numbers { FitsControl (value_of frame.now).kind.control }
        requires quiet { client_pending self.old ≡ false }
        requires may { MayHear D.Disk self.old disk.old }

        // Of whichever client it stands for, it is what the frame makes of that; or it stopped at one of the packets.
        ensures hears { (client : ClientValue) → IsClient self.old client →
            Hears D.Disk client (value_of frame.now) self.old self.new disk.old disk.new result }
        ensures puts { PutsBy D.Disk disk.old disk.new result }
        ensures stray { OnErr result (self.new.stray ≡ self.old.stray) }

        // What the next event needs.
        ensures may { OnOk result (MayHear D.Disk self.new disk.new) }
        ensures stands_on { StandsOn D.Disk self.new.notes disk.new }
        ensures same { SameClient self.old self.new }
    {
        if !is_from(self.server, frame) {
            self.hear_stranger(frame);
            return Ok(());
        }
        match &mut self.attempt {
            Some(attempt) => attempt.hear(disk, &mut self.notes, frame),
            None => {
                self.hear_stranger(frame);
                Ok(())
            }
        }
    }

    /// Counts a tick, while nothing is pending (AX.25 2.0, 2.4.7): if the server doesn't answer any more the link is
    /// down. Before anything was asked nothing is counted. Takes no memory.
    pub fn tick(&mut self)
        requires { client_pending self.old ≡ false }
        ensures ticks { Becomes self.old self.new (λ client. client_ticking client) }
        ensures keeps { KeepsNotes self.old self.new }
    {
        if let Some(attempt) = &mut self.attempt {
            attempt.tick();
        }
    }

    /// Replaces `out` by the octets of the next pending frame, which is then sent: the DM to a station with which there
    /// is no link first. It is false, and changes nothing, exactly if nothing is pending. Takes no memory.
    pub fn next_out(&mut self, out: &mut ArrayVec<u8, 400>) -> bool
        ensures pending { result ≡ client_pending self.old }
        ensures none { result ≡ false → (self.new ≡ self.old) × (out.new.items ≡ out.old.items) }
        ensures fewer { result ≡ true → client_most self.new < client_most self.old }
        ensures next { HandsOutNext self.old self.new out.old.items out.new.items result }
        ensures same { SameButFrames self.old self.new }
    {
        match self.stray {
            Some(stray) => {
                stray.write(self.me, out);
                self.stray = None;
                true
            }
            None => match &mut self.attempt {
                Some(attempt) => attempt.next_out(out),
                None => false,
            },
        }
    }

    /// Whether a frame is to be given out. Takes no memory.
    pub fn pending(&self) -> bool
        ensures { result ≡ client_pending self.now }
    {
        match &self.attempt {
            Some(attempt) => self.stray.is_some() || attempt.pending(),
            None => self.stray.is_some(),
        }
    }

    /// Whether nothing is under way on the air: nothing is pending, and the link is down, or nothing was asked yet.
    /// Takes no memory.
    pub fn closed(&self) -> bool
        ensures { result ≡ client_closed self.now }
    {
        match &self.attempt {
            Some(attempt) => self.stray.is_none() && attempt.closed(),
            None => self.stray.is_none(),
        }
    }

    /// What became of what was asked last; `None` as long as it is under way, and before anything was asked. Takes no
    /// memory.
    pub fn outcome(&self) -> Option<Outcome>
        ensures outcome { result ≡ outcome_in self.now.attempt }

        // It is that of each client that it stands for.
        ensures means { (client : ClientValue) → IsClient self.now client → result ≡ outcome_by client.attempt }
    {
        match &self.attempt {
            Some(attempt) => attempt.outcome(),
            None => None,
        }
    }

    /// Whether what was asked last is under way: nothing became of it yet. Before anything was asked nothing is. Takes
    /// no memory.
    pub fn is_under_way(&self) -> bool
        ensures under_way { result ≡ under_way_in self.now.attempt }

        // The same is true of each client that it stands for.
        ensures means { (client : ClientValue) → IsClient self.now client → result ≡ is_under_way client.attempt }
    {
        match &self.attempt {
            Some(attempt) => attempt.outcome().is_none(),
            None => false,
        }
    }

    /// The octets of the list that came, if a list was asked last: short headers of 73 octets, one after another, if
    /// the outcome is `Listed`; else none. Takes no memory.
    pub fn listing(&self) -> &[u8]
        ensures { result.now ≡ listing_in self.now.attempt }
    {
        match &self.attempt {
            Some(attempt) => attempt.listing(),
            None => &[],
        }
    }

    /// Its own call. Takes no memory.
    pub fn me(&self) -> Call
        ensures { result ≡ self.now.me }
    {
        self.me
    }

    /// The notes. Takes no memory.
    pub fn notes(&self) -> &Notes
        ensures { result.now ≡ self.now.notes }
    {
        &self.notes
    }

    /// A law, which does nothing: whatever end the link stands for is one that frames and ticks can bring about.
    pub fn fits_law(&self)
        ensures window { IsGoodK self.now.k }
        ensures fits { LinkFits self.now.attempt }
    {
        if let Some(attempt) = &self.attempt {
            attempt.fits_law();
        }
    }

    /// A law, which does nothing: it stands for some client of the definitions, after each call, whatever stopped it.
    pub fn some_law(&self)
        ensures { (client : ClientValue) × IsClient self.now client }
    {
        if let Some(attempt) = &self.attempt {
            attempt.some_law();
        }
    }

    /// Hears a frame of a station with which there is no link.
    fn hear_stranger(&mut self, frame: &Frame<'_>)
        ensures hears { Becomes self.old self.new (λ client. hearing_stranger client (value_of frame.now)) }
        ensures keeps { KeepsNotes self.old self.new }
    {
        if is_answered(frame) {
            self.stray = Some(Refusal {
                to: frame.src,
                poll: frame.poll,
            });
        }
    }
}

/// Whether the frame is of this station.
fn is_from(station: Call, frame: &Frame<'_>) -> bool
    ensures { result ≡ is_same_call (value_of frame.now).src station }
{
    frame.src == station
}
