//! What came of a rehearsal.

ghost use Rattle.air_rehearsal.specs.Counting.{Tells, TellsThen, acked_more, asked_more, cut_more, event_more};
ghost use Rattle.air_rehearsal.specs.Counting.{no_counts, outcome_more};

use ftl0_client::Outcome;
use std::fmt;

/// What came of a rehearsal.
#[derive(Clone, Copy, Debug, PartialEq, Eq)]
pub struct Report {
    /// How many events were played, the lines of cuts among them.
    pub events: u64,
    /// How often a client was asked for something.
    pub asked: u64,
    /// Of how many tasks the clients' notes say at the end that the server acknowledged the file.
    pub acked: u64,
    /// How many of their files the server's store has at the end, whole, as they were sent but for the server's items.
    pub kept: u64,
    /// How often what was asked was refused, or came with a fault.
    pub refused: u64,
    /// How often a file came whole.
    pub fetched: u64,
    /// How often power was cut.
    pub cuts: u64,
}

impl Report {
    /// Before the first event.
    pub(crate) fn new() -> Report
        ensures { Tells result no_counts }
    {
        Report {
            events: 0,
            asked: 0,
            acked: 0,
            kept: 0,
            refused: 0,
            fetched: 0,
            cuts: 0,
        }
    }

    /// An event comes.
    pub(crate) fn count_event(&mut self)
        ensures { TellsThen event_more self.old self.new }
    {
        self.events = self.events.saturating_add(1);
    }

    /// A client is asked for something, or it isn't.
    pub(crate) fn count_asked(&mut self, is_asked: bool)
        ensures { TellsThen (asked_more is_asked) self.old self.new }
    {
        if is_asked {
            self.asked = self.asked.saturating_add(1);
        }
    }

    /// Power is cut, or it isn't.
    pub(crate) fn count_cut(&mut self, is_cut: bool)
        ensures { TellsThen (cut_more is_cut) self.old self.new }
    {
        if is_cut {
            self.cuts = self.cuts.saturating_add(1);
        }
    }

    /// What was asked came to this, if it isn't under way.
    pub(crate) fn count_outcome(&mut self, outcome: Option<Outcome>)
        ensures { TellsThen (outcome_more outcome) self.old self.new }
    {
        match outcome {
            Some(Outcome::Refused { .. } | Outcome::BadFile { .. }) => {
                self.refused = self.refused.saturating_add(1);
            }
            Some(Outcome::Fetched { .. }) => self.fetched = self.fetched.saturating_add(1),
            _ => {}
        }
    }

    /// The server acknowledged a file, which is kept or not.
    pub(crate) fn count_acked(&mut self, is_kept: bool)
        ensures { TellsThen (acked_more is_kept) self.old self.new }
    {
        self.acked = self.acked.saturating_add(1);
        if is_kept {
            self.kept = self.kept.saturating_add(1);
        }
    }
}

impl fmt::Display for Report {
    ghost use Rattle.std.specs.Prelude.{Some};
    ghost use Rattle.air_rehearsal.specs.Counting.{report_text};

    ghost output = { λ report. Some (report_text report) };

    fn fmt<W: fmt::Write>(&self, f: &mut fmt::Formatter<W>) -> fmt::Result {
        let Report {
            events,
            asked,
            acked,
            kept,
            refused,
            fetched,
            cuts,
        } = *self;
        write!(
            f,
            "events {events} asked {asked} acked {acked} kept {kept} refused {refused} fetched {fetched} cuts {cuts}"
        )
    }
}
