//! An air that shows what passes over another one.

ghost use Rattle.std.specs.Prelude.{◌≡◌, IfOk, OnErr, OnOk};
ghost use Rattle.px_base.specs.Outside.{Gains, GainsPrefix, HasCause};
ghost use Rattle.px_base.specs.Polling.{Hears, IsPolled, turn_of};

use crate::lines::Lines;
use crate::watcher::Watcher;
use px_base::{Air, AirDown, Clock, Moment, Out, Polled};
use std::marker::Model;

/// An air that is the one that it wraps, and shows on an output what passes. Contracts see it as that air, so each of
/// them says that what it shows changes nothing. It takes no memory.
#[derive(Drop)]
pub struct LoggedAir<'a, A, O, C> {
    air: A,
    watcher: Option<Watcher<'a>>,
    lines: Lines,
    out: O,
    clock: C,
}

impl<'a, A, O, C> Model for LoggedAir<'a, A, O, C> {
    ghost Value = { A };

    ghost view = { λ a. a.air };
}

impl<'a, A, O, C> LoggedAir<'a, A, O, C> {
    /// This air, which shows on `out` the lines of the watcher, if there is one, with the moments of `clock`. A
    /// terminal is an output on which a line can be written over.
    pub fn new(
        air: A,
        watcher: Option<Watcher<'a>>,
        terminal: bool,
        out: O,
        clock: C,
    ) -> LoggedAir<'a, A, O, C>
        ensures { result ≡ air }
    {
        LoggedAir {
            air,
            watcher,
            lines: Lines::new(terminal),
            out,
            clock,
        }
    }

    /// The air that it wraps.
    pub fn air(&self) -> &A
        ensures { result.now ≡ self.now }
    {
        &self.air
    }
}

impl<'a, A: Air, O: Out, C: Clock> LoggedAir<'a, A, O, C> {
    /// Shows what the octets say that a poll brought, or a put gave. That it can't be shown is ignored.
    fn show(&mut self, heard: bool, octets: &[u8])
        ensures { self.new ≡ self.old }
    {
        if self.watcher.is_none() {
            return;
        }
        let moment = self.clock.now();
        watch(&mut self.watcher, heard, octets, moment, &mut self.lines);
        if !self.lines.as_bytes().is_empty() {
            let _ = self.out.put(self.lines.as_bytes());
            self.lines.clear();
        }
    }
}

impl<'a, A: Air, O: Out, C: Clock> Air for LoggedAir<'a, A, O, C> {
    ghost heard = { A.heard };

    ghost said = { A.said };

    ghost read_faults = { A.read_faults };

    ghost write_faults = { A.write_faults };

    /// Polls the air that it wraps, once, and then shows what was heard; a poll that failed shows nothing.
    fn poll(&mut self, room: &mut [u8; 512]) -> Result<Polled, AirDown>
        ensures count { IfOk result IsPolled }
        ensures heard { Hears (A.heard self.old) (A.heard self.new) (turn_of result room.new) }
        ensures said { A.said self.new ≡ A.said self.old }
        ensures read_faults { HasCause (A.read_faults self.old) (A.read_faults self.new) result }
        ensures write_faults { A.write_faults self.new ≡ A.write_faults self.old }
    {
        let polled = self.air.poll(room);
        match polled {
            Ok(Polled::Bytes(count)) => self.show(true, &room[..count]),
            Ok(_) => self.show(true, &[]),
            Err(AirDown) => {}
        }
        polled
    }

    /// Says these octets on the air that it wraps, in one call, and then shows them if they were said.
    fn put(&mut self, bytes: &[u8]) -> Result<(), AirDown>
        ensures ok { OnOk result (Gains (A.said self.old) (A.said self.new) bytes.now) }
        ensures err { OnErr result (GainsPrefix (A.said self.old) (A.said self.new) bytes.now) }
        ensures heard { A.heard self.new ≡ A.heard self.old }
        ensures write_faults { HasCause (A.write_faults self.old) (A.write_faults self.new) result }
        ensures read_faults { A.read_faults self.new ≡ A.read_faults self.old }
    {
        self.air.put(bytes)?;
        self.show(false, bytes);
        Ok(())
    }
}

/// Adds the lines of a poll that brought these octets, or of a put of them.
fn watch(
    watcher: &mut Option<Watcher<'_>>,
    heard: bool,
    octets: &[u8],
    moment: Moment,
    lines: &mut Lines,
) {
    match watcher {
        Some(watcher) if heard => {
            watcher.polls(moment, lines);
            watcher.heard(octets, moment, lines);
        }
        Some(watcher) => watcher.said(octets, moment, lines),
        None => {}
    }
}
