//! A schedule, and the reading of its text.

ghost use Rattle.std.specs.Prelude.{◌≡◌, ◌∷◌, ◌++◌, [], ℕ, List, IfErr, IfOk, OnOk, OnErr, IsErrOf, map};
ghost use Rattle.air_schedule.specs.Events.{event_value};
ghost use Rattle.air_schedule.specs.Schedule.{IsInRange, IsSchedule};
ghost use Rattle.air_schedule.specs.Text.{BeginSchedule, FirstBadLine, Line, LineText, ScheduleText};
ghost use Rattle.air_schedule.specs.Text.{client_line, event_line, lines_of};
ghost use Rattle.px_base.specs.CallSign.{IsCall};

use crate::call_word::read_client;
use crate::event_line::read_event;
use crate::fault::LineFault;
use crate::split::split_line;
use crate::window::read_window;
use crate::{Event, ScheduleFault};
use px_base::Call;
use std::alloc::Global;
use std::marker::Model;
use std::str;

/// How many clients a schedule has at most.
const MOST_CLIENTS: usize = 8;

/// A schedule: the window of the links, the calls of the clients, no two the same, and the events in their order.
/// Contracts see it as the `Schedule` of the definitions.
#[derive(Debug, Drop)]
pub struct Schedule {
    window: u8,
    clients: Vec<Call>,
    events: Vec<Event>,
}

impl Model for Schedule {
    ghost use Rattle.std.specs.Prelude.{map};
    ghost use Rattle.air_schedule.specs.Events.{event_value};
    ghost use Rattle.air_schedule.specs.Schedule.{IsSchedule, Schedule};

    ghost Value = { Schedule };

    ghost view = { λ a. record {
      size = a.window;
      calls = a.clients.items;
      events = map event_value a.events.items;
    } };

    ghost invariant = { λ a. IsSchedule (record {
      size = a.window;
      calls = a.clients.items;
      events = map event_value a.events.items;
    }) };
}

impl Schedule {
    /// Reads the text of a schedule: its lines, each ended by LF. `BadLine` comes exactly if the text is none, for the
    /// first line that can't be a schedule's, before any event is played. Takes memory.
    pub fn read(alloc: Global, text: &[u8]) -> Result<Schedule, ScheduleFault>
        ensures read { IfOk result (λ schedule. ScheduleText schedule text.now) }
        ensures bad { (line : ℕ) → result ≡ Err (ScheduleFault.BadLine line) → FirstBadLine text.now line }
    {
        let Some((first, mut rest)) = split_line(text) else {
            return Err(ScheduleFault::BadLine { line: 1 });
        };
        let Some(window) = read_window(first) else {
            return Err(ScheduleFault::BadLine { line: 1 });
        };
        let mut schedule = Schedule {
            window,
            clients: Vec::new(alloc),
            events: Vec::new(alloc),
        };
        let mut line = 2;
        while !rest.is_empty() {
            let Some((next, later)) = split_line(rest) else {
                return Err(ScheduleFault::BadLine { line });
            };
            if let Err(fault) = schedule.add(alloc, next) {
                return Err(fault.at(line));
            }
            rest = later;
            line += 1;
        }
        Ok(schedule)
    }

    /// How many I frames of a link may be outstanding (k of AX.25 2.0, 2.4.7.4): 1 to 7. Takes no memory.
    pub fn window(&self) -> u8
        ensures { result ≡ self.now.size }
    {
        self.window
    }

    /// The calls of the clients, in the order of their numbers, at most eight. Takes no memory.
    pub fn clients(&self) -> &[Call]
        ensures { result.now ≡ self.now.calls }
    {
        &self.clients
    }

    /// The events, in their order. Takes no memory.
    pub fn events(&self) -> &[Event]
        ensures { map event_value result.now ≡ self.now.events }
    {
        &self.events
    }

    /// A law, which does nothing: the window, the clients and the events keep to their ranges.
    pub fn fits_law(&self)
        ensures { IsSchedule self.now }
    {
        let _window = self.window;
    }

    /// Takes the next line, without its LF. Takes memory.
    fn add(&mut self, alloc: Global, line: &[u8]) -> Result<(), LineFault>
        ensures taken { OnOk result ((said : Line) × LineText said line.now
            × (lines_of self.new ≡ lines_of self.old ++ said ∷ [])) }
        ensures schedule { OnOk result (IsSchedule self.new) }
        ensures kept { OnErr result (self.new ≡ self.old) }
        ensures none { IsErrOf result LineFault.NoLine → (said : Line) (more : List Line) → LineText said line.now
            → BeginSchedule (lines_of self.old ++ said ∷ more) → ⊥ }
    {
        let Ok(line) = str::from_utf8(line) else {
            return Err(LineFault::NoLine);
        };
        if let Some(call) = read_client(line) {
            return self.add_client(call);
        }
        match read_event(alloc, line) {
            Ok(event) => self.add_event(event),
            Err(fault) => Err(fault),
        }
    }

    /// Takes one more event. Takes memory.
    fn add_event(&mut self, event: Event) -> Result<(), LineFault>
        requires { IsInRange (event_value event) }
        ensures taken { OnOk result (lines_of self.new ≡ lines_of self.old ++ event_line (event_value event) ∷ []) }
        ensures schedule { OnOk result (IsSchedule self.new) }
        ensures kept { OnErr result (self.new ≡ self.old) }
        ensures fault { IfErr result (λ fault. fault ≡ LineFault.OutOfMemory) }
    {
        self.events.push(event)?;
        Ok(())
    }

    /// Takes one more client, if there are fewer than eight, there is no event, and none has its call. Takes memory.
    fn add_client(&mut self, call: Call) -> Result<(), LineFault>
        requires { IsCall call }
        ensures taken { OnOk result (lines_of self.new ≡ lines_of self.old ++ client_line call ∷ []) }
        ensures schedule { OnOk result (IsSchedule self.new) }
        ensures kept { OnErr result (self.new ≡ self.old) }
        ensures none { IsErrOf result LineFault.NoLine → (more : List Line)
            → BeginSchedule (lines_of self.old ++ client_line call ∷ more) → ⊥ }
    {
        let is_full = self.clients().len() == MOST_CLIENTS;
        if is_full || !self.events().is_empty() || self.clients().contains(&call) {
            return Err(LineFault::NoLine);
        }
        self.clients.push(call)?;
        Ok(())
    }
}
