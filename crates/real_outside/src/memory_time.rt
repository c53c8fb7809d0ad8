//! A time in memory: a list of readings, of which the last goes on, and a record of those that were made.

ghost use Rattle.std.specs.Prelude.{◌≡◌, ◌∷◌, [], drop};
ghost use Rattle.px_base.specs.Outside.{Grows};
ghost use Rattle.px_base.specs.CallRecords.{no_calls, told};
ghost use Rattle.real_outside.specs.Clocks.{first_reading};

use crate::system_error::SystemError;
use crate::time_source::TimeSource;
use px_base::CallRecord;
use std::alloc::Global;
use std::collections::VecDeque;
use std::marker::Model;
use std::time::Duration;

/// A time in memory. It gives its readings in order, and then the last one at each call. They can be observed until one
/// finds no memory to be recorded.
#[derive(Drop)]
pub struct MemoryTime {
    coming: VecDeque<Result<Duration, SystemError>>,
    last: Result<Duration, SystemError>,
    made: CallRecord<Result<Duration, SystemError>>,
}

impl Model for MemoryTime {
    ghost use Rattle.real_outside.specs.Clocks.{MemoryTimeState};

    ghost Value = { MemoryTimeState };

    ghost view = { λ a. record { coming = a.coming.items; last = a.last; made = a.made } };
}

impl MemoryTime {
    /// A time that gives these readings, and then this one. Takes no memory.
    pub fn new(
        alloc: Global,
        first: Vec<Result<Duration, SystemError>>,
        last: Result<Duration, SystemError>,
    ) -> MemoryTime
        ensures { result ≡ record { coming = first.items; last = last; made = no_calls } }
    {
        MemoryTime {
            coming: VecDeque::from_vec(first),
            last,
            made: CallRecord::new(alloc),
        }
    }

    /// The readings that were made.
    pub fn made(&self) -> &CallRecord<Result<Duration, SystemError>>
        ensures { result.now ≡ self.now.made }
    {
        &self.made
    }
}

impl TimeSource for MemoryTime {
    ghost readings = { λ t. told t.made };

    /// The next reading, or the last one again.
    fn since_1970(&mut self) -> Result<Duration, SystemError>
        ensures made { Grows (told self.old.made) (told self.new.made) (result ∷ []) }
        ensures reading { result ≡ first_reading self.old.coming self.old.last }
        ensures coming { self.new.coming ≡ drop 1 self.old.coming }
        ensures last { self.new.last ≡ self.old.last }
    {
        let reading = self.coming.pop_front().unwrap_or(self.last);
        self.made.add(Ok(reading));
        reading
    }
}
