//! The system's clock. The moments that it gives can't be observed.

ghost use Rattle.std.specs.Prelude.{◌≡◌, None};
ghost use Rattle.real_outside.specs.Clocks.{ReadsOnce, moment_of as moment_of_reading};

use crate::system_error::SystemError;
use crate::time_source::{SystemTime, TimeSource};
use px_base::{Clock, Moment};
use std::marker::Model;
use std::rt;
use std::time::Duration;

/// The system's clock, whose time is read at each call. A moment before 1970 is 0, and so is that of a time that can't be
/// read; one past the last that a [`Moment`] holds is that.
#[derive(Drop)]
pub struct SystemClock<T> {
    source: T,
}

impl<T> Model for SystemClock<T> {
    ghost Value = { T };

    ghost view = { λ a. a.source };
}

impl<R: rt::Clock> SystemClock<SystemTime<R>> {
    /// A clock that reads the time of this one.
    pub fn new(clock: R) -> SystemClock<SystemTime<R>>
        ensures { result ≡ clock }
    {
        SystemClock::over(SystemTime::new(clock))
    }
}

impl<T: TimeSource> SystemClock<T> {
    /// A clock that reads this time.
    pub fn over(source: T) -> SystemClock<T>
        ensures { result ≡ source }
    {
        SystemClock { source }
    }

    /// The time that it reads.
    pub fn source(&self) -> &T
        ensures { result.now ≡ self.now }
    {
        &self.source
    }
}

impl<T: TimeSource> Clock for SystemClock<T> {
    ghost given = { λ _. None };

    /// The moment of one reading.
    fn now(&mut self) -> Moment
        ensures reads { ReadsOnce (T.readings self.old) (T.readings self.new) result }
    {
        moment_of(self.source.since_1970())
    }
}

/// The moment of this reading: whole seconds, up to 2^32 - 1, and 0 if the time can't be read.
fn moment_of(reading: Result<Duration, SystemError>) -> Moment
    ensures { result ≡ moment_of_reading reading }
{
    Moment::new(match reading {
        Ok(since) => u32::try_from(since.as_secs()).unwrap_or(u32::MAX),
        Err(_) => 0,
    })
}
