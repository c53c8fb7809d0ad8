//! What the system's clock reads: the time since 1970.

ghost use Rattle.std.specs.Prelude.{◌≡◌, ◌∷◌, [], List, None, Option};
ghost use Rattle.px_base.specs.Outside.{Grows};
ghost use Rattle.real_outside.specs.Clocks.{Reading};

use crate::system_error::{SystemError, system_answer};
use std::marker::Model;
use std::rt::Clock;
use std::time::Duration;

/// What gives the time since 1 January 1970. The readings of it may be observable: in the form in memory they are, in
/// the real one they aren't.
pub trait TimeSource {
    /// The readings so far, if they can be observed.
    ghost readings: { Self → Option (List Reading) };

    /// Reads the time since 1 January 1970.
    fn since_1970(&mut self) -> Result<Duration, SystemError>
        ensures { Grows (readings self.old) (readings self.new) (result ∷ []) };
}

/// The system's own time. None of its readings can be observed.
#[derive(Drop)]
pub struct SystemTime<R> {
    clock: R,
}

impl<R> Model for SystemTime<R> {
    ghost Value = { R };

    ghost view = { λ a. a.clock };
}

impl<R: Clock> SystemTime<R> {
    /// The time of this clock.
    pub fn new(clock: R) -> SystemTime<R>
        ensures { result ≡ clock }
    {
        SystemTime { clock }
    }
}

impl<R: Clock> TimeSource for SystemTime<R> {
    ghost readings = { λ _. None };

    fn since_1970(&mut self) -> Result<Duration, SystemError> {
        system_answer(self.clock.since_1970())
    }
}
