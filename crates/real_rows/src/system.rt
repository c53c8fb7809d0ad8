//! Rows of the system.
//!
//! - `clock`: reads the clock twice: `ok` if the first moment is past 1 January 2024, and the second one isn't before
//!   it; else both moments.
//! - `texts`: the texts of errors: a device that failed, and a call that the system refused.

use anyhow::{Result, bail};
use px_base::Clock;
use real_outside::{DeviceDown, SystemClock, SystemError};
use row_words::{Player, text_of};
use std::alloc::Global;
use std::io::ErrorKind;
use std::rt;

/// 1 January 2024, in seconds since 1 January 1970.
const YEAR_2024: u32 = 1_704_067_200;

/// Plays rows of the system, each on its own.
#[derive(Drop)]
pub struct SystemRows<'a, R> {
    clock: &'a R,
}

impl<'a, R> SystemRows<'a, R> {
    /// Rows whose clock is this one.
    pub fn new(clock: &'a R) -> SystemRows<'a, R> {
        SystemRows { clock }
    }
}

impl<R: rt::Clock> Player for SystemRows<'_, R> {
    fn play(&mut self, alloc: Global, row: &str) -> Result<String> {
        match row {
            "clock" => clock(alloc, self.clock),
            "texts" => texts(alloc),
            _ => bail!("no kind of row"),
        }
    }
}

/// `clock`
fn clock<R: rt::Clock>(alloc: Global, clock: &R) -> Result<String> {
    let mut clock = SystemClock::new(clock);
    let (first, second) = (clock.now().get(), clock.now().get());
    if first > YEAR_2024 && second >= first {
        return text_of(alloc, "ok");
    }
    text_of(alloc, format_args!("{first} {second}"))
}

/// `texts`
fn texts(alloc: Global) -> Result<String> {
    let error = SystemError::from(ErrorKind::Other);
    let down = DeviceDown::from(error);
    text_of(alloc, format_args!("{down}; {error}"))
}
