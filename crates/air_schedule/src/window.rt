//! The first line.

ghost use Rattle.std.specs.Prelude.{ℕ, MatchOption};
ghost use Rattle.air_schedule.specs.Text.{LineText, window_line};

use crate::number::read_ranged;
use crate::split::split_word;
use std::str;

/// The greatest window of a link (k of AX.25 2.0, 2.4.7.4).
const MOST_WINDOW: u64 = 7;

/// The window that a line gives.
pub(crate) fn read_window(line: &[u8]) -> Option<u8>
    ensures { MatchOption result ((size : ℕ) → LineText (window_line size) line.now → ⊥)
        (λ size. LineText (window_line size) line.now) }
{
    let Ok(line) = str::from_utf8(line) else {
        return None;
    };
    let (keyword, size) = split_word(line)?;
    if keyword != "window" {
        return None;
    }
    Some(read_ranged(1, MOST_WINDOW, size)? as u8)
}
