//! The line of a client.

ghost use Rattle.std.specs.Prelude.{MatchOption};
ghost use Rattle.px_base.specs.CallSign.{CallSign};
ghost use Rattle.air_schedule.specs.Text.{LineWords, client_line, words_of};

use crate::split::split_word;
use px_base::Call;

/// The call that a line gives a client.
pub(crate) fn read_client(line: &str) -> Option<Call>
    ensures { MatchOption result ((call : CallSign) → LineWords (client_line call) (words_of line.now) → ⊥)
        (λ call. LineWords (client_line call) (words_of line.now)) }
{
    let (keyword, call) = split_word(line)?;
    if keyword != "client" {
        return None;
    }
    match Call::read(call) {
        Ok(call) => Some(call),
        Err(_) => None,
    }
}
