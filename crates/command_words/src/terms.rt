//! With whom a client speaks, and how: what the words of each of its commands give.

ghost use Rattle.std.specs.Prelude.{IfNone, IfSome, option_copied};
ghost use Rattle.command_words.specs.Clients.{TermsText};

use crate::number::number_or;
use crate::request::POLLS;
use crate::serve::{K, MOST_K};
use px_base::Call;

/// With whom a client speaks, under which call, with which k, and at how many polls at most.
#[derive(Clone, Copy, Debug, PartialEq, Eq)]
pub struct ClientTerms {
    /// The call of the server.
    pub server: Call,
    /// The call of the client itself.
    pub me: Call,
    /// How many I frames of the link may be outstanding (k of AX.25 2.0, 2.4.7.4): 1 to 7; [`K`] where the words give
    /// none.
    pub k: u8,
    /// How many polls are made at most: 1 or more; [`POLLS`] where the words give none.
    pub polls: u64,
}

/// The terms that SERVER, ME and the values of `--k` and `--polls` give, or nothing where one of them is none.
pub(crate) fn read_terms(
    server: &str,
    me: &str,
    k: Option<&str>,
    polls: Option<&str>,
) -> Option<ClientTerms>
    ensures some { IfSome result (λ terms.
        TermsText server.now me.now (option_copied k.entry) (option_copied polls.entry) terms) }
    ensures none { IfNone result ((terms : ClientTerms) →
        TermsText server.now me.now (option_copied k.entry) (option_copied polls.entry) terms → ⊥) }
{
    let Ok(server_call) = Call::read(server) else {
        return None;
    };
    let Ok(own_call) = Call::read(me) else {
        return None;
    };
    let most_outstanding = number_or(u64::from(K), 1, MOST_K, k)?;
    let poll_count = number_or(POLLS, 1, u64::MAX, polls)?;
    Some(ClientTerms {
        server: server_call,
        me: own_call,
        k: most_outstanding as u8,
        polls: poll_count,
    })
}
