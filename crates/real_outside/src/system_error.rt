//! Why a call of the system failed.

ghost use Rattle.std.specs.Prelude.{◌≡◌, None, Option, Some, IfOk, IfErr, OnOk};
ghost use Rattle.real_outside.specs.Systems.{system_error};

use std::io::{self, ErrorKind};
use thiserror::Error;

/// Why the system refused a call: the kind of its error, and its number if the system gave one.
#[derive(Clone, Copy, Debug, PartialEq, Eq, Error)]
#[error("the system refused a call: {kind}")]
pub struct SystemError {
    /// What sort of failure it is.
    pub kind: ErrorKind,
    /// The number that the system has for it.
    pub number: Option<i32>,
}

impl From<io::Error> for SystemError {
    ghost from_gives = { λ refused error. error ≡ system_error refused };

    /// The kind and the number of the error.
    fn from(refused: io::Error) -> SystemError
        ensures { result ≡ system_error refused }
    {
        SystemError {
            kind: refused.kind(),
            number: refused.raw_os_error(),
        }
    }
}

impl From<ErrorKind> for SystemError {
    ghost from_gives = { λ kind error. error ≡ record { kind = kind; number = None } };

    /// A refusal of this kind, for which there is no number.
    fn from(kind: ErrorKind) -> SystemError
        ensures { result ≡ record { kind = kind; number = None } }
    {
        SystemError { kind, number: None }
    }
}

/// The answer of a call of the system, of whose error the kind and the number are kept.
pub fn system_answer<T: Drop>(answer: io::Result<T>) -> Result<T, SystemError>
    ensures ok { IfOk answer (λ value. result ≡ Ok value) }
    ensures err { IfErr answer (λ refused. result ≡ Err (system_error refused)) }
{
    Ok(answer?)
}

/// The same answer, of which an error is kept as the last one.
pub(crate) fn noted<T>(
    last_error: &mut Option<SystemError>,
    answer: Result<T, SystemError>,
) -> Result<T, SystemError>
    ensures same { result ≡ answer }
    ensures kept { OnOk answer (last_error.new ≡ last_error.old) }
    ensures noted { IfErr answer (λ error. last_error.new ≡ Some error) }
{
    if let Err(error) = &answer {
        *last_error = Some(*error);
    }
    answer
}
