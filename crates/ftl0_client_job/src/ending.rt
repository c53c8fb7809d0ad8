//! How a job ends.

ghost use Rattle.std.specs.Prelude.{◌≡◌};
ghost use Rattle.ftl0_client_job.specs.Row.{at_once as ending_at_once, later as ending_later, strange_ending};

use ax25_link::Why;
use px_base::FileNumber;

/// What became of what was asked: of a job, or of the link over which it was done.
#[derive(Clone, Copy, Debug, PartialEq, Eq)]
pub enum Outcome {
    /// The server acknowledged the file, and that is noted.
    Acked {
        /// Its number on the server.
        number: FileNumber,
    },
    /// The server refused the upload, the selection or the download.
    Refused {
        /// The server's code (FTL0 1990, error codes).
        code: u8,
    },
    /// The file that came has a fault, and was given up.
    BadFile {
        /// The code of its first fault: 6, 7, 14, 15 or 16.
        code: u8,
    },
    /// The whole file came, is noted, has no fault, and the server knows.
    Fetched {
        /// Its number on the server.
        number: FileNumber,
    },
    /// The whole list came.
    Listed,
    /// The link went down, for this reason, before any of the others. No job ends so.
    LinkDown(Why),
    /// A packet came that has no row in the state, or is malformed; or the reply to it didn't fit the link.
    Strange {
        /// Its type.
        kind: u8,
    },
}

/// The outcome of a job, and when its link is hung up.
#[derive(Clone, Copy, Debug, PartialEq, Eq)]
pub struct Ending {
    /// What became of the job.
    pub outcome: Outcome,
    /// Whether the link is hung up once all that is queued is acknowledged, and not at once.
    pub later: bool,
}

impl Ending {
    /// With this outcome the link is hung up at once.
    pub(crate) fn at_once(outcome: Outcome) -> Ending
        ensures { result ≡ ending_at_once outcome }
    {
        Ending {
            outcome,
            later: false,
        }
    }

    /// With this outcome the link is hung up once all that is queued is acknowledged.
    pub(crate) fn later(outcome: Outcome) -> Ending
        ensures { result ≡ ending_later outcome }
    {
        Ending {
            outcome,
            later: true,
        }
    }
}

/// A packet of this type is strange.
pub(crate) fn strange(kind: u8) -> Ending
    ensures { result ≡ strange_ending kind }
{
    Ending::at_once(Outcome::Strange { kind })
}
