//! Laws of a job's table.

ghost use Rattle.ftl0_client_job.specs.Laws.{AcknowledgedLaw, BegunLaw, ContinuedLaw, DueLaw, FetchedLaw};
ghost use Rattle.ftl0_client_job.specs.Laws.{FetchingLaw, ListedLaw, OwnedLaw, PromisesLaw, ResumedLaw, ShortLaw};
ghost use Rattle.ftl0_client_job.specs.Laws.{StartedLaw, StaysLaw};

use disk_model::Disk;

/// Notes that go with a job before a packet go with it after the packet's row.
pub fn stays_law()
    ensures { StaysLaw }
{}

/// The task that a start of the notes gives is the one that the file's upload needs.
pub fn started_law<D: Disk>()
    ensures { StartedLaw D.Disk }
{}

/// The task that a start of the notes gives is of the server, the caller and the digest that were given.
pub fn owned_law<D: Disk>()
    ensures { OwnedLaw D.Disk }
{}

/// An upload whose outcome is that its file was acknowledged noted that, and it stays noted from then on.
pub fn acknowledged_law()
    ensures { AcknowledgedLaw }
{}

/// An upload that is continued is sent from the offset that the server gave, and a download from the end of the octets
/// that the notes have.
pub fn continued_law()
    ensures upload { ContinuedLaw }
    ensures download { ResumedLaw }
{}

/// The octets of a download that came are those that were noted and those that aren't noted yet; what was fetched has no
/// fault.
pub fn fetched_law()
    ensures octets { FetchingLaw }
    ensures whole { FetchedLaw }
{}

/// A list is whole only if its octets are whole short headers, one after another.
pub fn listed_law()
    ensures { ListedLaw }
{}

/// Octets are a short header exactly if they are a header of the mandatory items alone, in ascending order (PFH 1990,
/// mandatory header; FTL0 1990, short directory).
pub fn short_law()
    ensures { ShortLaw }
{}

/// What is true of a job that was just made is true after each packet, and once what was due was sent: it is of the
/// work that was asked, and its outcome keeps what it promises.
pub fn promises_law()
    ensures begun { BegunLaw }
    ensures packet { PromisesLaw }
    ensures due { DueLaw }
{}
