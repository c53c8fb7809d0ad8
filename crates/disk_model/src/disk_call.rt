//! A call of a disk, as contracts speak of it.

use px_base::FileBytes;

/// A call of `write_at` or `sync`, or a power cut. None is kept at run time: a past has them in proofs.
#[derive(Debug, Drop)]
pub(crate) enum DiskCall {
    /// These octets were written at this place.
    Write {
        at: u64,
        bytes: FileBytes,
    },
    /// Writing so many octets at this place failed: any octets may stand there.
    TornWrite {
        at: u64,
        count: u64,
    },
    /// All that was written was synced.
    Sync,
    /// A sync failed.
    FailedSync,
    /// Power was lost: these octets were left in the ranges that were open, range by range, the latest one last; and
    /// those behind what was synced.
    PowerCut {
        inside: FileBytes,
        behind: FileBytes,
    },
}
