//! The refusals of a journal.

ghost use Rattle.std.specs.Prelude.{◌≡◌};
ghost use Rattle.file_journal.specs.Refusals.{fault_of_apply, fault_of_read, fault_of_recovery};
ghost use Rattle.file_journal.specs.declared.faults.ApplyFault.TheVariants.{Disk as ApplyDisk, OutOfMemory as ApplyNoMemory};
ghost use Rattle.file_journal.specs.declared.faults.JournalFault.TheVariants.{Disk as append_disk};
ghost use Rattle.file_journal.specs.declared.faults.RecoverFault.TheVariants.{Disk};
ghost use Rattle.file_journal.specs.declared.faults.ReadFault.TheVariants.{Disk as ReadDisk};
ghost use Rattle.file_journal.specs.declared.faults.StoreFault.TheVariants.{OutOfMemory as StoreNoMemory};

use disk_model::DiskFault;
use px_base::OutOfMemory;
use thiserror::Error;

/// Why a disk's content isn't read as a journal.
#[derive(Clone, Copy, Debug, PartialEq, Eq, Error)]
pub enum RecoverFault {
    /// There are more than 16 octets, and they don't begin with the magic.
    #[error("no store: it begins with {found:?}")]
    NotAStore {
        /// The first eight octets.
        found: [u8; 8],
    },
    /// There are more than 16 octets that begin with the magic, and the block number isn't in 1..=65,536; or a gate is
    /// open, and the record behind it is cut by the end of the disk or of the half of the records, has no gate behind
    /// it there, or has a content length above 600; or the disk ends before the gate's place.
    #[error("the store is damaged at octet {at}")]
    Damaged {
        /// 8 for the block number, else the place of the gate.
        at: u64,
    },
    /// The disk failed, and its count of faults rose.
    #[error("the disk failed")]
    Disk,
}

impl From<DiskFault> for RecoverFault {
    ghost from_gives = { λ _ fault. fault ≡ Disk };

    fn from(_fault: DiskFault) -> RecoverFault {
        RecoverFault::Disk
    }
}

/// Why a record that was read wasn't applied, and nothing is known of what it would make.
#[derive(Clone, Copy, Debug, PartialEq, Eq, Error)]
pub enum ApplyFault {
    /// The disk failed, and its count of faults rose.
    #[error("the disk failed")]
    Disk,
    /// There was no memory for what a record makes of the ledger.
    #[error("out of memory")]
    OutOfMemory,
}

impl From<DiskFault> for ApplyFault {
    ghost from_gives = { λ _ fault. fault ≡ ApplyDisk };

    fn from(_fault: DiskFault) -> ApplyFault {
        ApplyFault::Disk
    }
}

impl From<OutOfMemory> for ApplyFault {
    ghost from_gives = { λ _ fault. fault ≡ ApplyNoMemory };

    fn from(_refused: OutOfMemory) -> ApplyFault {
        ApplyFault::OutOfMemory
    }
}

/// Why the records of a journal weren't all read and applied.
#[derive(Clone, Copy, Debug, PartialEq, Eq, Error)]
pub enum ReadFault {
    /// The record behind a gate is one that the state before it doesn't allow; or a gate is open, and no whole record
    /// with a gate behind it follows; or the disk has become shorter than the gate's place.
    #[error("the store is damaged at octet {at}")]
    Damaged {
        /// The place of the gate.
        at: u64,
    },
    /// The disk failed, and its count of faults rose.
    #[error("the disk failed")]
    Disk,
    /// There was no memory for what a record makes of the ledger.
    #[error("out of memory")]
    OutOfMemory,
}

impl From<DiskFault> for ReadFault {
    ghost from_gives = { λ _ fault. fault ≡ ReadDisk };

    fn from(_fault: DiskFault) -> ReadFault {
        ReadFault::Disk
    }
}

impl From<ApplyFault> for ReadFault {
    ghost from_gives = { λ fault result. result ≡ fault_of_apply fault };

    fn from(fault: ApplyFault) -> ReadFault {
        match fault {
            ApplyFault::Disk => ReadFault::Disk,
            ApplyFault::OutOfMemory => ReadFault::OutOfMemory,
        }
    }
}

/// Why a disk's content isn't read as a state that a journal keeps.
#[derive(Clone, Copy, Debug, PartialEq, Eq, Error)]
pub enum StoreFault {
    /// There are more than 16 octets, and they don't begin with the magic.
    #[error("no store: it begins with {found:?}")]
    NotAStore {
        /// The first eight octets.
        found: [u8; 8],
    },
    /// The block number isn't in 1..=65,536; or the record behind an open gate is cut, or is one that the state before
    /// it doesn't allow.
    #[error("the store is damaged at octet {at}")]
    Damaged {
        /// 8 for the block number, else the place of the gate.
        at: u64,
    },
    /// The disk failed, and its count of faults rose.
    #[error("the disk failed")]
    Disk,
    /// There was no memory for what a record makes of the state.
    #[error("out of memory")]
    OutOfMemory,
}

impl From<OutOfMemory> for StoreFault {
    ghost from_gives = { λ _ fault. fault ≡ StoreNoMemory };

    fn from(_refused: OutOfMemory) -> StoreFault {
        StoreFault::OutOfMemory
    }
}

impl From<RecoverFault> for StoreFault {
    ghost from_gives = { λ fault result. result ≡ fault_of_recovery fault };

    fn from(fault: RecoverFault) -> StoreFault {
        match fault {
            RecoverFault::NotAStore { found } => StoreFault::NotAStore { found },
            RecoverFault::Damaged { at } => StoreFault::Damaged { at },
            RecoverFault::Disk => StoreFault::Disk,
        }
    }
}

impl From<ReadFault> for StoreFault {
    ghost from_gives = { λ fault result. result ≡ fault_of_read fault };

    fn from(fault: ReadFault) -> StoreFault {
        match fault {
            ReadFault::Damaged { at } => StoreFault::Damaged { at },
            ReadFault::Disk => StoreFault::Disk,
            ReadFault::OutOfMemory => StoreFault::OutOfMemory,
        }
    }
}

/// Why a record wasn't appended, a block wasn't written, or the records weren't written anew.
#[derive(Clone, Copy, Debug, PartialEq, Eq, Error)]
pub enum JournalFault {
    /// The disk failed, and its count of faults rose. The record, the octets of the block, or the new records may stand
    /// or not.
    #[error("the disk failed")]
    Disk,
    /// An earlier append, a write of a block, or a rewriting failed; a new recovery is needed.
    #[error("the journal failed before")]
    Failed,
}

impl From<DiskFault> for JournalFault {
    ghost from_gives = { λ _ fault. fault ≡ append_disk };

    fn from(_fault: DiskFault) -> JournalFault {
        JournalFault::Disk
    }
}
