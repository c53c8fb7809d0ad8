//! Why a call of the store did not do what it was asked.

ghost use Rattle.std.specs.Prelude.{◌≡◌};
ghost use Rattle.file_store.specs.Refusals.{refusal_of_bar};
ghost use Rattle.file_store.specs.declared.refusals.BeginRefusal.TheVariants.{Disk as begin_disk};

use crate::OpenUpload;
use disk_model::DiskFault;
use file_store_model::BeginBar;
use thiserror::Error;

/// Why a file was not begun. Except for `Disk`, neither the store nor its disk was touched.
#[derive(Clone, Copy, Debug, PartialEq, Eq, Error)]
pub enum BeginRefusal {
    /// The length is above 4,194,304 octets.
    #[error("the file is longer than 4194304 octets")]
    TooLong,
    /// There are 1,024 entries.
    #[error("the store has 1024 entries")]
    TooMany,
    /// The next number is 4,294,967,295, and so no number is left.
    #[error("no number is left")]
    NumbersGone,
    /// The file takes more blocks of 512 octets than are free.
    #[error("the file takes {blocks} blocks, and {free} are free")]
    NoRoom {
        /// How many blocks the file takes.
        blocks: u32,
        /// How many blocks are free.
        free: u32,
    },
    /// This store answered `Disk` before; it is to be recovered again.
    #[error("the store failed before")]
    Failed,
    /// A write or a sync of the disk failed, and its count of write faults rose. The file may be begun or not.
    #[error("the disk failed")]
    Disk,
}

impl From<BeginBar> for BeginRefusal {
    ghost from_gives = { λ bar refusal. refusal ≡ refusal_of_bar bar };

    fn from(bar: BeginBar) -> BeginRefusal {
        match bar {
            BeginBar::TooLong => BeginRefusal::TooLong,
            BeginBar::TooMany => BeginRefusal::TooMany,
            BeginBar::NumbersGone => BeginRefusal::NumbersGone,
            BeginBar::NoRoom { blocks, free } => BeginRefusal::NoRoom { blocks, free },
        }
    }
}

impl From<DiskFault> for BeginRefusal {
    ghost from_gives = { λ _ refusal. refusal ≡ begin_disk };

    fn from(_fault: DiskFault) -> BeginRefusal {
        BeginRefusal::Disk
    }
}

/// Why an upload was not gone on with. The store is as it was.
#[derive(Clone, Copy, Debug, PartialEq, Eq, Error)]
pub enum ResumeRefusal {
    /// There is no entry of the number.
    #[error("no such file")]
    NoSuch,
    /// The entry is another caller's, or the file has another length.
    #[error("the file is another's, or of another length")]
    Bad,
    /// The file is complete.
    #[error("the file is complete")]
    Complete,
    /// This store answered `Disk` before; it is to be recovered again.
    #[error("the store failed before")]
    Failed,
}

/// Why octets were not appended.
pub enum AppendRefusal {
    /// More octets would come than the file has. None of them is taken; neither the store nor its disk was touched.
    TooMuch(OpenUpload),
    /// This store answered `Disk` before; it is to be recovered again. The upload is spent.
    Failed,
    /// A write or a sync of the disk failed, and its count of write faults rose. Some of the octets may be held. The
    /// upload is spent.
    Disk,
}

/// Why a file was not sealed.
pub enum SealRefusal {
    /// Fewer octets came than the file has. Neither the store nor its disk was touched.
    Short(OpenUpload),
    /// The file breaks a rule of file headers. Its entry is dropped, and its number never comes again. The upload is
    /// spent.
    Header {
        /// The code of the first rule that it breaks: 6, 7, 14, 15 or 16 (FTL0 1990, error codes).
        code: u8,
    },
    /// A read of the disk failed, and its count of read faults rose. All octets of the file are held, and it is under
    /// way.
    Read(OpenUpload),
    /// This store answered `Disk` before; it is to be recovered again. The upload is spent.
    Failed,
    /// A write or a sync of the disk failed, and its count of write faults rose. The file may be complete, dropped or
    /// under way. The upload is spent.
    Disk,
}

/// Why the header of a complete file was not read. Neither the store nor the disk's content was touched.
#[derive(Clone, Copy, Debug, PartialEq, Eq, Error)]
pub enum HeaderFault {
    /// A read of the disk failed, and its count of read faults rose.
    #[error("the disk failed")]
    Disk,
    /// What the blocks of the file hold is no header any more: something else wrote on the disk.
    #[error("the file has no header any more")]
    NoHeader,
}
