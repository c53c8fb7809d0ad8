//! The calls by which files are reached.

use crate::system_error::SystemError;
use px_base::FileBytes;

/// What is at a path.
#[derive(Clone, Copy, Debug, PartialEq, Eq)]
pub enum Found {
    /// Nothing.
    Nothing,
    /// A regular file, with the bits that say who may read, write and run it.
    File { mode: u32 },
    /// A link to another path.
    Link,
    /// Anything else: a folder, a pipe, a device.
    Other,
}

/// A call that reached the files, with what it answered. A path is the octets of its text; a file that was opened has a
/// number.
#[derive(Debug, Drop)]
pub enum FileCall {
    /// The place was asked for from which on no write may begin.
    Limit {
        answer: u64,
    },
    /// The file at this path was to be opened for reading and writing, and made if nothing is there.
    Open {
        path: FileBytes,
        answer: Result<u64, SystemError>,
    },
    /// The lock of a file was asked for, which another may hold.
    Lock {
        file: u64,
        answer: Result<(), SystemError>,
    },
    /// A file was asked for its length.
    Length {
        file: u64,
        answer: Result<u64, SystemError>,
    },
    /// A file was asked for this number of octets from this place on, and gave these.
    Read {
        file: u64,
        at: u64,
        count: usize,
        answer: Result<FileBytes, SystemError>,
    },
    /// A file was given these octets to write at this place, and wrote this number of them.
    Write {
        file: u64,
        at: u64,
        bytes: FileBytes,
        answer: Result<usize, SystemError>,
    },
    /// A file was to be cut to no octets.
    Cut {
        file: u64,
        answer: Result<(), SystemError>,
    },
    /// A file was to have these bits, which say who may read, write and run it.
    SetMode {
        file: u64,
        mode: u32,
        answer: Result<(), SystemError>,
    },
    /// The octets of a file and its length were to be kept through a loss of power.
    Sync {
        file: u64,
        answer: Result<(), SystemError>,
    },
    /// The names in the folder at this path were to be kept so.
    SyncFolder {
        path: FileBytes,
        answer: Result<(), SystemError>,
    },
    /// It was asked what is at this path, of which no link is followed.
    Look {
        path: FileBytes,
        answer: Result<Found, SystemError>,
    },
    /// It was asked where this path leads, with each link followed.
    Resolve {
        path: FileBytes,
        answer: Result<FileBytes, SystemError>,
    },
    /// What is at a path was to be moved to another one, in place of what was there, while these files were open: the
    /// one that was moved, and the one that it replaced, or the first one twice.
    Rename {
        file: u64,
        held: u64,
        from: FileBytes,
        to: FileBytes,
        answer: Result<(), SystemError>,
    },
    /// The name at this path was to go.
    Remove {
        path: FileBytes,
        answer: Result<(), SystemError>,
    },
    /// All of these octets were to be written, one after the other, to what is at this path, as a pipe takes them.
    Pour {
        path: FileBytes,
        bytes: FileBytes,
        answer: Result<(), SystemError>,
    },
    /// What is at this path was to be opened for reading alone.
    OpenToRead {
        path: FileBytes,
        answer: Result<(), SystemError>,
    },
}
