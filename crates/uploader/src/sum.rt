//! What tells one file from another.

ghost use Rattle.std.specs.Prelude.{◌≡◌, ◌≤◌, length};
ghost use Rattle.uploader.specs.Loading.{most_octets, sum_of};

use sha2::{Digest, Sha256};

/// A file's length and digest.
#[derive(Clone, Copy, Debug, PartialEq, Eq)]
pub struct FileSum {
    /// How many octets it has.
    pub length: u32,
    /// Its SHA-256.
    pub digest: [u8; 32],
}

/// The length and the digest of a file of at most 4,194,304 octets. Takes no memory.
pub(crate) fn sum_of_file(file: &[u8]) -> FileSum
    requires { length file.now ≤ most_octets }
    ensures { result ≡ sum_of file.now }
{
    FileSum {
        length: file.len() as u32,
        digest: Sha256::digest(file),
    }
}
