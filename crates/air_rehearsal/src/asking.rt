//! The files that clients are asked to send.

ghost use Rattle.std.specs.Prelude.{◌≡◌, IfOk};
ghost use Rattle.sha2.specs.Sha256.{sha256};
ghost use Rattle.air_world.specs.Files.Uploads.{body_octets, upload_file};

use crate::stopped::{Breach, Stopped};
use pfh_items::{AX25_UPLOADER, UPLOAD_TIME};
use pfh_writer::{FinishRefusal, HeaderBuilder};
use px_base::{FileBytes, OutOfMemory};
use sha2::{Digest, Sha256};
use std::alloc::Global;

/// An upload that was asked.
#[derive(Clone, Copy, Debug)]
pub(crate) struct Upload {
    /// The place of the client.
    pub client: usize,
    /// How many octets the file's body has.
    pub octets: u16,
}

/// The file of the upload of this number, with a body of so many octets. Takes memory.
pub(crate) fn file_of(alloc: Global, upload: u32, octets: u16) -> Result<FileBytes, Stopped>
    ensures { IfOk result (λ file. file ≡ upload_file upload octets) }
{
    let body = body_of(alloc, upload, octets)?;
    let mut builder = HeaderBuilder::new(alloc, *b"FILE    ", *b"BIN", 0, 0, 0, 0)?;
    builder.put(AX25_UPLOADER, b"      ")?;
    builder.put(UPLOAD_TIME, &[0; 4])?;
    match builder.finish(body.as_slice()) {
        Ok(file) => Ok(file),
        Err(FinishRefusal::OutOfMemory) => Err(Stopped::OutOfMemory),
        Err(_) => Err(Stopped::Broken(Breach::NotMade)),
    }
}

/// The body of the file: octet i is 7 i + 13 times the upload's number, modulo 256. Takes memory.
fn body_of(alloc: Global, upload: u32, octets: u16) -> Result<Vec<u8>, OutOfMemory>
    ensures { IfOk result (λ body. body.items ≡ body_octets upload octets) }
{
    let mut body = Vec::new(alloc);
    for i in 0..octets {
        let sum = u64::from(i) * 7 + u64::from(upload) * 13;
        body.push((sum % 256) as u8)?;
    }
    Ok(body)
}

/// The SHA-256 of a file (FIPS 180-4). Takes no memory.
pub(crate) fn sum_of(file: &[u8]) -> [u8; 32]
    ensures { result ≡ sha256 file.now }
{
    Sha256::digest(file)
}
