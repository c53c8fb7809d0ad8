//! Octets in pieces.

ghost use Rattle.std.specs.Prelude.{◌≡◌, ◌<◌, flat_map, IfOk};
ghost use Rattle.pfh_reader.specs.Check.{joined};

use px_base::{FileBytes, OutOfMemory};
use std::alloc::Global;

/// The octets cut into pieces of this length, the last one shorter. Takes memory.
pub fn cut(alloc: Global, octets: &[u8], len: usize) -> Result<Vec<FileBytes>, OutOfMemory>
    requires { 0 < len }
    ensures { IfOk result (λ pieces. joined pieces.items ≡ octets.now) }
{
    let mut pieces = Vec::new(alloc);
    let mut rest = octets;
    while !rest.is_empty() {
        let (piece, later) = rest.split_at(len.min(rest.len()));
        pieces.push(FileBytes::copy_of(alloc, piece)?)?;
        rest = later;
    }
    Ok(pieces)
}

/// The same as vectors.
pub fn cut_octets(alloc: Global, octets: &[u8], len: usize) -> Result<Vec<Vec<u8>>, OutOfMemory>
    requires { 0 < len }
    ensures { IfOk result (λ pieces. flat_map (λ piece. piece.items) pieces.items ≡ octets.now) }
{
    let mut pieces = Vec::new(alloc);
    let mut rest = octets;
    while !rest.is_empty() {
        let (piece, later) = rest.split_at(len.min(rest.len()));
        pieces.push(Vec::from_slice(alloc, piece)?)?;
        rest = later;
    }
    Ok(pieces)
}
