//! Rows of what a station hears.

use anyhow::Result;
use px_base::Call;
use row_words::{read_octets, text_of, two_parts};
use std::alloc::Global;
use turn_loop::StationReader;

/// `hears CALL OCTETS`
pub fn hears(alloc: Global, row: &str) -> Result<String> {
    let (call, octets) = two_parts(row, ' ')?;
    let mut reader = StationReader::new(Call::read(call)?);
    let mut heard = false;
    for octet in read_octets(alloc, octets)?.iter() {
        heard = reader.feed(*octet) && reader.frame().is_some();
    }
    text_of(alloc, heard)
}
