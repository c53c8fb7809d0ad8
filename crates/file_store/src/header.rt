//! The header of a sealed file, as it was read from its blocks.

ghost use Rattle.std.specs.Prelude.{◌≡◌, ◌≤◌, ◌↔◌, IfOk, IsTrue, vec_capacity};
ghost use Rattle.std.specs.List.{list_all};
ghost use Rattle.file_store_model.specs.Headers.{IsWholeHeader};
ghost use Rattle.pfh_items.specs.Faults.{is_one_of_len, items_with};
ghost use Rattle.pfh_items.specs.Table.{mandatory_items};

use pfh_items::{Header, MANDATORY_ITEMS, MandatoryItem};
use px_base::OutOfMemory;
use std::alloc::Global;

/// The most octets that a header has: its end item lies within two octets' numbers (PFH 1990, body_offset).
const LONGEST_HEADER: usize = 65535;

/// A buffer with room for the longest header. Takes memory.
pub(crate) fn header_buffer(alloc: Global) -> Result<Vec<u8>, OutOfMemory>
    ensures room { IfOk result (λ header. 65535 ≤ vec_capacity header) }
{
    let mut header = Vec::new(alloc);
    header.reserve(LONGEST_HEADER)?;
    Ok(header)
}

/// Whether these octets are a header and nothing else, in which each mandatory item occurs once and has its length.
/// Takes no memory.
pub(crate) fn is_header(octets: &[u8]) -> bool
    ensures { IsTrue result ↔ IsWholeHeader octets.now }
{
    match Header::of(octets) {
        Some(header) => has_each_once(&header),
        None => false,
    }
}

/// Whether each mandatory item occurs once in a header, and has its length.
fn has_each_once(header: &Header<'_>) -> bool
    ensures { result ≡ list_all (λ rule. is_one_of_len rule.len (items_with rule.id header.now.items)) mandatory_items }
{
    MANDATORY_ITEMS.iter().all(|rule| stands_once(header, rule))
}

/// Whether one item of a header has the id of this rule, and that one its length.
fn stands_once(header: &Header<'_>, rule: &MandatoryItem) -> bool
    ensures { result ≡ is_one_of_len rule.now.len (items_with rule.now.id header.now.items) }
{
    let mut once = false;
    for item in header.items() {
        if item.id == rule.id {
            if once || item.bytes.len() != usize::from(rule.len) {
                return false;
            }
            once = true;
        }
    }
    once
}
