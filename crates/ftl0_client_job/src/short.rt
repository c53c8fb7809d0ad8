//! Short headers one after another (PFH 1990, mandatory header; FTL0 1990, short directory).

ghost use Rattle.std.specs.Prelude.{◌≡◌, ◌≤◌, length};
ghost use Rattle.pfh_items.specs.Table.{mandatory_items};
ghost use Rattle.ftl0_client_job.specs.Short.{are_items as are_items_of, are_short_headers as are_headers_whole};
ghost use Rattle.ftl0_client_job.specs.Short.{begins_item as begins_with_item, is_short_header as is_header};

use pfh_items::{HEADER_START, MANDATORY_ITEMS, MandatoryItem};

/// How many octets a short header has.
const SHORT_LEN: usize = 73;

/// How many octets an item has besides its data.
const ITEM_START: usize = 3;

/// The end item.
const END_ITEM: [u8; 3] = [0, 0, 0];

/// Whether octets are short headers, one after another, and nothing else. The work is that of the octets. Takes no
/// memory.
pub(crate) fn are_short_headers(octets: &[u8]) -> bool
    ensures { result ≡ are_headers_whole octets.now }
{
    let mut left = octets;
    for _ in 0..octets.len() / SHORT_LEN {
        if !is_short_header(&left[..SHORT_LEN]) {
            return false;
        }
        left = &left[SHORT_LEN..];
    }
    left.is_empty()
}

/// Whether octets are a short header: AA 55, the mandatory items with their lengths in ascending order, the end item.
fn is_short_header(octets: &[u8]) -> bool
    requires { 2 ≤ length octets.now }
    ensures { result ≡ is_header octets.now }
{
    &octets[..2] == HEADER_START.as_slice() && are_items(&octets[2..])
}

/// Whether octets are the mandatory items in ascending order and the end item.
fn are_items(octets: &[u8]) -> bool
    ensures { result ≡ are_items_of mandatory_items octets.now }
{
    let mut left = octets;
    for rule in &MANDATORY_ITEMS {
        if !begins_item(rule, left) {
            return false;
        }
        left = &left[ITEM_START + rule.len as usize..];
    }
    left == END_ITEM.as_slice()
}

/// Whether octets begin with an item of this rule, whatever its data is.
fn begins_item(rule: &MandatoryItem, octets: &[u8]) -> bool
    ensures { result ≡ begins_with_item rule.now octets.now }
{
    let [low, high] = rule.id.to_le_bytes();
    octets.len() >= ITEM_START + rule.len as usize
        && &octets[..ITEM_START] == [low, high, rule.len].as_slice()
}
