//! The filling in of a server's items in their place.

ghost use Rattle.std.specs.Prelude.{◌≡◌, ◌+◌, ◌≤◌, ◌%◌, length, sum, IfSome, IfNone};
ghost use Rattle.std.specs.Option.{unwrap_or};
ghost use Rattle.pfh_items.specs.Walk.{item_len};
ghost use Rattle.pfh_writer.specs.Filling.{FillsFront, StaysAtEnd};
ghost use Rattle.pfh_writer.specs.Stamping.{server_data, stamp_of};

use crate::server::ServerItems;
use crate::text::octets32;
use pfh_items::{AX25_UPLOADER, FILE_NUMBER, UPLOAD_TIME, sum16};
use px_base::le16;

/// An item of a header that was walked over.
#[derive(Drop)]
pub(crate) struct PassedItem {
    /// The item's id.
    pub(crate) id: u16,
    /// The length of its data in octets.
    pub(crate) len: usize,
    /// By how much the sum of its octets changed, modulo 65,536.
    pub(crate) change: u16,
}

impl ServerItems {
    /// Fills in the item at the front of a header's octets, in its place, and tells of it; `None` where that is the end item.
    pub(crate) fn fill_front(&self, octets: &mut [u8]) -> Option<PassedItem>
        requires { item_len octets.old ≤ length octets.old }
        ensures none { IfNone result (StaysAtEnd octets.old octets.new) }
        ensures some { IfSome result (FillsFront (stamp_of self.now) octets.old octets.new) }
    {
        let id = le16(octets, 0);
        let len = usize::from(octets[2]);
        if id == 0 && len == 0 {
            return None;
        }
        let change = self.fill(id, &mut octets[3..3 + len]);
        Some(PassedItem { id, len, change })
    }

    /// Fills in the data of an item of this id, where the server gives any for it, and gives by how much the sum of its
    /// octets changed, modulo 65,536.
    fn fill(&self, id: u16, content: &mut [u8]) -> u16
        ensures content { content.new ≡ unwrap_or (server_data (stamp_of self.now) id (length content.old)) content.old }
        ensures change { (result + sum content.old) % 65536 ≡ sum content.new % 65536 }
    {
        match (id, content.len()) {
            (FILE_NUMBER, 4) => replace(content, &octets32(self.number.get())),
            (AX25_UPLOADER, 6) => replace(content, &self.by.chars),
            (UPLOAD_TIME, 4) => replace(content, &octets32(self.moment.get())),
            _ => 0,
        }
    }
}

/// Puts other octets in the place of these, and gives by how much their sum changed, modulo 65,536.
fn replace(content: &mut [u8], octets: &[u8]) -> u16
    requires { length content.old ≡ length octets.now }
    ensures content { content.new ≡ octets.now }
    ensures change { (result + sum content.old) % 65536 ≡ sum content.new % 65536 }
{
    let old = sum16(content);
    content.copy_from_slice(octets);
    sum16(octets).wrapping_sub(old)
}
