//! The items that a server fills in.

ghost use Rattle.std.specs.Prelude.{◌≡◌, ℕ, ◌+◌, ◌≤◌, ◌%◌, List, length, map, option_map, sum};
ghost use Rattle.px_base.specs.CallSign.{IsCall};
ghost use Rattle.pfh_items.specs.Values.{item_value};
ghost use Rattle.pfh_writer.specs.Stamping.{server_data, stamp_of};
ghost use Rattle.pfh_writer.specs.Sums.{data_sum, filled_item};

use crate::text::{octets32, push_octets};
use arrayvec::ArrayVec;
use pfh_items::{AX25_UPLOADER, FILE_NUMBER, Item, Items, UPLOAD_TIME, sum16};
use px_base::{Call, FileNumber, Moment};

/// What a server fills in: the file's number, the call of the station that uploaded it, and the moment of that.
#[derive(Clone, Copy, Debug, PartialEq, Eq)]
pub(crate) struct ServerItems {
    pub(crate) number: FileNumber,
    pub(crate) by: Call,
    pub(crate) moment: Moment,
}

impl ServerItems {
    /// Those of this number, call and moment.
    pub(crate) fn new(number: FileNumber, by: Call, moment: Moment) -> ServerItems
        ensures items { stamp_of result ≡ record { number = number; by = by; moment = moment } }
        ensures call { IsCall by }
    {
        ServerItems { number, by, moment }
    }

    /// The data that the server gives to an item of this id whose data has this length, where it gives any.
    pub(crate) fn data(&self, id: u16, len: usize) -> Option<ArrayVec<u8, 6>>
        ensures { option_map (λ octets. octets.items) result ≡ server_data (stamp_of self.now) id len }
    {
        match (id, len) {
            (FILE_NUMBER, 4) => Some(few(&octets32(self.number.get()))),
            (AX25_UPLOADER, 6) => Some(few(&self.by.chars)),
            (UPLOAD_TIME, 4) => Some(few(&octets32(self.moment.get()))),
            _ => None,
        }
    }

    /// The sum of a header with these items once it is stamped, where this is its sum before.
    pub(crate) fn renewed_sum(&self, header_sum: u16, items: Items<'_>) -> u16
        ensures { (result + data_sum items.entry.items) % 65536
            ≡ (header_sum + data_sum (map (filled_item (stamp_of self.now)) items.entry.items)) % 65536 }
    {
        let mut sum = header_sum;
        for item in items {
            sum = self.with_item(sum, &item);
        }
        sum
    }

    /// The sum of a header once this item of it is filled in, where this is its sum before.
    fn with_item(&self, header_sum: u16, item: &Item<'_>) -> u16
        ensures { (result + sum item.now.bytes.now) % 65536
            ≡ (header_sum + sum (filled_item (stamp_of self.now) (item_value item.now)).content) % 65536 }
    {
        match self.data(item.id, item.bytes.len()) {
            Some(octets) => header_sum
                .wrapping_sub(sum16(item.bytes))
                .wrapping_add(sum16(octets.as_slice())),
            None => header_sum,
        }
    }
}

/// A copy of these octets, of which there are at most six.
pub(crate) fn few(bytes: &[u8]) -> ArrayVec<u8, 6>
    requires { length bytes.now ≤ 6 }
    ensures { result.items ≡ bytes.now }
{
    let mut octets = ArrayVec::new();
    push_octets(&mut octets, bytes);
    octets
}
