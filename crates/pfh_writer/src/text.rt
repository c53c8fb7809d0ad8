//! The octets of numbers and items.

ghost use Rattle.std.specs.Prelude.{◌≡◌, ◌+◌, ◌≤◌, ◌++◌, length};
ghost use Rattle.arrayvec.specs.ArrayVec.{array_vec_len};
ghost use Rattle.px_base.specs.Numbers.{le16_octets, le32_octets};
ghost use Rattle.pfh_items.specs.Layout.{IsItem, item_text};
ghost use Rattle.pfh_writer.specs.Built.{item as item_of};

use arrayvec::ArrayVec;
use byteorder::{ByteOrder, LittleEndian};

/// What ends the items: id 0 without data (PFH 1990, header end).
pub(crate) const END_ITEM: [u8; 3] = [0, 0, 0];

/// The two octets of a number.
pub(crate) fn octets16(number: u16) -> [u8; 2]
    ensures { result ≡ le16_octets number }
{
    let mut octets = [0; 2];
    LittleEndian::write_u16(&mut octets, number);
    octets
}

/// The four octets of a number.
pub(crate) fn octets32(number: u32) -> [u8; 4]
    ensures { result ≡ le32_octets number }
{
    let mut octets = [0; 4];
    LittleEndian::write_u32(&mut octets, number);
    octets
}

/// The length of an item with this data.
pub(crate) fn item_len(bytes: &[u8]) -> usize
    ensures { result ≡ 3 + length bytes.now }
{
    3 + bytes.len()
}

/// Puts an item at the end of a text.
pub(crate) fn push_item<const N: usize>(text: &mut ArrayVec<u8, N>, id: u16, bytes: &[u8])
    requires fits { array_vec_len text.old + (3 + length bytes.now) ≤ N }
    requires short { length bytes.now ≤ 255 }
    ensures text { text.new.items ≡ text.old.items ++ item_text (item_of id bytes.now) }
    ensures len { array_vec_len text.new ≡ array_vec_len text.old + (3 + length bytes.now) }
    ensures item { (id ≡ 0 → ⊥) → IsItem (item_of id bytes.now) }
{
    push_octets(text, &octets16(id));
    text.push(bytes.len() as u8);
    push_octets(text, bytes);
}

/// Puts an item at the end of a text, whose data is a number of two octets.
pub(crate) fn push_item16<const N: usize>(text: &mut ArrayVec<u8, N>, id: u16, number: u16)
    requires { array_vec_len text.old + 5 ≤ N }
    ensures text { text.new.items ≡ text.old.items ++ item_text (item_of id (le16_octets number)) }
    ensures len { array_vec_len text.new ≡ array_vec_len text.old + 5 }
    ensures item { (id ≡ 0 → ⊥) → IsItem (item_of id (le16_octets number)) }
{
    push_item(text, id, &octets16(number));
}

/// Puts an item at the end of a text, whose data is a number of four octets.
pub(crate) fn push_item32<const N: usize>(text: &mut ArrayVec<u8, N>, id: u16, number: u32)
    requires { array_vec_len text.old + 7 ≤ N }
    ensures text { text.new.items ≡ text.old.items ++ item_text (item_of id (le32_octets number)) }
    ensures len { array_vec_len text.new ≡ array_vec_len text.old + 7 }
    ensures item { (id ≡ 0 → ⊥) → IsItem (item_of id (le32_octets number)) }
{
    push_item(text, id, &octets32(number));
}

/// Puts octets at the end of a text.
pub(crate) fn push_octets<const N: usize>(text: &mut ArrayVec<u8, N>, bytes: &[u8])
    requires { array_vec_len text.old + length bytes.now ≤ N }
    ensures text { text.new.items ≡ text.old.items ++ bytes.now }
    ensures len { array_vec_len text.new ≡ array_vec_len text.old + length bytes.now }
{
    text.try_extend_from_slice(bytes).unwrap();
}
