//! The header with which a directory lists a file.

ghost use Rattle.std.specs.Prelude.{◌≡◌, ◌+◌, ◌≤◌, ◌++◌, map};
ghost use Rattle.arrayvec.specs.ArrayVec.{array_vec_len};
ghost use Rattle.pfh_items.specs.Faults.{StandsOnce};
ghost use Rattle.pfh_items.specs.Layout.{HeaderText, IsItem, item_text};
ghost use Rattle.pfh_items.specs.Table.{mandatory_items};
ghost use Rattle.pfh_writer.specs.Short.{HasEachOnce, IsRule, short_item, short_items};

use crate::text::{END_ITEM, octets16, push_item, push_item16, push_octets};
use arrayvec::ArrayVec;
use pfh_items::{HEADER_CHECKSUM, HEADER_START, Header, MANDATORY_ITEMS, MandatoryItem, sum16};

/// The length of a short form in octets.
const SHORT_LEN: usize = 73;

/// The place of header_checksum's data in a short form.
const SUM_AT: usize = 63;

/// The short form of a header in which each mandatory item stands once with its length (FTL0 1990, short directory): these
/// eleven items in ascending order, with their data, but header_checksum renewed. So file_size and body_offset are those of
/// the file. Takes no memory.
pub fn short_form(header: &Header<'_>) -> [u8; 73]
    requires { HasEachOnce header.now.items }
    ensures { HeaderText (short_items header.now.items) result }
{
    let mut form = [0; SHORT_LEN];
    form.copy_from_slice(form_of(header).as_slice());
    let sum = sum16(&form);
    form[SUM_AT..SUM_AT + 2].copy_from_slice(&octets16(sum));
    form
}

/// The short form with sum 0.
fn form_of(header: &Header<'_>) -> ArrayVec<u8, SHORT_LEN>
    requires { HasEachOnce header.now.items }
    ensures text { HeaderText (map (short_item header.now.items 0) mandatory_items) result.items }
    ensures len { array_vec_len result ≡ 73 }
{
    let mut form = ArrayVec::new();
    push_octets(&mut form, &HEADER_START);
    for rule in &MANDATORY_ITEMS {
        push_rule(&mut form, header, rule);
    }
    push_octets(&mut form, &END_ITEM);
    form
}

/// Puts a mandatory item at the end of a short form: header_checksum with sum 0, any other as the header has it.
fn push_rule(form: &mut ArrayVec<u8, SHORT_LEN>, header: &Header<'_>, rule: &MandatoryItem)
    requires once { StandsOnce header.now.items rule.now }
    requires rule { IsRule rule.now }
    requires room { array_vec_len form.old + (3 + rule.now.len) ≤ SHORT_LEN }
    ensures text { form.new.items ≡ form.old.items ++ item_text (short_item header.now.items 0 rule.now) }
    ensures len { array_vec_len form.new ≡ array_vec_len form.old + (3 + rule.now.len) }
    ensures item { IsItem (short_item header.now.items 0 rule.now) }
{
    if rule.id == HEADER_CHECKSUM {
        push_item16(form, rule.id, 0);
        return;
    }
    let Some(bytes) = header.field(rule.id) else {
        return;
    };
    push_item(form, rule.id, bytes);
}
