//! The stamping of a file that lies in memory.

ghost use Rattle.std.specs.Prelude.{◌≡◌, ◌+◌, ◌≤◌, List, length, drop};
ghost use Rattle.pfh_items.specs.Layout.{HeaderText, ItemValue};
ghost use Rattle.pfh_items.specs.Stamp.{Stamped, stamped};
ghost use Rattle.pfh_items.specs.Walk.{items_from};
ghost use Rattle.pfh_writer.specs.Filling.{sum_place_after, with_sum_changed};
ghost use Rattle.pfh_writer.specs.Given.{IsFaultlessFile, IsHeaderOfSums, stamped_sum as sum_of_stamped};

use crate::server::ServerItems;
use crate::text::octets16;
use pfh_items::{HEADER_CHECKSUM, Items, Sums};
use px_base::{Call, FileNumber, Moment, le16};

/// Stamps a file that keeps all rules of headers, in its place: the data of file_number becomes the file's number, that of
/// each ax25_uploader of six octets the characters of the call, that of each upload_time of four octets the moment, and
/// header_checksum the new sum; all else stays as it is. It walks over the header once, and never reads the body. Takes no
/// memory.
pub fn stamp(file: &mut [u8], number: FileNumber, by: Call, moment: Moment)
    requires { IsFaultlessFile file.old }
    ensures relation { Stamped (record { number = number; by = by; moment = moment }) file.old file.new }
    ensures computed { file.new ≡ stamped (record { number = number; by = by; moment = moment }) file.old }
{
    let server = ServerItems::new(number, by, moment);
    let mut at = 2;
    let mut sum_at = 2;
    let mut change: u16 = 0;
    while let Some(item) = server.fill_front(&mut file[at..]) {
        sum_at = sum_place(sum_at, item.id, at + 3);
        change = change.wrapping_add(item.change);
        at = at + 3 + item.len;
    }
    add_to_sum(file, sum_at, change);
}

/// The place of header_checksum's data after an item of this id whose data begins at `at`, where `known` is the place that
/// was known before.
fn sum_place(known: usize, id: u16, at: usize) -> usize
    ensures { result ≡ sum_place_after known id at }
{
    if id == HEADER_CHECKSUM { at } else { known }
}

/// Adds this to the sum that stands at a place, modulo 65,536.
fn add_to_sum(file: &mut [u8], at: usize, change: u16)
    requires { at + 2 ≤ length file.old }
    ensures { file.new ≡ with_sum_changed file.old at change }
{
    let sum = le16(file, at).wrapping_add(change);
    file[at..at + 2].copy_from_slice(&octets16(sum));
}

/// The sum that the header of a file has once [`stamp`] has stamped it so: `old` is the header before, and `sums` are the
/// sums of the file, whose body isn't needed. It reads the header once. Takes no memory.
pub fn stamped_sum(sums: &Sums, old: &[u8], number: FileNumber, by: Call, moment: Moment) -> u16
    requires { IsHeaderOfSums old.now sums.now }
    ensures { (items : List ItemValue) → HeaderText items old.now
        → result ≡ sum_of_stamped (record { number = number; by = by; moment = moment }) items }
{
    ServerItems::new(number, by, moment).renewed_sum(sums.header_sum, items_of(old))
}

/// The items of a header, or of a file that begins with one.
fn items_of(octets: &[u8]) -> Items<'_>
    requires { 2 ≤ length octets.now }
    ensures { result ≡ items_from 0 (drop 2 octets.now) }
{
    Items::over(&octets[2..])
}
