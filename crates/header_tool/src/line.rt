//! The lines of a header's items, and of what its check finds.

ghost use Rattle.std.specs.Prelude.{◌≡◌, ◌+◌, ◌*◌, ◌≤◌, ◌++◌, length};
ghost use Rattle.arrayvec.specs.ArrayVec.{array_vec_len};
ghost use Rattle.hex.specs.Hex.{encode_lower};
ghost use Rattle.header_tool.specs.Lines.{content_text, id_text, item_line, last_line};
ghost use Rattle.pfh_items.specs.Values.{item_value};

use arrayvec::ArrayVec;
use itoa::Buffer;
use pfh_items::Item;

/// The most octets of an item's data.
const MAX_CONTENT: usize = 255;

/// Room for an item's line in octets: 4 for the id, 20 for the length, 510 for the data, two blanks and the line feed.
const LINE_ROOM: usize = 537;

/// A line with its line feed.
pub(crate) type Line = ArrayVec<u8, LINE_ROOM>;

/// The line of an item.
pub(crate) fn line_of_item(item: &Item<'_>) -> Line
    requires { length item.now.bytes.now ≤ 255 }
    ensures { result.items ≡ item_line (item_value item.now) }
{
    let mut line = Line::new();
    push_hex(&mut line, &item.id.to_be_bytes());
    push(&mut line, b" ");
    push(&mut line, Buffer::new().format(item.bytes.len()).as_bytes());
    push_content(&mut line, item.bytes);
    push(&mut line, b"\n");
    line
}

/// The line that says what the check of a file finds: the code of its fault, or that it has none.
pub(crate) fn line_of_check(code: Option<u8>) -> Line
    ensures { result.items ≡ last_line code }
{
    let mut line = Line::new();
    match code {
        Some(code) => {
            push(&mut line, b"fault ");
            push(&mut line, Buffer::new().format(code).as_bytes());
            push(&mut line, b"\n");
        }
        None => push(&mut line, b"ok\n"),
    }
    line
}

/// Adds an item's data, if it has any, after a blank.
fn push_content(line: &mut Line, content: &[u8])
    requires most { length content.now ≤ 255 }
    requires room { array_vec_len line.old + 511 ≤ LINE_ROOM }
    ensures text { line.new.items ≡ line.old.items ++ content_text content.now }
    ensures len { array_vec_len line.new ≤ array_vec_len line.old + 511 }
{
    if content.is_empty() {
        return;
    }
    push(line, b" ");
    push_hex(line, content);
}

/// Adds octets in hexadecimal digits, in lower case.
fn push_hex(line: &mut Line, octets: &[u8])
    requires most { length octets.now ≤ 255 }
    requires room { array_vec_len line.old + 2 * length octets.now ≤ LINE_ROOM }
    ensures text { line.new.items ≡ line.old.items ++ encode_lower octets.now }
    ensures len { array_vec_len line.new ≡ array_vec_len line.old + 2 * length octets.now }
{
    let mut room = [0; 2 * MAX_CONTENT];
    let digits = &mut room[..2 * octets.len()];
    hex::encode_to_slice(octets, digits).unwrap();
    push(line, digits);
}

/// Adds octets as they are.
fn push(line: &mut Line, octets: &[u8])
    requires { array_vec_len line.old + length octets.now ≤ LINE_ROOM }
    ensures text { line.new.items ≡ line.old.items ++ octets.now }
    ensures len { array_vec_len line.new ≡ array_vec_len line.old + length octets.now }
{
    line.try_extend_from_slice(octets).unwrap();
}
