//! The line of a file in a list.

ghost use Rattle.std.specs.Prelude.{◌≡◌, length};
ghost use Rattle.hex.specs.Hex.{encode_lower};
ghost use Rattle.uploader.specs.Lines.{file_line, name_of};

use arrayvec::{ArrayString, ArrayVec};
use itoa::Buffer;
use px_base::le32;

/// How many octets a short header has (PFH 1990, mandatory header).
pub(crate) const SHORT_LEN: usize = 73;

/// Room for a line in octets: 17 for its words, 10 for each number, 22 for the name and 1 for the line feed.
const LINE_ROOM: usize = 60;

/// A line with its line feed.
pub(crate) type Line = ArrayString<LINE_ROOM>;

/// The line of a short header of 73 octets: file_number and file_size in decimal, and file_name and file_ext in
/// hexadecimal digits, in lower case.
pub(crate) fn line_of_header(header: &[u8]) -> Line
    requires { length header.now ≡ 73 }
    ensures { result.bytes ≡ file_line header.now }
{
    let mut line = Line::new();
    line.push_str("file ");
    line.push_str(Buffer::new().format(le32(header, 5)));
    line.push_str(" size ");
    line.push_str(Buffer::new().format(le32(header, 29)));
    line.push_str(" name ");
    line.push_str(name_digits(header).as_str());
    line.push_str("\n");
    line
}

/// file_name and file_ext of a short header in hexadecimal digits.
fn name_digits(header: &[u8]) -> ArrayString<22>
    requires { length header.now ≡ 73 }
    ensures { result.bytes ≡ encode_lower (name_of header.now) }
{
    let mut name = ArrayVec::<u8, 11>::new();
    name.try_extend_from_slice(&header[12..20]).unwrap();
    name.try_extend_from_slice(&header[23..26]).unwrap();
    let mut digits = [0; 22];
    hex::encode_to_slice(name.as_slice(), &mut digits).unwrap();
    ArrayString::from_byte_string(&digits).unwrap()
}
