//! Numbers of several octets, least significant octet first, as FTL0 and the PACSAT file header have them.

ghost use Rattle.std.specs.Prelude.{◌≡◌, ◌+◌, ◌≤◌, length};
ghost use Rattle.px_base.specs.Numbers.{le16 as number_of_two, le32 as number_of_four};

use byteorder::{ByteOrder, LittleEndian};

/// The number in the two octets from place `at` on.
pub fn le16(bytes: &[u8], at: usize) -> u16
    requires { at + 2 ≤ length bytes.now }
    ensures { result ≡ number_of_two bytes.now at }
{
    LittleEndian::read_u16(&bytes[at..])
}

/// The number in the four octets from place `at` on.
pub fn le32(bytes: &[u8], at: usize) -> u32
    requires { at + 4 ≤ length bytes.now }
    ensures { result ≡ number_of_four bytes.now at }
{
    LittleEndian::read_u32(&bytes[at..])
}
