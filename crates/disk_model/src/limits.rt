//! How long a disk may be.

ghost use Rattle.std.specs.Prelude.{◌+◌, ◌≤◌, ◌^◌, ◌↔◌, length, IsTrue};

/// The most octets that a disk has.
pub const MOST_OCTETS: u64 = 1 << 63;

/// Whether these octets at this place end within the most octets of a disk.
pub fn ends_within(at: u64, bytes: &[u8]) -> bool
    ensures { IsTrue result ↔ (at + length bytes.now ≤ 2 ^ 63) }
{
    let count = bytes.len() as u64;
    count <= MOST_OCTETS && at <= MOST_OCTETS - count
}
