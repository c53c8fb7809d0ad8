//! Sums of octets.

ghost use Rattle.std.specs.Prelude.{◌≡◌, ◌+◌, ◌%◌, length, sum};
ghost use Rattle.px_base.specs.Numbers.{sum16 as sum_of};

/// The sums of a file that was checked, and its header's length.
#[derive(Clone, Copy, Debug, PartialEq, Eq)]
pub struct Sums {
    /// The length of the header in octets.
    pub header_len: u32,
    /// The sum of the body's octets modulo 65,536.
    pub body_sum: u16,
    /// The sum of the header's octets modulo 65,536, the two of header_checksum's data taken as zero.
    pub header_sum: u16,
}

/// The sum of all octets modulo 65,536 (PFH 1990, body_checksum and header_checksum). Takes no memory.
pub fn sum16(bytes: &[u8]) -> u16
    ensures { result ≡ sum_of bytes.now }
{
    let part = bytes.len() / 4;
    let (first, rest) = bytes.split_at(part);
    let (second, rest) = rest.split_at(part);
    let (third, rest) = rest.split_at(part);
    let (fourth, rest) = rest.split_at(part);
    sum_beside(first, second, third, fourth).wrapping_add(sum_along(rest))
}

/// The sum of all octets of four parts of one length, side by side, which a processor adds in fewer steps than one.
fn sum_beside(first: &[u8], second: &[u8], third: &[u8], fourth: &[u8]) -> u16
    requires second { length second.now ≡ length first.now }
    requires third { length third.now ≡ length first.now }
    requires fourth { length fourth.now ≡ length first.now }
    ensures { result ≡ (sum first.now + sum second.now + sum third.now + sum fourth.now) % 65536 }
{
    let mut sum: u16 = 0;
    for i in 0..first.len() {
        let here = u16::from(first[i])
            + u16::from(second[i])
            + u16::from(third[i])
            + u16::from(fourth[i]);
        sum = sum.wrapping_add(here);
    }
    sum
}

/// The sum of all octets, one after another.
fn sum_along(bytes: &[u8]) -> u16
    ensures { result ≡ sum_of bytes.now }
{
    let mut sum: u16 = 0;
    for byte in bytes {
        sum = sum.wrapping_add(u16::from(*byte));
    }
    sum
}
