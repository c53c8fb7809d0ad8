//! Sequence numbers, counted modulo 8 (AX.25 2.0, 2.3.2.4).

ghost use Rattle.std.specs.Prelude.{◌≡◌, ◌+◌, ◌-◌, ◌%◌, ◌<◌, ◌≤◌};

/// How many sequence numbers there are (2.3.2.4).
pub(crate) const MODULUS: u8 = 8;

/// The number that comes `count` numbers after this one.
pub(crate) fn after(number: u8, count: u8) -> u8
    requires number { number < 8 }
    requires count { count ≤ 8 }
    ensures { result ≡ (number + count) % 8 }
{
    (number + count) % MODULUS
}

/// How many numbers after the first one the second one is.
pub(crate) fn distance(first: u8, second: u8) -> u8
    requires first { first < 8 }
    requires second { second < 8 }
    ensures { result ≡ (second + (8 - first)) % 8 }
{
    (second + (MODULUS - first)) % MODULUS
}
