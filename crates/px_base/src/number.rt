//! Numbers of four octets, each of its kind: one of another kind can't be given in its place.

ghost use Rattle.std.specs.Prelude.{◌≡◌};

use std::marker::{Model, PhantomData};

/// A number of this kind, which says what it counts. Contracts see it as the number.
#[derive(Clone, Copy, Debug, PartialEq, Eq)]
pub struct Number<K> {
    number: u32,
    kind: PhantomData<K>,
}

impl<K> Model for Number<K> {
    ghost use Rattle.std.specs.Prelude.{ℕ, ◌<◌};

    ghost Value = { ℕ };

    ghost view = { λ a. a.number };

    ghost invariant = { λ a. a.number < 4294967296 };

    ghost inverse = { λ v. record { number = v; kind = record {} } };
}

impl<K> Number<K> {
    /// The number of this kind that is this.
    pub const fn new(number: u32) -> Self
        ensures { result ≡ number }
    {
        Number {
            number,
            kind: PhantomData,
        }
    }

    /// The number itself.
    pub const fn get(self) -> u32
        ensures { result ≡ self }
    {
        self.number
    }
}

impl<K> Default for Number<K> {
    /// The number 0.
    fn default() -> Self
        ensures { result ≡ 0 }
    {
        Number::new(0)
    }
}

/// The kind of a `FileNumber`.
#[derive(Clone, Copy, Debug, PartialEq, Eq)]
pub struct FileKind;

/// The number that a server gave a file.
pub type FileNumber = Number<FileKind>;

/// The kind of a `Moment`.
#[derive(Clone, Copy, Debug, PartialEq, Eq)]
pub struct MomentKind;

/// A moment, in seconds since 1 January 1970.
pub type Moment = Number<MomentKind>;
