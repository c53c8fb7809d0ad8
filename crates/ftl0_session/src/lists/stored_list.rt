//! The list of one caller.

ghost use Rattle.std.specs.Prelude.{◌≡◌, ◌≤◌, drop, length};
ghost use Rattle.ftl0_session.specs.Lists.Lists.{is_of};

use crate::lists::limits::MOST_NUMBERS;
use arrayvec::ArrayVec;
use px_base::Call;
use std::marker::Model;

/// The numbers that a caller selected, and how many of them were taken. Contracts see the caller and the numbers that
/// are left, a `CallerList`.
#[derive(Drop)]
pub(crate) struct StoredList {
    caller: Call,
    numbers: ArrayVec<u32, MOST_NUMBERS>,
    /// How many of the numbers were taken, from the first on.
    taken: usize,
}

impl Model for StoredList {
    ghost use Rattle.std.specs.Prelude.{drop};
    ghost use Rattle.ftl0_session.specs.Lists.Lists.{AreTaken, CallerList};

    ghost Value = { CallerList };

    ghost view = { λ a. record { caller = a.caller; numbers = drop a.taken a.numbers.items } };

    ghost invariant = { λ a. AreTaken a.taken a.numbers.items };
}

impl StoredList {
    /// The caller's list of these numbers, of which none is taken. Takes no memory.
    pub(crate) fn new(caller: Call, numbers: &[u32]) -> StoredList
        requires { length numbers.now ≤ 1024 }
        ensures { result ≡ record { caller = caller; numbers = numbers.now } }
    {
        let mut copied = ArrayVec::new();
        copied.try_extend_from_slice(numbers).unwrap();
        StoredList {
            caller,
            numbers: copied,
            taken: 0,
        }
    }

    /// Whether the list is this caller's. Takes no memory.
    pub(crate) fn is_of(&self, caller: Call) -> bool
        ensures { result ≡ is_of caller self.now }
    {
        self.caller == caller
    }

    /// The numbers that are left, in order. Takes no memory.
    pub(crate) fn left(&self) -> &[u32]
        ensures numbers { result.now ≡ self.now.numbers }
        ensures most { length result.now ≤ 1024 }
    {
        &self.numbers[self.taken..]
    }

    /// Takes `count` numbers, from the first on. Takes no memory.
    pub(crate) fn take(&mut self, count: usize)
        requires { count ≤ length self.old.numbers }
        ensures { self.new ≡ record self.old { numbers = drop count self.old.numbers } }
    {
        self.taken += count;
    }
}
