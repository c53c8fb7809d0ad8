//! The lists of all callers.

ghost use Rattle.std.specs.Prelude.{◌≡◌, ◌<◌, ◌≤◌, [], length, IfOk};
ghost use Rattle.std.specs.List.{position};
ghost use Rattle.ftl0_session.specs.Lists.Lists.{IsLists, after_taking, has_left, is_of, last_of, left_of};
ghost use Rattle.ftl0_session.specs.Lists.Lists.{lists_of_others, selected};

use crate::lists::limits::MOST_LISTS;
use crate::lists::stored_list::StoredList;
use px_base::{Call, OutOfMemory};
use std::alloc::Global;
use std::marker::Model;

/// The lists of all callers, in the order in which they were set. Contracts see them as a list of `CallerList`.
#[derive(Drop)]
pub struct Lists {
    lists: Vec<StoredList>,
}

impl Model for Lists {
    ghost use Rattle.std.specs.Prelude.{List, vec_capacity, ◌≤◌};
    ghost use Rattle.ftl0_session.specs.Lists.Lists.{CallerList, IsLists};

    ghost Value = { List CallerList };

    ghost view = { λ a. a.lists.items };

    ghost invariant = { λ a. IsLists a.lists.items × (64 ≤ vec_capacity a.lists) };
}

impl Lists {
    /// No lists, with room for 64 of 1,024 numbers. Takes memory, about 260 KiB; no other call does.
    pub fn new(alloc: Global) -> Result<Lists, OutOfMemory>
        ensures { IfOk result (λ lists. lists ≡ []) }
    {
        Ok(Lists {
            lists: Vec::with_capacity(alloc, MOST_LISTS)?,
        })
    }

    /// Whether any number is left in the caller's list, as bit 3 of LOGIN_RESP's flags says it (FTL0 1990, LOGIN_RESP).
    /// Takes no memory.
    pub fn left(&self, caller: Call) -> bool
        ensures { result ≡ has_left self.now caller }
    {
        !self.numbers(caller).is_empty()
    }

    /// The numbers that are left in the caller's list, in order; none if it has no list. Takes no memory.
    pub fn numbers(&self, caller: Call) -> &[u32]
        ensures numbers { result.now ≡ left_of self.now caller }
        ensures most { length result.now ≤ 1024 }
        ensures rules { IsLists self.now }
    {
        match self.place_of(caller) {
            Some(place) => self.lists[place].left(),
            None => &[],
        }
    }

    /// Takes `count` numbers of the caller's list, from the first on. They are there. The list stays where it is, also
    /// if none is left then (FTL0 1990, DOWNLOAD_CMD, DIR_SHORT_CMD and DIR_LONG_CMD with number 0). Takes no memory.
    pub fn take(&mut self, caller: Call, count: usize)
        requires { count ≤ length (left_of self.old caller) }
        ensures { self.new ≡ after_taking self.old caller count }
    {
        if let Some(place) = self.place_of(caller) {
            self.lists[place].take(count);
        }
    }

    /// These numbers, at most 1,024, become the caller's list: it goes last, and the caller's old one goes. If there
    /// are 64 lists, and none is the caller's, the first one goes (FTL0 1990, SELECT_CMD). It moves at most 63 lists,
    /// each of about 4 KiB. Takes no memory.
    pub fn select(&mut self, caller: Call, numbers: &[u32])
        requires { length numbers.now ≤ 1024 }
        ensures { self.new ≡ selected self.old caller numbers.now }
    {
        self.make_room(caller);
        let list = StoredList::new(caller, numbers);
        self.lists.push(list).unwrap();
    }

    /// The caller's old list goes. If it has none, and there are 64, the first one goes.
    fn make_room(&mut self, caller: Call)
        ensures lists { self.new ≡ last_of 63 (lists_of_others self.old caller) }
        ensures room { length self.new < 64 }
        ensures rules { IsLists self.old }
    {
        match self.place_of(caller) {
            Some(place) => {
                self.lists.remove(place);
            }
            None if self.lists.len() == MOST_LISTS => {
                self.lists.remove(0);
            }
            None => {}
        }
    }

    /// The place of the caller's list.
    fn place_of(&self, caller: Call) -> Option<usize>
        ensures { result ≡ position (is_of caller) self.now }
    {
        self.lists.iter().position(|list| list.is_of(caller))
    }
}
