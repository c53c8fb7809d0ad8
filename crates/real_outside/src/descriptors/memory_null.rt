//! A null device in memory, which gives the descriptors that it is made with.

ghost use Rattle.std.specs.Prelude.{◌≡◌, ◌∷◌, ◌+◌, ◌-◌, ◌^◌, [], min, IfOk};
ghost use Rattle.px_base.specs.Outside.{Grows};
ghost use Rattle.real_outside.specs.Descriptors.{next_answer, told_answers};

use super::NullDevice;
use crate::system_error::SystemError;
use px_base::OutOfMemory;
use std::alloc::Global;
use std::io::ErrorKind;
use std::marker::Model;

/// A null device in memory. Its openings have these descriptors in order; one without a descriptor fails, and so does
/// each after the last.
#[derive(Drop)]
pub struct MemoryNull {
    descriptors: Vec<Option<i32>>,
    opened: usize,
}

impl Model for MemoryNull {
    ghost use Rattle.real_outside.specs.Descriptors.{NullState};

    ghost Value = { NullState };

    ghost view = { λ a. record { descriptors = a.descriptors.items; opened = a.opened } };
}

impl MemoryNull {
    /// One whose openings have these descriptors. Takes memory.
    pub fn new(alloc: Global, descriptors: &[Option<i32>]) -> Result<MemoryNull, OutOfMemory>
        ensures { IfOk result (λ null. null ≡ record { descriptors = descriptors.now; opened = 0 }) }
    {
        Ok(MemoryNull {
            descriptors: Vec::from_slice(alloc, descriptors)?,
            opened: 0,
        })
    }
}

impl NullDevice for MemoryNull {
    type Opened = i32;

    ghost use Rattle.real_outside.specs.Descriptors.{told_answers};

    ghost answers = { told_answers };

    ghost descriptor = { λ n. n };

    fn open(&mut self) -> Result<i32, SystemError>
        ensures answer { result ≡ next_answer self.old }
        ensures opened { self.new ≡ record self.old { opened = min (self.old.opened + 1) (2 ^ 64 - 1) } }
        ensures answers { Grows (told_answers self.old) (told_answers self.new) (result ∷ []) }
    {
        let next = self.descriptors.as_slice().get(self.opened).copied();
        self.opened = self.opened.saturating_add(1);
        next.flatten().ok_or(SystemError::from(ErrorKind::Other))
    }

    fn descriptor(&self, opened: &i32) -> i32 {
        *opened
    }
}
