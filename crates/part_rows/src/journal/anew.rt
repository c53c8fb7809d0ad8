//! Records that are put instead of all others.

ghost use Rattle.std.specs.Prelude.{[], ◌∷◌, drop};
ghost use Rattle.file_journal.specs.Records.{record_of};

use file_journal::{RecordContent, Records};

/// Two records, and how many of them are done: of the kind 5 with the content 02ff, and of the kind 6 without content.
#[derive(Drop)]
pub struct Anew {
    /// How many.
    pub done: usize,
}

impl Records for Anew {
    ghost left = { λ a. drop a.done (record_of 5 (2 ∷ 255 ∷ []) ∷ record_of 6 [] ∷ []) };

    fn next(&mut self, content: &mut RecordContent) -> Option<u8> {
        content.clear();
        match self.done {
            0 => {
                content.put(&[2, 255]);
                self.done = 1;
                Some(5)
            }
            1 => {
                self.done = 2;
                Some(6)
            }
            _ => None,
        }
    }
}
