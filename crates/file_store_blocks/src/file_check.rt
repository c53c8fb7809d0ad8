//! The check of a file that is to be sealed.

ghost use Rattle.std.specs.Prelude.{◌≡◌, ◌+◌, ◌≤◌, ℕ, List, [], ◌++◌, length};
ghost use Rattle.file_store_blocks.specs.Checking.{AnswersCheck, HasChecked};
ghost use Rattle.pfh_items.specs.Stamp.{StampValue};
ghost use Rattle.pfh_reader.specs.Feed.{fed_len};

use pfh_items::sum16;
use pfh_reader::{Checker, HeaderFault};
use pfh_writer::Stamper;
use px_base::{Call, FileNumber, Moment};

/// What a check found of the header of a file that keeps all rules of headers.
#[derive(Clone, Copy, Debug, PartialEq, Eq)]
pub struct CheckedHeader {
    /// The sum that it has with the stamp.
    pub sum: u16,
    /// Its length in octets, which is in two octets of it (PFH 1990, body_offset).
    pub len: u16,
}

/// The check of a file that comes in pieces of any lengths, and the sum that its header has with a stamp. It keeps what
/// a checker and a stamper keep, whatever the file. Contracts say of which octets it took.
#[derive(Debug, Drop)]
pub(crate) struct FileCheck {
    checker: Checker,
    /// It puts zeros in place of the header's sum, which is taken so.
    stamper: Stamper,
    /// The sum of all octets that the stamper gave.
    sum: u16,
}

impl FileCheck {
    /// A check that took nothing: for the file's number, the call of the station that uploaded it, and the moment of
    /// its seal. Takes no memory.
    pub(crate) fn new(number: FileNumber, by: Call, moment: Moment) -> FileCheck
        ensures checked { HasChecked (record { number = number; by = by; moment = moment }) result [] }
        ensures len { fed_len result.checker ≡ 0 }
    {
        FileCheck {
            checker: Checker::new(),
            stamper: Stamper::new(number, by, moment, 0),
            sum: 0,
        }
    }

    /// Takes the next octets of the file, at most 4,194,304 in all; others may be in their place then. It costs the
    /// octets that it gets. Takes no memory.
    pub(crate) fn feed(&mut self, piece: &mut [u8])
        requires { fed_len self.old.checker + length piece.old ≤ 4194304 }
        ensures checked { (stamp : StampValue) (fed : List ℕ) → HasChecked stamp self.old fed
            → HasChecked stamp self.new (fed ++ piece.old) }
        ensures len { fed_len self.new.checker ≡ fed_len self.old.checker + length piece.old }
    {
        self.checker.feed(piece);
        self.stamper.feed(piece);
        self.sum = self.sum.wrapping_add(sum16(piece));
    }

    /// The answer for all octets that were taken: the sum and the length of the header of a file that keeps all rules
    /// of headers, or the first rule that it breaks. Takes no memory.
    pub(crate) fn end(&self) -> Result<CheckedHeader, HeaderFault>
        requires { (stamp : StampValue) × (fed : List ℕ) × HasChecked stamp self.now fed }
        ensures { (stamp : StampValue) (fed : List ℕ) → HasChecked stamp self.now fed → AnswersCheck stamp fed result }
    {
        match self.checker.end() {
            Ok(sums) => Ok(CheckedHeader {
                sum: self.sum.wrapping_sub(sums.body_sum),
                len: sums.header_len as u16,
            }),
            Err(fault) => Err(fault),
        }
    }
}
