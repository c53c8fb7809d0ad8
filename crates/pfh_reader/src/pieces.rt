//! A whole run of the checker, over pieces.

ghost use Rattle.std.specs.Prelude.{◌≡◌, ◌≤◌, length, None, Some, IfOk, IfErr, MatchResult};
ghost use Rattle.pfh_items.specs.Faults.{fault_code};
ghost use Rattle.pfh_reader.specs.Check.{HasFault, HasSums, joined};

use crate::{Checker, HeaderFault};
use pfh_items::Sums;
use px_base::FileBytes;

/// Checks a file that comes in these pieces: the answer is that for all pieces joined, wherever they are cut. Takes no
/// memory.
pub fn check_pieces(pieces: &[FileBytes]) -> Result<Sums, HeaderFault>
    requires { length (joined pieces.now) ≤ 4194304 }
    ensures ok { IfOk result (HasSums (joined pieces.now)) }
    ensures fault { IfErr result (λ fault. HasFault (joined pieces.now) fault.code) }
    ensures code { MatchResult result (λ _. fault_code (joined pieces.now) ≡ None)
        (λ fault. fault_code (joined pieces.now) ≡ Some fault.code) }
{
    let mut checker = Checker::new();
    for piece in pieces {
        checker.feed(piece.as_slice());
    }
    checker.end()
}
