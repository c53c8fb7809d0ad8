//! The body of a file.

ghost use Rattle.std.specs.Prelude.{◌≡◌, None, Some, IfOk, MatchResult};
ghost use Rattle.header_tool.specs.Bodies.{HasBody};
ghost use Rattle.pfh_items.specs.Faults.{fault_code};

use pfh_reader::{HeaderFault, check};

/// Lends the body of a file that keeps the rules of headers (PFH 1990): the octets behind its header. The error is the
/// first rule that the file breaks. Takes no memory.
pub fn body_of(file: &[u8]) -> Result<&[u8], HeaderFault>
    ensures body { IfOk result (λ body. HasBody file.now body.now) }
    ensures fault { MatchResult result
        (λ _. fault_code file.now ≡ None) (λ fault. fault_code file.now ≡ Some fault.code) }
{
    match check(file) {
        Ok(header) => Ok(header.body()),
        Err(fault) => Err(fault),
    }
}
