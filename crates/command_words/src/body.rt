//! The words of `pfh-body`.

ghost use Rattle.std.specs.Prelude.{◌∷◌, ℕ, List, IfOk, codes, drop, map, string_bytes};
ghost use Rattle.command_words.specs.Asked.{AsksFor};
ghost use Rattle.command_words.specs.Refusals.{IsRefusedFor};
ghost use Rattle.command_words.specs.Words.{IsBody};

use crate::air::read_air;
use crate::line;
use crate::make::MakingRequest;
use crate::request::{Refusal, Request};
use std::alloc::Global;

/// The body that the words ask for: of which file, and under which name it is to be kept.
#[derive(Clone, Copy, Debug, PartialEq, Eq)]
pub struct BodyRequest<'a> {
    /// NAME: the name of the file on the shelf.
    pub name: &'a str,
    /// OUT: the name on the shelf under which its body is to be kept.
    pub kept: &'a str,
}

/// Reads the words of `pfh-body`: AIR and the line from `pfh-body` on. Takes memory.
pub(crate) fn body_request<'a>(
    alloc: Global,
    air: &str,
    line: &'a [String],
) -> Result<Request<'a>, Refusal>
    ensures asks { IfOk result (λ request. (disk : List ℕ) →
        AsksFor (disk ∷ air.now ∷ codes "pfh-body" ∷ drop 1 (map string_bytes line.now)) request) }
    ensures refused { IsRefusedFor result ((disk name kept : List ℕ) →
        IsBody (disk ∷ air.now ∷ codes "pfh-body" ∷ drop 1 (map string_bytes line.now)) name kept → ⊥) }
{
    if read_air(air).is_none() {
        return Err(Refusal::Usage);
    }
    let asked = line::read_body(alloc, line)?;
    Ok(Request::Making(MakingRequest::Body(asked)))
}
