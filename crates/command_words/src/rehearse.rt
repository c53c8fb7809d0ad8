//! The words of `rehearse`.

ghost use Rattle.std.specs.Prelude.{◌∷◌, ℕ, List, IfOk, codes, drop, map, string_bytes};
ghost use Rattle.command_words.specs.Asked.{AsksFor, IsRehearseText};
ghost use Rattle.command_words.specs.Refusals.{IsRefusedFor};
ghost use Rattle.command_words.specs.Rehearsals.{DrawnText};
ghost use Rattle.command_words.specs.Words.{AsksRehearse, NameText};

use crate::air::read_air;
use crate::line;
use crate::number::given_number;
use crate::request::{Refusal, Request};
use std::alloc::Global;

/// How many rounds may be drawn at most.
const MOST_ROUNDS: u64 = 1_000;

/// The rehearsal that the words ask for.
#[derive(Clone, Copy, Debug, PartialEq, Eq)]
pub enum RehearseRequest<'a> {
    /// That of a schedule which stands in a file of the shelf.
    Schedule {
        /// NAME: the file's name on the shelf, any text.
        name: &'a str,
    },
    /// That of rounds which are drawn.
    Drawn {
        /// The number that the draws begin with.
        seed: u64,
        /// How many rounds are drawn: 1 to 1,000.
        count: u32,
    },
}

/// Reads the words of `rehearse`: AIR and the line from `rehearse` on. Takes memory.
pub(crate) fn rehearse_request<'a>(
    alloc: Global,
    air: &str,
    line: &'a [String],
) -> Result<Request<'a>, Refusal>
    ensures asks { IfOk result (λ request. (disk : List ℕ) →
        AsksFor (disk ∷ air.now ∷ codes "rehearse" ∷ drop 1 (map string_bytes line.now)) request) }
    ensures refused { IsRefusedFor result ((disk : List ℕ) →
        AsksRehearse (disk ∷ air.now ∷ codes "rehearse" ∷ drop 1 (map string_bytes line.now)) → ⊥) }
{
    if read_air(air).is_none() {
        return Err(Refusal::Usage);
    }
    let asked = read_texts(alloc, line)?;
    Ok(Request::Rehearse(asked))
}

/// Reads the line from `rehearse` on: a NAME, or else the two options. Takes memory.
fn read_texts<'a>(alloc: Global, line: &'a [String]) -> Result<RehearseRequest<'a>, Refusal>
    ensures text { IfOk result (IsRehearseText (drop 1 (map string_bytes line.now))) }
    ensures no_name { IsRefusedFor result ((name : List ℕ) →
        NameText name (drop 1 (map string_bytes line.now)) → ⊥) }
    ensures no_draws { IsRefusedFor result ((seed count : ℕ) →
        DrawnText seed count (drop 1 (map string_bytes line.now)) → ⊥) }
{
    match line::read_name(alloc, "rehearse", line) {
        Ok(name) => Ok(RehearseRequest::Schedule { name }),
        Err(Refusal::Usage) => read_drawn(alloc, line),
        Err(Refusal::OutOfMemory) => Err(Refusal::OutOfMemory),
    }
}

/// Reads the line from `rehearse` on as the two options. Takes memory.
fn read_drawn<'a>(alloc: Global, line: &'a [String]) -> Result<RehearseRequest<'a>, Refusal>
    ensures text { IfOk result (IsRehearseText (drop 1 (map string_bytes line.now))) }
    ensures refused { IsRefusedFor result ((seed count : ℕ) →
        DrawnText seed count (drop 1 (map string_bytes line.now)) → ⊥) }
{
    let texts = line::read_drawn(alloc, line)?;
    let Some(seed) = given_number(0, u64::MAX, texts.seed) else {
        return Err(Refusal::Usage);
    };
    let Some(count) = given_number(1, MOST_ROUNDS, texts.count) else {
        return Err(Refusal::Usage);
    };
    Ok(RehearseRequest::Drawn {
        seed,
        count: count as u32,
    })
}
