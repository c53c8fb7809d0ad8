//! The words of `serve`.

ghost use Rattle.std.specs.Prelude.{◌∷◌, ℕ, IfOk, codes, drop, map, string_bytes};
ghost use Rattle.px_base.specs.CallSign.{CallSign};
ghost use Rattle.command_words.specs.Asked.{AsksFor};
ghost use Rattle.command_words.specs.Laws.{AsksServe};
ghost use Rattle.command_words.specs.Refusals.{IsRefusedFor};
ghost use Rattle.command_words.specs.Words.{ServeText};

use crate::air::names_air;
use crate::disk::{DiskWord, read_disk};
use crate::line;
use crate::number::number_or;
use crate::request::{BLOCKS, MOST_BLOCKS, POLLS, Refusal, Request};
use px_base::Call;
use std::alloc::Global;

/// How many I frames of a link may be outstanding, where the words don't say (k of AX.25 2.0, 2.4.7.4).
pub const K: u8 = 4;

/// How many I frames of a link may be outstanding at most.
pub(crate) const MOST_K: u64 = 7;

/// The service that the words ask for. Its air is the one that AIR names, standard input and output or a host and port, and
/// its store lies on the disk that DISK names, the file of that path.
#[derive(Clone, Copy, Debug, PartialEq, Eq)]
pub struct ServeRequest {
    /// The call of the station that serves.
    pub me: Call,
    /// How many I frames of a link may be outstanding (k of AX.25 2.0, 2.4.7.4): 1 to 7; [`K`] where the words give none.
    pub k: u8,
    /// How many blocks of 512 octets the store has: 1 to 65,536; [`BLOCKS`] where the words give none.
    pub blocks: u32,
    /// How many polls are made at most: 1 or more; [`POLLS`] where the words give none.
    pub polls: u64,
}

/// Reads the words of `serve`: DISK, AIR and the line from `serve` on. Takes memory.
pub(crate) fn serve_request<'a>(
    alloc: Global,
    disk: &str,
    air: &str,
    line: &'a [String],
) -> Result<Request<'a>, Refusal>
    ensures asks { IfOk result
        (AsksFor (disk.now ∷ air.now ∷ codes "serve" ∷ drop 1 (map string_bytes line.now))) }
    ensures refused { IsRefusedFor result
        (AsksServe (disk.now ∷ air.now ∷ codes "serve" ∷ drop 1 (map string_bytes line.now)) → ⊥) }
{
    match read_disk(disk) {
        DiskWord::Named => {}
        DiskWord::Fresh => return Err(Refusal::Usage),
    }
    if !names_air(air) {
        return Err(Refusal::Usage);
    }
    let asked = read_texts(alloc, line)?;
    Ok(Request::Serve(asked))
}

/// Reads the line from `serve` on. Takes memory.
fn read_texts(alloc: Global, line: &[String]) -> Result<ServeRequest, Refusal>
    ensures text { IfOk result (λ asked.
        ServeText (drop 1 (map string_bytes line.now)) asked.me asked.k asked.blocks asked.polls) }
    ensures refused { IsRefusedFor result ((me : CallSign) (k blocks polls : ℕ) →
        ServeText (drop 1 (map string_bytes line.now)) me k blocks polls → ⊥) }
{
    let texts = line::read_serve(alloc, line)?;
    let Ok(me) = Call::read(texts.me) else {
        return Err(Refusal::Usage);
    };
    let Some(most_outstanding) = number_or(u64::from(K), 1, MOST_K, texts.k) else {
        return Err(Refusal::Usage);
    };
    let Some(block_count) = number_or(u64::from(BLOCKS), 1, MOST_BLOCKS, texts.blocks) else {
        return Err(Refusal::Usage);
    };
    let Some(poll_count) = number_or(POLLS, 1, u64::MAX, texts.polls) else {
        return Err(Refusal::Usage);
    };
    Ok(ServeRequest {
        me,
        k: most_outstanding as u8,
        blocks: block_count as u32,
        polls: poll_count,
    })
}
