//! What the words ask for.

ghost use Rattle.std.specs.Prelude.{◌≡◌, ◌∷◌, ℕ, List, Option, IfOk, IsErrOf, codes, drop, map, string_bytes};
ghost use Rattle.px_base.specs.CallSign.{CallSign};
ghost use Rattle.command_words.specs.Asked.{AsksFor};
ghost use Rattle.command_words.specs.Commands.{word_of};
ghost use Rattle.command_words.specs.declared.request.Refusal.TheVariants.{OutOfMemory as refused_memory};
ghost use Rattle.command_words.specs.Laws.{AsksSession};
ghost use Rattle.command_words.specs.Refusals.{IsRefusedFor};
ghost use Rattle.command_words.specs.Words.{IsNamed, IsUsage, NamesCommand, SessionText};

use crate::air::{names_air, read_air};
use crate::body::body_request;
use crate::client::{ClientRequest, client_request};
use crate::command::{CommandWord, FileCommand, read_command};
use crate::disk::{DiskWord, read_disk};
use crate::line;
use crate::make::{MakingRequest, make_request};
use crate::number::{number_or, optional_moment};
use crate::rehearse::{RehearseRequest, rehearse_request};
use crate::serve::{ServeRequest, serve_request};
use crate::words::Words;
use px_base::Call;
use std::alloc::{AllocError, Global};
use thiserror::Error;

/// How many blocks of 512 octets a store has, where the words don't say.
pub const BLOCKS: u32 = 65_536;

/// How many polls a run makes at most, where the words don't say.
pub const POLLS: u64 = 1_000_000_000_000;

/// How many blocks of 512 octets a store may have at most.
pub(crate) const MOST_BLOCKS: u64 = 65_536;

/// The session that the words ask for, over the air that AIR names: standard input and output, or a host and port.
#[derive(Clone, Copy, Debug, PartialEq, Eq)]
pub struct SessionRequest {
    /// On which disk its store lies.
    pub disk: DiskWord,
    /// Whose session it is.
    pub caller: Call,
    /// Its moment, in seconds since 1 January 1970, where the words give one.
    pub moment: Option<u32>,
    /// How many blocks of 512 octets its store has: 1 to 65,536; [`BLOCKS`] where the words give none.
    pub blocks: u32,
    /// How many polls it makes at most: 1 or more; [`POLLS`] where the words give none.
    pub polls: u64,
}

/// What the words ask for.
#[derive(Clone, Copy, Debug, PartialEq, Eq)]
pub enum Request<'a> {
    /// A session.
    Session(SessionRequest),
    /// The service of a station.
    Serve(ServeRequest),
    /// Something of a client.
    Client(ClientRequest<'a>),
    /// A text of a file of the shelf.
    File {
        /// Which text.
        command: FileCommand,
        /// The file's name on the shelf.
        name: &'a str,
    },
    /// A file that is made of another one.
    Making(MakingRequest<'a>),
    /// A rehearsal.
    Rehearse(RehearseRequest<'a>),
}

/// Why the words ask for nothing.
#[derive(Clone, Copy, Debug, PartialEq, Eq, Error)]
pub enum Refusal {
    /// They aren't in the command set.
    #[error("the words are not in the command set")]
    Usage,
    /// There was no memory to read them.
    #[error("out of memory")]
    OutOfMemory,
}

impl From<AllocError> for Refusal {
    ghost from_gives = { λ _ refusal. refusal ≡ refused_memory };

    fn from(_refused: AllocError) -> Refusal {
        Refusal::OutOfMemory
    }
}

/// What the words after `session` give.
#[derive(Clone, Copy)]
struct SessionAsked {
    caller: Call,
    moment: Option<u32>,
    blocks: u32,
    polls: u64,
}

/// Reads the program's words, `DISK AIR COMMAND` and those after it: what they ask for, or the refusal. They aren't in
/// the command set exactly where the answer is `Usage`, but for want of memory (`OutOfMemory`);
/// [`laws::one_meaning`](crate::laws::one_meaning) turns the clauses round. Takes memory where COMMAND is a command.
pub fn read(alloc: Global, words: &Words) -> Result<Request<'_>, Refusal>
    ensures asks { IfOk result (AsksFor words.now) }
    ensures usage { IsErrOf result Refusal.Usage → IsUsage words.now }
    ensures memory { IsErrOf result Refusal.OutOfMemory → NamesCommand words.now }
{
    let texts = words.as_slice();
    let [disk, air, command, ..] = texts else {
        return Err(Refusal::Usage);
    };
    let line = &texts[2..];
    match read_command(command.as_str()) {
        Some(CommandWord::Session) => session_request(alloc, disk.as_str(), air.as_str(), line),
        Some(CommandWord::Serve) => serve_request(alloc, disk.as_str(), air.as_str(), line),
        Some(CommandWord::Client(asked)) => {
            client_request(alloc, asked, disk.as_str(), air.as_str(), line)
        }
        Some(CommandWord::File(shown)) => file_request(alloc, shown, air.as_str(), line),
        Some(CommandWord::PfhMake) => make_request(alloc, air.as_str(), line),
        Some(CommandWord::PfhBody) => body_request(alloc, air.as_str(), line),
        Some(CommandWord::Rehearse) => rehearse_request(alloc, air.as_str(), line),
        None => Err(Refusal::Usage),
    }
}

/// Reads the words of a session: DISK, AIR and the line from `session` on.
fn session_request<'a>(
    alloc: Global,
    disk: &str,
    air: &str,
    line: &'a [String],
) -> Result<Request<'a>, Refusal>
    ensures asks { IfOk result
        (AsksFor (disk.now ∷ air.now ∷ codes "session" ∷ drop 1 (map string_bytes line.now))) }
    ensures refused { IsRefusedFor result
        (AsksSession (disk.now ∷ air.now ∷ codes "session" ∷ drop 1 (map string_bytes line.now)) → ⊥) }
{
    if !names_air(air) {
        return Err(Refusal::Usage);
    }
    let asked = read_texts(alloc, line)?;
    Ok(Request::Session(SessionRequest {
        disk: read_disk(disk),
        caller: asked.caller,
        moment: asked.moment,
        blocks: asked.blocks,
        polls: asked.polls,
    }))
}

/// Reads the line from `session` on. Takes memory.
fn read_texts(alloc: Global, line: &[String]) -> Result<SessionAsked, Refusal>
    ensures text { IfOk result (λ asked. SessionText (drop 1 (map string_bytes line.now)) asked.caller asked.moment
        asked.blocks asked.polls) }
    ensures refused { IsRefusedFor result ((caller : CallSign) (moment : Option ℕ) (blocks polls : ℕ) →
        SessionText (drop 1 (map string_bytes line.now)) caller moment blocks polls → ⊥) }
{
    let texts = line::read_session(alloc, line)?;
    let Ok(caller) = Call::read(texts.caller) else {
        return Err(Refusal::Usage);
    };
    let Some(moment) = optional_moment(texts.moment) else {
        return Err(Refusal::Usage);
    };
    let Some(block_count) = number_or(u64::from(BLOCKS), 1, MOST_BLOCKS, texts.blocks) else {
        return Err(Refusal::Usage);
    };
    let Some(poll_count) = number_or(POLLS, 1, u64::MAX, texts.polls) else {
        return Err(Refusal::Usage);
    };
    Ok(SessionAsked {
        caller,
        moment,
        blocks: block_count as u32,
        polls: poll_count,
    })
}

/// Reads the words of a command that shows a file's text: AIR and the line from the command on. Takes memory.
fn file_request<'a>(
    alloc: Global,
    command: FileCommand,
    air: &str,
    line: &'a [String],
) -> Result<Request<'a>, Refusal>
    ensures asks { IfOk result (λ request. (disk : List ℕ) →
        AsksFor (disk ∷ air.now ∷ word_of command ∷ drop 1 (map string_bytes line.now)) request) }
    ensures refused { IsRefusedFor result ((disk name : List ℕ) →
        IsNamed (word_of command) (disk ∷ air.now ∷ word_of command ∷ drop 1 (map string_bytes line.now)) name → ⊥) }
{
    if read_air(air).is_none() {
        return Err(Refusal::Usage);
    }
    let name = line::read_name(alloc, command.word(), line)?;
    Ok(Request::File { command, name })
}
