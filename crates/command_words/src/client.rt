//! The words of a client's commands: `send`, `fetch` and `list`.

ghost use Rattle.std.specs.Prelude.{◌∷◌, ℕ, List, IfOk, codes, drop, map, string_bytes};
ghost use Rattle.command_words.specs.Asked.{AsksBehind, AsksFor};
ghost use Rattle.command_words.specs.Clients.{FetchText, HexText, ListText, SendText};
ghost use Rattle.command_words.specs.Commands.{AsksBy, client_word};
ghost use Rattle.command_words.specs.Refusals.{IsRefusedFor};

use crate::client_line::{read_client_texts, read_fetch_texts};
use crate::command::ClientCommand;
use crate::disk::is_station;
use crate::hex_text::{is_hex, octets_of};
use crate::number::read_number;
use crate::request::{Refusal, Request};
use crate::terms::{ClientTerms, read_terms};
use px_base::OutOfMemory;
use std::alloc::Global;

/// How many octets NAME of `send` may have at most.
const MOST_NAME: usize = 64;

/// The last number of a file.
const LAST_NUMBER: u64 = 4_294_967_295;

/// A file of the shelf that is to be sent to a server.
#[derive(Clone, Copy, Debug, PartialEq, Eq)]
pub struct SendRequest<'a> {
    /// With whom the client speaks, and how.
    pub terms: ClientTerms,
    /// The file's name on the shelf: 1 to 64 octets.
    pub name: &'a str,
}

/// A file of a server that is to be kept on the shelf.
#[derive(Clone, Copy, Debug, PartialEq, Eq)]
pub struct FetchRequest<'a> {
    /// With whom the client speaks, and how.
    pub terms: ClientTerms,
    /// The file's number on the server: 1 or more.
    pub number: u32,
    /// The name on the shelf under which it is to be kept.
    pub name: &'a str,
}

/// A list of the files of a server that a selection holds of.
#[derive(Clone, Copy, Debug, PartialEq, Eq)]
pub struct ListRequest<'a> {
    /// With whom the client speaks, and how.
    pub terms: ClientTerms,
    /// The tokens of the selection (FTL0 1990, the selection commands) in hexadecimal, two digits an octet, in either case:
    /// at most 2,047 octets, which [`tokens`](ListRequest::tokens) gives.
    pub hex: &'a str,
}

impl<'a> ListRequest<'a> {
    /// The tokens of the selection, of a request that was read. Takes memory.
    pub fn tokens(&self, alloc: Global) -> Result<Vec<u8>, OutOfMemory>
        requires hex { (tokens : List ℕ) × HexText self.now.hex.now tokens }
        ensures { IfOk result (λ tokens. HexText self.now.hex.now tokens.items) }
    {
        octets_of(alloc, self.hex)
    }
}

/// What the words ask a client for. Its air is the one that AIR names, standard input and output or a host and port, and its
/// notes lie on the disk that DISK names, the file of that path.
#[derive(Clone, Copy, Debug, PartialEq, Eq)]
pub enum ClientRequest<'a> {
    /// A file that is to be sent.
    Send(SendRequest<'a>),
    /// A file that is to be fetched.
    Fetch(FetchRequest<'a>),
    /// A list.
    List(ListRequest<'a>),
}

/// Reads the words of a client's command: DISK, AIR and the line from the command on. Takes memory.
pub(crate) fn client_request<'a>(
    alloc: Global,
    command: ClientCommand,
    disk: &str,
    air: &str,
    line: &'a [String],
) -> Result<Request<'a>, Refusal>
    ensures asks { IfOk result
        (AsksFor (disk.now ∷ air.now ∷ client_word command ∷ drop 1 (map string_bytes line.now))) }
    ensures refused { IsRefusedFor result
        (AsksBy command (disk.now ∷ air.now ∷ client_word command ∷ drop 1 (map string_bytes line.now)) → ⊥) }
{
    if !is_station(disk, air) {
        return Err(Refusal::Usage);
    }
    match command {
        ClientCommand::Send => send_request(alloc, line),
        ClientCommand::Fetch => fetch_request(alloc, line),
        ClientCommand::List => list_request(alloc, line),
    }
}

/// Reads the line from `send` on. Takes memory.
fn send_request<'a>(alloc: Global, line: &'a [String]) -> Result<Request<'a>, Refusal>
    ensures asks { IfOk result (AsksBehind (codes "send") (drop 1 (map string_bytes line.now))) }
    ensures refused { IsRefusedFor result ((terms : ClientTerms) (name : List ℕ) →
        SendText terms name (drop 1 (map string_bytes line.now)) → ⊥) }
{
    let texts = read_client_texts(alloc, "send", line)?;
    let Some(terms) = read_terms(texts.server, texts.me, texts.k, texts.polls) else {
        return Err(Refusal::Usage);
    };
    if texts.subject.is_empty() || texts.subject.len() > MOST_NAME {
        return Err(Refusal::Usage);
    }
    Ok(Request::Client(ClientRequest::Send(SendRequest {
        terms,
        name: texts.subject,
    })))
}

/// Reads the line from `fetch` on. Takes memory.
fn fetch_request<'a>(alloc: Global, line: &'a [String]) -> Result<Request<'a>, Refusal>
    ensures asks { IfOk result (AsksBehind (codes "fetch") (drop 1 (map string_bytes line.now))) }
    ensures refused { IsRefusedFor result ((terms : ClientTerms) (number : ℕ) (name : List ℕ) →
        FetchText terms number name (drop 1 (map string_bytes line.now)) → ⊥) }
{
    let texts = read_fetch_texts(alloc, line)?;
    let Some(terms) = read_terms(texts.server, texts.me, texts.k, texts.polls) else {
        return Err(Refusal::Usage);
    };
    let Some(number) = read_number(1, LAST_NUMBER, texts.number) else {
        return Err(Refusal::Usage);
    };
    Ok(Request::Client(ClientRequest::Fetch(FetchRequest {
        terms,
        number: number as u32,
        name: texts.name,
    })))
}

/// Reads the line from `list` on. Takes memory.
fn list_request<'a>(alloc: Global, line: &'a [String]) -> Result<Request<'a>, Refusal>
    ensures asks { IfOk result (AsksBehind (codes "list") (drop 1 (map string_bytes line.now))) }
    ensures refused { IsRefusedFor result ((terms : ClientTerms) (tokens : List ℕ) →
        ListText terms tokens (drop 1 (map string_bytes line.now)) → ⊥) }
{
    let texts = read_client_texts(alloc, "list", line)?;
    let Some(terms) = read_terms(texts.server, texts.me, texts.k, texts.polls) else {
        return Err(Refusal::Usage);
    };
    if !is_hex(texts.subject) {
        return Err(Refusal::Usage);
    }
    Ok(Request::Client(ClientRequest::List(ListRequest {
        terms,
        hex: texts.subject,
    })))
}
