//! The words from a client's command on, read with `clap`.

ghost use Rattle.std.specs.Prelude.{◌≡◌, [], ◌∷◌, IfOk, drop, map, option_copied, string_bytes};
ghost use Rattle.clap.specs.Words.{app_of};
ghost use Rattle.command_words.specs.Clients.{client_options};
ghost use Rattle.command_words.specs.Grammar.{Line};
ghost use Rattle.command_words.specs.Lines.{ClientLine, client_app, fetch_app};
ghost use Rattle.command_words.specs.Refusals.{IsRefusedFor};

use crate::line::{line_command, place, read_line, with_options};
use crate::request::Refusal;
use clap::Command;
use std::alloc::{AllocError, Global};

/// The places and the options of `send` and `list`.
#[derive(Clone, Copy)]
pub(crate) struct ClientTexts<'a> {
    /// SERVER.
    pub server: &'a str,
    /// ME.
    pub me: &'a str,
    /// NAME or HEX.
    pub subject: &'a str,
    /// The value of `--k`.
    pub k: Option<&'a str>,
    /// The value of `--polls`.
    pub polls: Option<&'a str>,
}

/// The places and the options of `fetch`.
#[derive(Clone, Copy)]
pub(crate) struct FetchTexts<'a> {
    /// SERVER.
    pub server: &'a str,
    /// ME.
    pub me: &'a str,
    /// NUMBER.
    pub number: &'a str,
    /// NAME.
    pub name: &'a str,
    /// The value of `--k`.
    pub k: Option<&'a str>,
    /// The value of `--polls`.
    pub polls: Option<&'a str>,
}

/// Reads the words from `send` or `list` on. Takes memory.
pub(crate) fn read_client_texts<'a>(
    alloc: Global,
    command: &'a str,
    line: &'a [String],
) -> Result<ClientTexts<'a>, Refusal>
    ensures texts { IfOk result (λ texts. ClientLine 3 (drop 1 (map string_bytes line.now))
        (texts.server.now ∷ texts.me.now ∷ texts.subject.now ∷ []) (option_copied texts.k) (option_copied texts.polls)) }
    ensures refused { IsRefusedFor result (Line client_options (drop 1 (map string_bytes line.now)) 3 → ⊥) }
{
    let matches = read_line(client_command(alloc, command)?, line)?;
    let Some(server) = matches.get_str("server") else {
        return Err(Refusal::Usage);
    };
    let Some(me) = matches.get_str("me") else {
        return Err(Refusal::Usage);
    };
    let Some(subject) = matches.get_str("subject") else {
        return Err(Refusal::Usage);
    };
    Ok(ClientTexts {
        server,
        me,
        subject,
        k: matches.get_str("k"),
        polls: matches.get_str("polls"),
    })
}

/// Reads the words from `fetch` on. Takes memory.
pub(crate) fn read_fetch_texts<'a>(
    alloc: Global,
    line: &'a [String],
) -> Result<FetchTexts<'a>, Refusal>
    ensures texts { IfOk result (λ texts. ClientLine 4 (drop 1 (map string_bytes line.now))
        (texts.server.now ∷ texts.me.now ∷ texts.number.now ∷ texts.name.now ∷ [])
        (option_copied texts.k) (option_copied texts.polls)) }
    ensures refused { IsRefusedFor result (Line client_options (drop 1 (map string_bytes line.now)) 4 → ⊥) }
{
    let matches = read_line(fetch_command(alloc)?, line)?;
    let Some(server) = matches.get_str("server") else {
        return Err(Refusal::Usage);
    };
    let Some(me) = matches.get_str("me") else {
        return Err(Refusal::Usage);
    };
    let Some(number) = matches.get_str("number") else {
        return Err(Refusal::Usage);
    };
    let Some(name) = matches.get_str("name") else {
        return Err(Refusal::Usage);
    };
    Ok(FetchTexts {
        server,
        me,
        number,
        name,
        k: matches.get_str("k"),
        polls: matches.get_str("polls"),
    })
}

/// A client's command of this name, with one place behind SERVER and ME, and its options.
pub(crate) fn client_command<'a>(alloc: Global, name: &'a str) -> Result<Command<'a>, AllocError>
    ensures { IfOk result (λ command. app_of command ≡ client_app name.entry.now) }
{
    let command = line_command(alloc, name, "server")?
        .arg(place(alloc, "me"))?
        .arg(place(alloc, "subject"))?;
    with_options(alloc, command, &["k", "polls"])
}

/// The command `fetch` with its four places and its options.
pub(crate) fn fetch_command<'a>(alloc: Global) -> Result<Command<'a>, AllocError>
    ensures { IfOk result (λ command. app_of command ≡ fetch_app) }
{
    let command = line_command(alloc, "fetch", "server")?
        .arg(place(alloc, "me"))?
        .arg(place(alloc, "number"))?
        .arg(place(alloc, "name"))?;
    with_options(alloc, command, &["k", "polls"])
}
