//! The words from COMMAND on, read with `clap`.

ghost use Rattle.std.specs.Prelude.{◌≡◌, [], ◌∷◌, false, IfOk, drop, map, option_copied, string_bytes};
ghost use Rattle.clap.specs.Words.{app_of, kind_of, rule_of, with_rule};
ghost use Rattle.command_words.specs.Grammar.{Line};
ghost use Rattle.command_words.specs.Lines.{BodyLine, DrawnLine, FindsLine, MakeLine, RefusesLine, ServeLine};
ghost use Rattle.command_words.specs.Lines.{SessionLine, body_app, command_of, drawn_app, make_app, option_of};
ghost use Rattle.command_words.specs.Lines.{options_added, place_of, serve_app, session_app};
ghost use Rattle.command_words.specs.Making.{make_options};
ghost use Rattle.command_words.specs.Refusals.{IsRefusedFor};
ghost use Rattle.command_words.specs.Rehearsals.{rehearse_options};
ghost use Rattle.command_words.specs.Words.{NameText, serve_options, session_options};

use crate::body::BodyRequest;
use crate::request::Refusal;
use clap::error::ErrorKind;
use clap::{Arg, ArgAction, ArgMatches, Command, Error};
use std::alloc::{AllocError, Global};

/// The place and the options of a session.
#[derive(Clone, Copy)]
pub(crate) struct SessionTexts<'a> {
    /// CALLER.
    pub caller: &'a str,
    /// The value of `--moment`.
    pub moment: Option<&'a str>,
    /// The value of `--blocks`.
    pub blocks: Option<&'a str>,
    /// The value of `--polls`.
    pub polls: Option<&'a str>,
}

/// The place and the options of a service.
#[derive(Clone, Copy)]
pub(crate) struct ServeTexts<'a> {
    /// ME.
    pub me: &'a str,
    /// The value of `--k`.
    pub k: Option<&'a str>,
    /// The value of `--blocks`.
    pub blocks: Option<&'a str>,
    /// The value of `--polls`.
    pub polls: Option<&'a str>,
}

/// The places and the options of `pfh-make`.
#[derive(Clone, Copy)]
pub(crate) struct MakeTexts<'a> {
    /// BODY.
    pub body: &'a str,
    /// NAME.
    pub kept: &'a str,
    /// The value of `--name`.
    pub name: Option<&'a str>,
    /// The value of `--ext`.
    pub ext: Option<&'a str>,
    /// The value of `--type`.
    pub file_type: Option<&'a str>,
    /// The value of `--time`.
    pub time: Option<&'a str>,
    /// The value of `--source`.
    pub source: Option<&'a str>,
    /// The value of `--destination`.
    pub destination: Option<&'a str>,
    /// The value of `--title`.
    pub title: Option<&'a str>,
}

/// The options of `rehearse`.
#[derive(Clone, Copy)]
pub(crate) struct DrawnTexts<'a> {
    /// The value of `--seed`.
    pub seed: Option<&'a str>,
    /// The value of `--count`.
    pub count: Option<&'a str>,
}

/// Reads the words from `session` on. Takes memory.
pub(crate) fn read_session<'a>(
    alloc: Global,
    line: &'a [String],
) -> Result<SessionTexts<'a>, Refusal>
    ensures texts { IfOk result (λ texts. SessionLine (drop 1 (map string_bytes line.now)) texts.caller.now
        (option_copied texts.moment) (option_copied texts.blocks) (option_copied texts.polls)) }
    ensures refused { IsRefusedFor result (Line session_options (drop 1 (map string_bytes line.now)) 1 → ⊥) }
{
    let matches = read_line(session_command(alloc)?, line)?;
    let Some(caller) = matches.get_str("caller") else {
        return Err(Refusal::Usage);
    };
    Ok(SessionTexts {
        caller,
        moment: matches.get_str("moment"),
        blocks: matches.get_str("blocks"),
        polls: matches.get_str("polls"),
    })
}

/// Reads the words from `serve` on. Takes memory.
pub(crate) fn read_serve<'a>(alloc: Global, line: &'a [String]) -> Result<ServeTexts<'a>, Refusal>
    ensures texts { IfOk result (λ texts. ServeLine (drop 1 (map string_bytes line.now)) texts.me.now
        (option_copied texts.k) (option_copied texts.blocks) (option_copied texts.polls)) }
    ensures refused { IsRefusedFor result (Line serve_options (drop 1 (map string_bytes line.now)) 1 → ⊥) }
{
    let matches = read_line(serve_command(alloc)?, line)?;
    let Some(me) = matches.get_str("me") else {
        return Err(Refusal::Usage);
    };
    Ok(ServeTexts {
        me,
        k: matches.get_str("k"),
        blocks: matches.get_str("blocks"),
        polls: matches.get_str("polls"),
    })
}

/// Reads the words from a command on that has one place, a name, and no options. Takes memory.
pub(crate) fn read_name<'a>(
    alloc: Global,
    command: &'a str,
    line: &'a [String],
) -> Result<&'a str, Refusal>
    ensures name { IfOk result (λ name. NameText name.now (drop 1 (map string_bytes line.now))) }
    ensures refused { IsRefusedFor result (Line [] (drop 1 (map string_bytes line.now)) 1 → ⊥) }
{
    let matches = read_line(line_command(alloc, command, "name")?, line)?;
    match matches.get_str("name") {
        Some(name) => Ok(name),
        None => Err(Refusal::Usage),
    }
}

/// Reads the words from `pfh-make` on. Takes memory.
pub(crate) fn read_make<'a>(alloc: Global, line: &'a [String]) -> Result<MakeTexts<'a>, Refusal>
    ensures texts { IfOk result (λ texts. MakeLine texts (drop 1 (map string_bytes line.now))) }
    ensures refused { IsRefusedFor result (Line make_options (drop 1 (map string_bytes line.now)) 2 → ⊥) }
{
    let matches = read_line(make_command(alloc)?, line)?;
    let Some(body) = matches.get_str("body") else {
        return Err(Refusal::Usage);
    };
    let Some(kept) = matches.get_str("kept") else {
        return Err(Refusal::Usage);
    };
    Ok(MakeTexts {
        body,
        kept,
        name: matches.get_str("name"),
        ext: matches.get_str("ext"),
        file_type: matches.get_str("type"),
        time: matches.get_str("time"),
        source: matches.get_str("source"),
        destination: matches.get_str("destination"),
        title: matches.get_str("title"),
    })
}

/// Reads the words from `pfh-body` on. Takes memory.
pub(crate) fn read_body<'a>(alloc: Global, line: &'a [String]) -> Result<BodyRequest<'a>, Refusal>
    ensures texts { IfOk result (λ asked. BodyLine asked (drop 1 (map string_bytes line.now))) }
    ensures refused { IsRefusedFor result (Line [] (drop 1 (map string_bytes line.now)) 2 → ⊥) }
{
    let matches = read_line(body_command(alloc)?, line)?;
    let Some(name) = matches.get_str("name") else {
        return Err(Refusal::Usage);
    };
    let Some(kept) = matches.get_str("out") else {
        return Err(Refusal::Usage);
    };
    Ok(BodyRequest { name, kept })
}

/// Reads the words from `rehearse` on that name no schedule. Takes memory.
pub(crate) fn read_drawn<'a>(alloc: Global, line: &'a [String]) -> Result<DrawnTexts<'a>, Refusal>
    ensures texts { IfOk result (λ texts. DrawnLine (drop 1 (map string_bytes line.now)) (option_copied texts.seed)
        (option_copied texts.count)) }
    ensures refused { IsRefusedFor result (Line rehearse_options (drop 1 (map string_bytes line.now)) 0 → ⊥) }
{
    let matches = read_line(drawn_command(alloc)?, line)?;
    Ok(DrawnTexts {
        seed: matches.get_str("seed"),
        count: matches.get_str("count"),
    })
}

/// The command `session` with its place and its options.
pub(crate) fn session_command<'a>(alloc: Global) -> Result<Command<'a>, AllocError>
    ensures { IfOk result (λ command. app_of command ≡ session_app) }
{
    let command = line_command(alloc, "session", "caller")?;
    with_options(alloc, command, &["moment", "blocks", "polls"])
}

/// The command `serve` with its place and its options.
pub(crate) fn serve_command<'a>(alloc: Global) -> Result<Command<'a>, AllocError>
    ensures { IfOk result (λ command. app_of command ≡ serve_app) }
{
    let command = line_command(alloc, "serve", "me")?;
    with_options(alloc, command, &["k", "blocks", "polls"])
}

/// The command `pfh-make` with its two places and its options.
pub(crate) fn make_command<'a>(alloc: Global) -> Result<Command<'a>, AllocError>
    ensures { IfOk result (λ command. app_of command ≡ make_app) }
{
    let command = line_command(alloc, "pfh-make", "body")?.arg(place(alloc, "kept"))?;
    let options = [
        "name",
        "ext",
        "type",
        "time",
        "source",
        "destination",
        "title",
    ];
    with_options(alloc, command, &options)
}

/// The command `pfh-body` with its two places.
pub(crate) fn body_command<'a>(alloc: Global) -> Result<Command<'a>, AllocError>
    ensures { IfOk result (λ command. app_of command ≡ body_app) }
{
    line_command(alloc, "pfh-body", "name")?.arg(place(alloc, "out"))
}

/// The command `rehearse` with its options and no place.
pub(crate) fn drawn_command<'a>(alloc: Global) -> Result<Command<'a>, AllocError>
    ensures { IfOk result (λ command. app_of command ≡ drawn_app) }
{
    let command = Command::new(alloc, "rehearse").disable_help_flag(true);
    with_options(alloc, command, &["seed", "count"])
}

/// A command with one place and no options yet.
pub(crate) fn line_command<'a>(
    alloc: Global,
    name: &'a str,
    place_name: &'a str,
) -> Result<Command<'a>, AllocError>
    ensures { IfOk result (λ command. app_of command ≡ command_of name.entry.now (place_name.entry.now ∷ []) []) }
{
    Command::new(alloc, name)
        .disable_help_flag(true)
        .arg(place(alloc, place_name))
}

/// The command with an option more of each of these names.
pub(crate) fn with_options<'a>(
    alloc: Global,
    command: Command<'a>,
    names: &[&'a str],
) -> Result<Command<'a>, AllocError>
    ensures { IfOk result (λ more.
        app_of more ≡ options_added (app_of command.entry) (map (λ name. name.now) names.now)) }
{
    let mut command = command;
    for name in names {
        command = with_option(alloc, command, name)?;
    }
    Ok(command)
}

/// The command with one more option.
fn with_option<'a>(
    alloc: Global,
    command: Command<'a>,
    name: &'a str,
) -> Result<Command<'a>, AllocError>
    ensures { IfOk result (λ more. app_of more ≡ with_rule (app_of command.entry) (option_of name.entry.now)) }
{
    command.arg(Arg::new(alloc, name).long(name).action(ArgAction::Set))
}

/// A place that has to be there.
pub(crate) fn place<'a>(alloc: Global, name: &'a str) -> Arg<'a>
    ensures rule { rule_of result ≡ place_of name.entry.now }
    ensures local { result.global ≡ false }
{
    Arg::new(alloc, name).required(true).action(ArgAction::Set)
}

/// Reads the words of a line, of which the first is the command itself. Takes memory.
pub(crate) fn read_line<'a>(
    command: Command<'a>,
    line: &'a [String],
) -> Result<ArgMatches<'a>, Refusal>
    ensures found { IfOk result (FindsLine (app_of command.entry) (drop 1 (map string_bytes line.now))) }
    ensures refused { IsRefusedFor result (RefusesLine (app_of command.entry) (drop 1 (map string_bytes line.now))) }
{
    match command.try_get_matches_from(line) {
        Ok(matches) => Ok(matches),
        Err(error) => Err(refusal_of(&error)),
    }
}

/// The refusal that an error of `clap` is: want of memory exactly where that is its kind.
fn refusal_of(error: &Error) -> Refusal
    ensures usage { result ≡ Refusal.Usage → kind_of error.now ≡ ErrorKind.OutOfMemory → ⊥ }
    ensures memory { result ≡ Refusal.OutOfMemory → kind_of error.now ≡ ErrorKind.OutOfMemory }
{
    match error.kind() {
        ErrorKind::OutOfMemory => Refusal::OutOfMemory,
        _ => Refusal::Usage,
    }
}
