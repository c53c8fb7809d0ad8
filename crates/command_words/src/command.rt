//! The word COMMAND.

ghost use Rattle.std.specs.Prelude.{◌≡◌, IfNone, IfSome};
ghost use Rattle.command_words.specs.Commands.{IsCommandOf, client_word, word_of};

/// What the word COMMAND names.
#[derive(Clone, Copy)]
pub(crate) enum CommandWord {
    /// A session.
    Session,
    /// The service of a station.
    Serve,
    /// A command of a client.
    Client(ClientCommand),
    /// A command that shows a text of a file.
    File(FileCommand),
    /// The making of a file.
    PfhMake,
    /// The body of a file.
    PfhBody,
    /// A rehearsal.
    Rehearse,
}

/// A command that shows a text of a file on the shelf. It has one place, the file's name, and no options, and needs
/// neither disk nor air.
#[derive(Clone, Copy, Debug, PartialEq, Eq)]
pub enum FileCommand {
    /// `frames`: a line for each part of recorded KISS text.
    Frames,
    /// `pfh-show`: a line for each item of the file's header, and the line of its check.
    Show,
    /// `pfh-check`: the line of its check.
    Check,
}

/// The commands of a client, which need a disk and an air.
#[derive(Clone, Copy)]
pub(crate) enum ClientCommand {
    /// `send`.
    Send,
    /// `fetch`.
    Fetch,
    /// `list`.
    List,
}

/// What this word COMMAND names.
pub(crate) fn read_command(word: &str) -> Option<CommandWord>
    ensures some { IfSome result (λ command. IsCommandOf word.now command) }
    ensures none { IfNone result ((command : CommandWord) → IsCommandOf word.now command → ⊥) }
{
    if word == "session" {
        return Some(CommandWord::Session);
    }
    if word == "serve" {
        return Some(CommandWord::Serve);
    }
    if let Some(command) = read_client_command(word) {
        return Some(CommandWord::Client(command));
    }
    if let Some(command) = read_file_command(word) {
        return Some(CommandWord::File(command));
    }
    if word == "pfh-make" {
        return Some(CommandWord::PfhMake);
    }
    if word == "pfh-body" {
        return Some(CommandWord::PfhBody);
    }
    if word == "rehearse" {
        return Some(CommandWord::Rehearse);
    }
    None
}

/// Which of the commands that show a file's text this is.
fn read_file_command(word: &str) -> Option<FileCommand>
    ensures some { IfSome result (λ command. word.now ≡ word_of command) }
    ensures none { IfNone result ((command : FileCommand) → word.now ≡ word_of command → ⊥) }
{
    if word == "frames" {
        return Some(FileCommand::Frames);
    }
    if word == "pfh-check" {
        return Some(FileCommand::Check);
    }
    if word == "pfh-show" {
        return Some(FileCommand::Show);
    }
    None
}

/// Which of a client's commands this is.
fn read_client_command(word: &str) -> Option<ClientCommand>
    ensures some { IfSome result (λ command. word.now ≡ client_word command) }
    ensures none { IfNone result ((command : ClientCommand) → word.now ≡ client_word command → ⊥) }
{
    if word == "send" {
        return Some(ClientCommand::Send);
    }
    if word == "fetch" {
        return Some(ClientCommand::Fetch);
    }
    if word == "list" {
        return Some(ClientCommand::List);
    }
    None
}

impl FileCommand {
    /// The word of this command.
    pub(crate) fn word(self) -> &'static str
        ensures { result.now ≡ word_of self }
    {
        match self {
            FileCommand::Frames => "frames",
            FileCommand::Show => "pfh-show",
            FileCommand::Check => "pfh-check",
        }
    }
}
