//! What the program says of itself.

use command_words::{Words, refusal_text};
use pacsat_cli::Status;
use px_base::Out;
use real_outside::StdOut;

/// The version, as `--version` shows it.
const VERSION: &str = "pacsat 0.6.0\n";

/// The words that the program takes.
const SYNOPSIS: &str = "\
usage: pacsat DISK AIR serve ME [--k N] [--blocks N] [--polls N]
       pacsat DISK AIR session CALLER [--moment N] [--blocks N] [--polls N]
       pacsat DISK AIR send SERVER ME NAME [--k N] [--polls N]
       pacsat DISK AIR fetch SERVER ME NUMBER NAME [--k N] [--polls N]
       pacsat DISK AIR list SERVER ME HEX [--k N] [--polls N]
       pacsat DISK AIR frames NAME
       pacsat DISK AIR pfh-make BODY NAME --name T [--ext T] [--type N] [--time N]
              [--source T] [--destination T] [--title T]
       pacsat DISK AIR pfh-body NAME OUT
       pacsat DISK AIR pfh-show NAME
       pacsat DISK AIR pfh-check NAME
       pacsat DISK AIR rehearse NAME
       pacsat DISK AIR rehearse --seed N --count N
       pacsat --version | --help
";

/// What the words and the commands mean.
const COMMANDS: &str = "
The connected file service of an amateur store-and-forward satellite: FTL0 and
PACSAT file headers over AX.25 2.0 and KISS.

DISK       the file of the server's store or of the client's notes, or none
AIR        the modem's host and KISS port, - for standard input and output, or none

serve      serves up to eight stations at once as ME
session    serves one session of CALLER without a link
send       sends the file NAME to SERVER
fetch      gets the file NUMBER of SERVER, and keeps it as NAME
list       lists the files of SERVER that the selection HEX holds of
frames     shows a line for each AX.25 frame in recorded KISS text
pfh-make   makes the file NAME of BODY and a header
pfh-body   keeps the body of the file NAME as OUT
pfh-show   shows the header of NAME, and whether the file keeps all rules
pfh-check  shows the latter alone
rehearse   plays the schedule NAME, or a drawn one, and shows what came of it

PACSAT_LOG=off|info|frames in the environment sets what is shown on standard error
where AIR is a host and port: nothing, what happens (without it), or each frame too.
The statuses, and what to do after each, are in pacsat(1).
";

/// Shows what these words ask to be told of the program, where `--version` or `--help` stands alone, and gives the
/// status; or else does nothing.
pub(crate) fn told(rt: &HostRuntime, words: &Words) -> Option<Status> {
    if words.get(1).is_some() {
        return None;
    }
    let texts = match words.get(0)? {
        "--version" => [VERSION, ""],
        "--help" => [SYNOPSIS, COMMANDS],
        _ => return None,
    };
    let mut out = StdOut::new(rt.stdout());
    for text in texts {
        if out.put(text.as_bytes()).is_err() {
            return Some(Status::Out);
        }
    }
    Some(Status::Done)
}

/// Tells on standard error why the words are refused, where that is known, and which ones the program takes.
pub(crate) fn tell_usage(rt: &HostRuntime, words: &Words) {
    if let Some(text) = refusal_text(rt.alloc(), words) {
        let reason = text.as_str().split("\n\n").next().unwrap_or("");
        let _ = eprintln!(rt; "pacsat: {reason}");
    }
    let _ = eprint!(rt; "{SYNOPSIS}");
}
