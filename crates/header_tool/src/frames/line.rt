//! The lines of frames and of faults.

ghost use Rattle.std.specs.Prelude.{◌≡◌, ℕ, ◌+◌, ◌<◌, ◌≤◌, ◌++◌, length, codes, decimal};
ghost use Rattle.arrayvec.specs.ArrayString.{array_string_len};
ghost use Rattle.ax25_frames.specs.Values.{kind_value, value_of};
ghost use Rattle.px_base.specs.CallSign.{call_text};
ghost use Rattle.header_tool.specs.Frames.FrameLine.{command_text, fault_line, frame_line, kind_name, length_text};
ghost use Rattle.header_tool.specs.Frames.FrameLine.{poll_text, sequence_text};

use arrayvec::ArrayString;
use ax25_frames::{Frame, FrameFault, Kind};
use itoa::Buffer;
use px_base::Call;

/// The most octets of a line: 20 for the calls, 4 for the kind, 14 for two sequence numbers, 5 for the P/F bit, 2 for
/// command or response, 25 for a length, and 1 for the line feed.
pub(crate) const LINE_ROOM: usize = 71;

/// Room for lines that are put together, in octets.
pub(crate) const LINES_ROOM: usize = 4096;

/// Lines, each ended by a line feed, and the one that is being added.
pub(crate) type Lines = ArrayString<LINES_ROOM>;

/// Adds the line of a frame, without its line feed.
pub(crate) fn push_frame(lines: &mut Lines, frame: &Frame<'_>)
    requires { array_string_len lines.old + LINE_ROOM ≤ LINES_ROOM }
    ensures line { lines.new.bytes ≡ lines.old.bytes ++ frame_line (value_of frame.now) }
    ensures len { array_string_len lines.new < array_string_len lines.old + LINE_ROOM }
{
    push_calls(lines, &frame.src, &frame.dest);
    lines.push_str(name_of_kind(&frame.kind));
    push_sequence(lines, &frame.kind);
    lines.push_str(poll_mark(frame.poll));
    lines.push_str(command_mark(frame.command));
    push_length(lines, &frame.kind);
}

/// The line of octets with this fault, without its line feed.
pub(crate) fn line_of_fault(fault: &FrameFault) -> &'static str
    ensures line { result.now ≡ fault_line fault.now }
    ensures short { length result.now < LINE_ROOM }
{
    match fault {
        FrameFault::Short { .. } => "fault short",
        FrameFault::BadAddress { .. } => "fault address",
        FrameFault::TooManyAddresses => "fault addresses",
        FrameFault::BadControl { .. } => "fault control",
        FrameFault::LongInfo { .. } => "fault info",
    }
}

/// Adds source and destination.
fn push_calls(lines: &mut Lines, src: &Call, dest: &Call)
    requires { array_string_len lines.old + 20 ≤ LINES_ROOM }
    ensures calls { lines.new.bytes ≡ lines.old.bytes ++ (call_text src.now ++ codes ">" ++ call_text dest.now ++ codes " ") }
    ensures len { array_string_len lines.new ≤ array_string_len lines.old + 20 }
{
    lines.push_str(src.text().as_str());
    lines.push_str(">");
    lines.push_str(dest.text().as_str());
    lines.push_str(" ");
}

/// The letters of a kind of frame.
fn name_of_kind(kind: &Kind<'_>) -> &'static str
    ensures name { result.now ≡ kind_name (kind_value kind.now).control }
    ensures short { length result.now ≤ 4 }
{
    match kind {
        Kind::I { .. } => "I",
        Kind::Rr { .. } => "RR",
        Kind::Rnr { .. } => "RNR",
        Kind::Rej { .. } => "REJ",
        Kind::Sabm => "SABM",
        Kind::Disc => "DISC",
        Kind::Dm => "DM",
        Kind::Ua => "UA",
        Kind::Frmr(_) => "FRMR",
        Kind::Ui { .. } => "UI",
    }
}

/// Adds the sequence numbers that the kind has.
fn push_sequence(lines: &mut Lines, kind: &Kind<'_>)
    requires { array_string_len lines.old + 14 ≤ LINES_ROOM }
    ensures numbers { lines.new.bytes ≡ lines.old.bytes ++ sequence_text (kind_value kind.now) }
    ensures len { array_string_len lines.new ≤ array_string_len lines.old + 14 }
{
    match kind {
        Kind::I { ns, nr, .. } => {
            push_sequence_number(lines, " ns=", *ns);
            push_sequence_number(lines, " nr=", *nr);
        }
        Kind::Rr { nr } | Kind::Rnr { nr } | Kind::Rej { nr } => {
            push_sequence_number(lines, " nr=", *nr);
        }
        _ => {}
    }
}

/// Adds a sequence number after its label of four octets.
fn push_sequence_number(lines: &mut Lines, label: &str, number: u8)
    requires label { length label.now ≡ 4 }
    requires room { array_string_len lines.old + 7 ≤ LINES_ROOM }
    ensures number { lines.new.bytes ≡ lines.old.bytes ++ (label.now ++ decimal number) }
    ensures len { array_string_len lines.new ≤ array_string_len lines.old + 7 }
{
    lines.push_str(label);
    lines.push_str(Buffer::new().format(number));
}

/// How a line shows the P/F bit.
fn poll_mark(poll: bool) -> &'static str
    ensures mark { result.now ≡ poll_text poll }
    ensures short { length result.now ≤ 5 }
{
    if poll { " pf=1" } else { " pf=0" }
}

/// How a line shows a command or a response.
fn command_mark(command: bool) -> &'static str
    ensures mark { result.now ≡ command_text command }
    ensures short { length result.now ≤ 2 }
{
    if command { " c" } else { " r" }
}

/// Adds how many octets of information there are, where the kind is I or UI.
fn push_length(lines: &mut Lines, kind: &Kind<'_>)
    requires { array_string_len lines.old + 25 ≤ LINES_ROOM }
    ensures length { lines.new.bytes ≡ lines.old.bytes ++ length_text (kind_value kind.now) }
    ensures len { array_string_len lines.new ≤ array_string_len lines.old + 25 }
{
    match kind {
        Kind::I { info, .. } | Kind::Ui { info, .. } => {
            lines.push_str(" len=");
            lines.push_str(Buffer::new().format(info.len()));
        }
        _ => {}
    }
}
