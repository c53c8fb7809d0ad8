//! Showing recorded KISS text.

ghost use Rattle.std.specs.Prelude.{◌≡◌, ℕ, ◌+◌, ◌<◌, ◌≤◌, List, [], ◌++◌, IsSome, OnOk, OnErr, MatchResult};
ghost use Rattle.arrayvec.specs.ArrayString.{array_string_len};
ghost use Rattle.px_base.specs.Outside.{Gains, GainsPrefix, HasCause};
ghost use Rattle.kiss.specs.declared.whole.Part.TheVariants as part;
ghost use Rattle.kiss.specs.KissText.{kiss_parts};
ghost use Rattle.kiss.specs.Hearing.{parts_ended};
ghost use Rattle.header_tool.specs.Frames.FramesText.{FramesText, LineOf, LinesOf};
ghost use Rattle.header_tool.specs.Frames.Gathering.{GathersPart, IsGathered};

use crate::frames::laws::one_text;
use crate::frames::line::{LINE_ROOM, LINES_ROOM, Lines, line_of_fault, push_frame};
use ax25_frames::read_frame;
use kiss::{KissFed, KissReader};
use px_base::{Out, OutDown};

/// Shows one line for each part of recorded KISS text, in order: for a frame its calls, kind, sequence numbers, P/F
/// bit, whether it is a command or a response, and the length of its information; for a frame's octets that no frame
/// has, their fault; and whether a part was dropped or passed over. Lines are put on the output together, each whole, with
/// its line feed: up to 4,096 octets in a put.
///
/// [`OutDown`] where lines could not be shown, and then nothing is put after them. Takes no memory.
pub fn show_frames<O: Out>(recorded: &[u8], out: &mut O) -> Result<(), OutDown>
    // The recorded octets have a text (just one, by `laws::one_text`). All of it is shown, or after a fault a front of it.
    ensures shown { (text : List ℕ) × FramesText recorded.now text
        × MatchResult result
        (λ _. Gains (O.shown out.old) (O.shown out.new) text)
        (λ _. GainsPrefix (O.shown out.old) (O.shown out.new) text) }

    // A fault comes only where the output's count of faults rose.
    ensures cause { HasCause (O.faults out.old) (O.faults out.new) result }

    // Where there is no part, the output isn't reached.
    ensures untouched { kiss_parts recorded.now ≡ [] → out.new ≡ out.old }
{
    // Recorded octets have a text, also those after a fault.
    one_text();
    let mut reader = KissReader::new();
    let mut lines = Lines::new();
    let mut count = 0;
    while count < recorded.len() {
        count += reader.pass(&recorded[count..]);
        if count < recorded.len() {
            let fed = reader.feed(recorded[count]);
            count += 1;
            gather(fed, &reader, &mut lines, out)?;
        }
    }
    put_last(&lines, out)
}

/// Adds the line of the part that the last octet ended, if it ended one, to the lines that wait. Most octets end none,
/// so this is looked at in the loop.
#[inline]
fn gather<O: Out>(
    fed: KissFed,
    reader: &KissReader,
    lines: &mut Lines,
    out: &mut O,
) -> Result<(), OutDown>
    requires { fed ≡ KissFed.Frame → IsSome reader.now.frame }
    ensures ok { OnOk result (GathersPart O.shown out.old out.new fed reader.now lines.old.bytes lines.new.bytes) }
    ensures err { OnErr result (GainsPrefix (O.shown out.old) (O.shown out.new) lines.old.bytes) }
    ensures cause { HasCause (O.faults out.old) (O.faults out.new) result }
    ensures untouched { parts_ended fed reader.now ≡ [] → (out.new ≡ out.old) × (lines.new.bytes ≡ lines.old.bytes) }
{
    if fed == KissFed::More {
        return Ok(());
    }
    gather_line(fed, reader, lines, out)
}

/// Adds the line of the part that the last octet ended to the lines that wait, which are put first where there may be
/// no room for it.
#[inline(never)]
fn gather_line<O: Out>(
    fed: KissFed,
    reader: &KissReader,
    lines: &mut Lines,
    out: &mut O,
) -> Result<(), OutDown>
    requires { fed ≡ KissFed.Frame → IsSome reader.now.frame }
    ensures ok { OnOk result (GathersPart O.shown out.old out.new fed reader.now lines.old.bytes lines.new.bytes) }
    ensures err { OnErr result (GainsPrefix (O.shown out.old) (O.shown out.new) lines.old.bytes) }
    ensures cause { HasCause (O.faults out.old) (O.faults out.new) result }
{
    make_room(lines, out)?;
    push_line(lines, fed, reader);
    Ok(())
}

/// Puts the lines that wait, where there may be no room for another.
fn make_room<O: Out>(lines: &mut Lines, out: &mut O) -> Result<(), OutDown>
    ensures ok { OnOk result (IsGathered (O.shown out.old) (O.shown out.new) lines.new.bytes lines.old.bytes) }
    ensures err { OnErr result (GainsPrefix (O.shown out.old) (O.shown out.new) lines.old.bytes) }
    ensures cause { HasCause (O.faults out.old) (O.faults out.new) result }
    ensures room { OnOk result (array_string_len lines.new + LINE_ROOM ≤ LINES_ROOM) }
{
    if lines.remaining_capacity() < LINE_ROOM {
        out.put(lines.as_str().as_bytes())?;
        lines.clear();
    }
    Ok(())
}

/// Puts the lines that wait when all octets were heard, if there are any.
fn put_last<O: Out>(lines: &Lines, out: &mut O) -> Result<(), OutDown>
    ensures ok { OnOk result (Gains (O.shown out.old) (O.shown out.new) lines.now.bytes) }
    ensures err { OnErr result (GainsPrefix (O.shown out.old) (O.shown out.new) lines.now.bytes) }
    ensures cause { HasCause (O.faults out.old) (O.faults out.new) result }
    ensures untouched { lines.now.bytes ≡ [] → out.new ≡ out.old }
{
    if lines.is_empty() {
        return Ok(());
    }
    out.put(lines.as_str().as_bytes())
}

/// Adds the line, with its line feed, of the part that the last octet ended, if it ended one.
fn push_line(lines: &mut Lines, fed: KissFed, reader: &KissReader)
    requires frame { fed ≡ KissFed.Frame → IsSome reader.now.frame }
    requires room { array_string_len lines.old + LINE_ROOM ≤ LINES_ROOM }
    ensures { (line : List ℕ) × LinesOf (parts_ended fed reader.now) line × (lines.new.bytes ≡ lines.old.bytes ++ line) }
{
    match fed {
        KissFed::More => return,
        KissFed::Frame => push_octets(lines, reader.frame()),
        KissFed::Dropped => lines.push_str("dropped"),
        KissFed::Passed => lines.push_str("passed"),
    }
    lines.push_str("\n");
}

/// Adds the line of a frame's octets, without its line feed.
fn push_octets(lines: &mut Lines, octets: &[u8])
    requires { array_string_len lines.old + LINE_ROOM ≤ LINES_ROOM }
    ensures line { (line : List ℕ) × LineOf (part.Frame octets.now) line × (lines.new.bytes ≡ lines.old.bytes ++ line) }
    ensures len { array_string_len lines.new < array_string_len lines.old + LINE_ROOM }
{
    match read_frame(octets) {
        Ok(frame) => push_frame(lines, &frame),
        Err(fault) => lines.push_str(line_of_fault(&fault)),
    }
}
