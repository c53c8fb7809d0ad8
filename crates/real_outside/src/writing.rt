//! How an output writes octets to its stream, write by write.

ghost use Rattle.std.specs.Prelude.{◌≡◌, ◌≤◌, ℕ, [], length, take, IfOk, OnOk, is_ok};
ghost use Rattle.std.specs.Io.KnownBytes.{Appends, Keeps};
ghost use Rattle.std.specs.Result.{result_ok};
ghost use Rattle.px_base.specs.CallRecords.{Asks};
ghost use Rattle.real_outside.specs.StreamCalls.{Writes, WritesAll, WritesSome, is_interrupted as is_interrupted_kind, octets_taken};

use crate::stream::OutputStream;
use crate::system_error::SystemError;
use px_base::OutDown;
use std::io::ErrorKind;

/// Writes octets to the stream, write by write, and flushes it after them. A write that a signal interrupted is made
/// again; one that takes none, or fails otherwise, is a fault, and so is the end of 2^64 - 1 writes.
pub(crate) fn write_all<W: OutputStream>(stream: &mut W, bytes: &[u8]) -> Result<(), OutDown>
    ensures contents { OnOk result (Appends (W.contents stream.old) (W.contents stream.new) bytes.now) }
    ensures asks { Asks (W.calls stream.old) (W.calls stream.new) (WritesAll bytes.now (is_ok result)) }
{
    let mut written = 0;
    let mut made: u64 = 0;
    while written < bytes.len() {
        if made == u64::MAX {
            return Err(OutDown);
        }
        written += write_some(stream, &bytes[written..])?;
        made += 1;
    }
    flush(stream)
}

/// Writes these octets once, and says how many were taken: none if a signal came first.
fn write_some<W: OutputStream>(stream: &mut W, bytes: &[u8]) -> Result<usize, OutDown>
    ensures count { IfOk result (λ count. count ≤ length bytes.now) }
    ensures contents { IfOk result
        (λ count. Appends (W.contents stream.old) (W.contents stream.new) (take count bytes.now)) }
    ensures call { Asks (W.calls stream.old) (W.calls stream.new) (WritesSome bytes.now (result_ok result)) }
{
    taken_answer(stream.write(bytes))
}

/// How many octets were taken, if writing answered so: none if a signal came first, and else none is a fault.
fn taken_answer(written: Result<usize, SystemError>) -> Result<usize, OutDown>
    ensures { result_ok result ≡ octets_taken written }
{
    match written {
        Ok(0) => Err(OutDown),
        Ok(count) => Ok(count),
        Err(refused) if is_interrupted(refused.kind) => Ok(0),
        Err(_) => Err(OutDown),
    }
}

/// Whether a call failed for this reason because a signal came first.
fn is_interrupted(kind: ErrorKind) -> bool
    ensures { result ≡ is_interrupted_kind kind }
{
    matches!(kind, ErrorKind::Interrupted)
}

/// Flushes the stream.
fn flush<W: OutputStream>(stream: &mut W) -> Result<(), OutDown>
    ensures contents { OnOk result (Keeps (W.contents stream.old) (W.contents stream.new)) }
    ensures asks { (made : ℕ) → Asks (W.calls stream.old) (W.calls stream.new) (Writes made [] (is_ok result)) }
{
    stream.flush().map_err(|_| OutDown)
}
