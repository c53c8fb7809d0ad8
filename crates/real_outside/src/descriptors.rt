//! The descriptors of the standard streams, which nothing else is to get.

ghost use Rattle.std.specs.Prelude.{◌≡◌, ◌∷◌, [], ◌↔◌, true, IsTrue, Result};
ghost use Rattle.px_base.specs.Outside.{Grows};
ghost use Rattle.px_base.specs.CallRecords.{Asks};
ghost use Rattle.real_outside.specs.Descriptors.{HoldsLowest, HoldsOpened, IsHeld, IsStandard, KeepsHeld};
ghost use Rattle.real_outside.specs.declared.system_error.SystemError.{SystemError};

mod memory_null;
mod null_device;
mod null_file;

use crate::system_error::SystemError;
pub use memory_null::MemoryNull;
pub use null_device::NullDevice;
pub use null_file::NullFile;
use std::io::ErrorKind;

/// Null devices that stand in for those standard streams that were closed when the program started. While it lives, no
/// other file has one of their descriptors.
#[derive(Drop)]
pub struct StandardStreams<H> {
    input: Option<H>,
    output: Option<H>,
    error: Option<H>,
}

/// Opens the null device until its descriptor is above 2, and holds those that are not; at most 3 are. So no file that
/// is opened later gets the descriptor of a standard stream. It fails if an opening does, and if a fourth one has such
/// a descriptor still. Takes no memory.
pub fn hold_standard_streams<N: NullDevice>(
    null: &mut N,
) -> Result<StandardStreams<N::Opened>, SystemError>
    ensures { Asks (N.answers null.old) (N.answers null.new) (HoldsLowest N.descriptor result) }
{
    let mut streams = StandardStreams {
        input: None,
        output: None,
        error: None,
    };
    for _ in 0..4_u8 {
        if !hold_next(null, &mut streams)? {
            return Ok(streams);
        }
    }
    Err(SystemError::from(ErrorKind::Other))
}

/// Opens the null device once more, and says whether its descriptor is one of a standard stream; then it is held.
fn hold_next<N: NullDevice>(
    null: &mut N,
    streams: &mut StandardStreams<N::Opened>,
) -> Result<bool, SystemError>
    ensures { (answer : Result N.Opened SystemError)
        × Grows (N.answers null.old) (N.answers null.new) (answer ∷ [])
        × HoldsOpened N.descriptor streams.old streams.new answer result }
{
    let opened = null.open()?;
    Ok(hold(null, streams, opened))
}

/// Holds this null device if its descriptor is one of a standard stream, and says whether it is.
fn hold<N: NullDevice>(
    null: &N,
    streams: &mut StandardStreams<N::Opened>,
    opened: N::Opened,
) -> bool
    ensures standard { IsTrue result ↔ IsStandard (N.descriptor opened) }
    ensures held { IsTrue result → IsHeld N.descriptor streams.new (N.descriptor opened) }
    ensures kept { KeepsHeld N.descriptor streams.old streams.new }
{
    match null.descriptor(&opened) {
        0 => streams.input = Some(opened),
        1 => streams.output = Some(opened),
        2 => streams.error = Some(opened),
        _ => return false,
    }
    true
}
