//! What opens the null device.

ghost use Rattle.std.specs.Prelude.{◌≡◌, ◌∷◌, [], ℤ, List, Option, Result};
ghost use Rattle.px_base.specs.Outside.{Grows};
ghost use Rattle.real_outside.specs.declared.system_error.SystemError.{SystemError};

use crate::system_error::SystemError;

/// The null device, which gives no octet and takes any. How each opening ended may be observable: in the form in memory
/// it is, in the real one it isn't.
pub trait NullDevice {
    /// The open null device. Its descriptor is free again when it is dropped.
    type Opened: Drop;

    /// How each opening ended so far, if that can be observed.
    ghost answers: { Self → Option (List (Result Self.Opened SystemError)) };

    /// The descriptor of an open null device.
    ghost descriptor: { Self.Opened → ℤ };

    /// Opens it for reading and writing.
    fn open(&mut self) -> Result<Self::Opened, SystemError>
        ensures { Grows (answers self.old) (answers self.new) (result ∷ []) };

    /// The descriptor of one that was opened.
    fn descriptor(&self, opened: &Self::Opened) -> i32
        ensures { result ≡ descriptor opened.now };
}
