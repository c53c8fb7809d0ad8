//! The law of a file that a server keeps, the contract of a function that does nothing.

ghost use Rattle.pfh_writer.specs.KeptFile.{KeptFileLaw};

/// A file that is kept has no fault, and the length, the body and the items of the one that came, but for the server's
/// items.
pub fn kept_file_law()
    ensures { KeptFileLaw }
{}
