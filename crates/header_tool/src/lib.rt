//! The texts of files: a header's, and recorded frames'. A file is made of a body and of what its PACSAT file header says
//! (PFH 1990), a file's header is shown or checked, and the frames of recorded KISS text are listed ([`frames`]).
//!
//! [`make`] makes the file, [`show`] gives the text of each item and of the check, [`check_line`] that of the check
//! alone; [`body_of`] lends the body of a file.
#![tactic(auto)]

mod body;
pub mod frames;
pub mod laws;
mod line;
mod making;
mod refusal;
mod shown;
mod spec;

pub use body::body_of;
pub use making::make;
pub use pfh_reader::HeaderFault;
pub use refusal::MakeRefusal;
pub use shown::{Shown, check_line, show};
pub use spec::MakeSpec;
