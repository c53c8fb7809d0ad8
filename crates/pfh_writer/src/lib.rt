//! The building and the stamping of PACSAT file headers (PFH 1990).
//!
//! [`HeaderBuilder`] makes a file from a header's items and a body. A server that keeps a file stamps it with the file's
//! number, the call of the station that uploaded it and the moment: [`stamp`] over a file in memory, [`Stamper`] over one
//! in pieces of any lengths. [`short_form`] is the header with which a directory lists the file.
#![tactic(auto)]

mod builder;
mod filling;
pub mod laws;
mod pieces;
mod refusal;
mod server;
mod short;
mod stamper;
mod stamping;
mod text;

pub use builder::HeaderBuilder;
pub use pieces::stamp_pieces;
pub use refusal::{FinishRefusal, PutRefusal};
pub use short::short_form;
pub use stamper::Stamper;
pub use stamping::{stamp, stamped_sum};
