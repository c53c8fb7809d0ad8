//! The program's one top call, `run`, and what it is made of: the session or the service of a node, the commands of a
//! client, the texts of files, the making of a file, and a rehearsal.
#![tactic(auto)]

mod bench;
mod clients;
mod files;
pub mod laws;
mod making;
mod reading;
mod rehearsing;
mod serving;
mod startup;
mod status;
mod top_call;

pub use bench::{Bench, DiskMaker, FuseDisks, fresh_disks};
pub use command_words::Words;
pub use reading::ReadWords;
pub use startup::{Host, HostCall, NotHeld, WordsRefusal, start};
pub use status::{BadStore, RefusedBy, Status};
pub use top_call::{end_with, run};
pub use uploader::FileSum;
