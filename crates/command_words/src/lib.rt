//! The program's words, `DISK AIR COMMAND` and the words after it: the first three are read by place, and the others with
//! `clap`.
//!
//! `specs/Words.antt` is the command set, `specs/Grammar.antt` the grammar of the words after COMMAND, and
//! `specs/Numbers.antt` that of numbers; `specs/Making.antt` says what `pfh-make` asks for. What a header may be made
//! of is the rule of `header_tool`.
#![tactic(auto)]

mod air;
mod body;
mod client;
mod client_line;
mod command;
mod disk;
mod hex_text;
pub mod laws;
mod line;
mod make;
mod number;
mod reason;
mod rehearse;
mod request;
mod serve;
mod terms;
mod words;

pub use air::{AirWord, read_air};
pub use body::BodyRequest;
pub use client::{ClientRequest, FetchRequest, ListRequest, SendRequest};
pub use command::FileCommand;
pub use disk::DiskWord;
pub use make::{MakeRequest, MakingRequest};
pub use reason::refusal_text;
pub use rehearse::RehearseRequest;
pub use request::{BLOCKS, POLLS, Refusal, Request, SessionRequest, read};
pub use serve::{K, ServeRequest};
pub use terms::ClientTerms;
pub use words::Words;
