//! The session of one caller of the server (FTL0 1990): its whole table, over a store of files on a disk and the lists
//! of all callers ([`lists`]). Each packet has a row: one of uploading ([`uploads`]), one of downloading
//! ([`downloads`]), or error 1.
//!
//! [`Session::take`] takes a packet, and [`Session::fill`] gives what is to be sent next. What a packet's row does to
//! the store is on the disk before its replies are given.
#![tactic(auto)]

pub mod downloads;
pub mod laws;
pub mod lists;
mod session;
pub mod uploads;

pub use crate::uploads::Replies;
pub use session::Session;
