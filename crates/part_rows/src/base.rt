//! Rows of what all parts use: calls, numbers, octets of files, and the outside in memory.
//!
//! - `call TEXT` and `octets OCTETS`: the call that this text, or these octets, write: its text, its characters in
//!   hexadecimal, its SSID and its octets; or why it is none.
//! - `le16 AT OCTETS` and `le32 AT OCTETS`: the number at a place, in hexadecimal.
//! - `file OCTETS..`: whether a file without octets is empty; how many it has with these, and a copy of them.
//! - `air FAILING | TURNS | CALLS`: each call of an air is `poll`, or octets to be said. What it answers is printed,
//!   with the first two octets of the room after a poll; then what was said, how many answers were heard, and whether
//!   it was out of memory.
//! - `out FAILING | OCTETS..`: the same of an output.
//! - `shelf FAILING | CALLS`: the same of a shelf. Its calls are separated by `;`: `keep NAME OCTETS`,
//!   `load NAME MOST`, and `content NAME`.
//! - `clock MOMENTS | COUNT`: what this number of calls of a clock give, and how many it counts.
//! - `memory`: the texts that say that there is no memory.

mod outside;
mod values;

use anyhow::{Result, bail};
use row_words::{Player, kind_and_rest};
use std::alloc::Global;

/// Plays rows of `px_base`, each on its own.
#[derive(Drop)]
pub struct BaseRows;

impl Player for BaseRows {
    fn play(&mut self, alloc: Global, row: &str) -> Result<String> {
        let (kind, rest) = kind_and_rest(row);
        match kind {
            "air" => outside::air(alloc, rest),
            "out" => outside::output(alloc, rest),
            "shelf" => outside::shelf(alloc, rest),
            "clock" => outside::clock(alloc, rest),
            "memory" => values::memory(alloc),
            "call" => values::call(alloc, rest),
            "octets" => values::octets(alloc, rest),
            "le16" => values::two(alloc, rest),
            "le32" => values::four(alloc, rest),
            "file" => values::file(alloc, rest),
            _ => bail!("no kind of row"),
        }
    }
}
