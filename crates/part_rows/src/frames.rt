//! Rows of frames, of the lines that show them, and of what a station hears.
//!
//! - `read OCTETS`: the frame of these octets: destination, source, how many repeaters, `command` or `response`, the
//!   P/F bit and its kind; then the octets that are written of it, `alike` if they are these, and `none` if it has
//!   repeaters. Or the octets' fault.
//! - `controls`: the control octets of no kind of frame, in hexadecimal.
//! - `lines FAILING | OCTETS`: what showing the parts of this KISS text answers, over an output whose calls of these
//!   numbers fail; how many octets are shown then; and the lines, alike ones that follow one another as one, with how
//!   many they are.
//! - `hears CALL OCTETS`: whether the station of this call hears a frame with the last octet of this KISS text.

mod hearing;
mod lines;
mod octets;

use anyhow::{Result, bail};
use row_words::{Player, kind_and_rest};
use std::alloc::Global;

/// Plays rows of frames, each on its own.
#[derive(Drop)]
pub struct FrameRows;

impl Player for FrameRows {
    fn play(&mut self, alloc: Global, row: &str) -> Result<String> {
        let (kind, rest) = kind_and_rest(row);
        match kind {
            "read" => octets::read(alloc, rest),
            "controls" => octets::controls(alloc),
            "lines" => lines::show(alloc, rest),
            "hears" => hearing::hears(alloc, rest),
            _ => bail!("no kind of row"),
        }
    }
}
