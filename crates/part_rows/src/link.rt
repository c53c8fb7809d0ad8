//! Rows of a link, played through its public calls alone.
//!
//! A row of one link has what happens to it, separated by `;`. First it is made: `call K`, `answer K P`, or `idle K`, K
//! being the window and P the P bit of the SABM. Then come `c` or `r` and octets in hexadecimal, a command or a
//! response of the peer from its control octet on; `push N`, N octets that continue the stream; `tick N`, N ticks;
//! `hang_up`; `abandon`; `accept P`, the answer to a SABM with this P bit, or `accept P S`, to one of NOCALL-S, which
//! is the peer then, as NOCALL-9 is else; and `one`, the next frame. After each but the last all pending frames are
//! handed out, unless a `+` ends it. For each what was answered and the frames are printed, separated by `;`, ticks
//! with their number after `@`, and at the end the state, in Up with the free octets. Of a frame that isn't to the peer
//! all octets are printed, after `?`.
//!
//! A row `air SEED K LATE` has two links over an air that loses, repeats and displaces frames as the seed draws it.
//! A frame is delivered after a later one only while at most 7 - K + LATE later ones have been sent.

mod air;
mod draws;
mod frames;
mod row;
mod shown;
mod side;

use anyhow::Result;
use row_words::Player;
use std::alloc::Global;

/// Plays rows of links, each on its own.
#[derive(Drop)]
pub struct LinkRows;

impl Player for LinkRows {
    fn play(&mut self, alloc: Global, row: &str) -> Result<String> {
        match row.strip_prefix("air ") {
            Some(numbers) => air::play(alloc, numbers),
            None => row::play(alloc, row),
        }
    }
}
