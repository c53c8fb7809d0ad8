//! Rows of a client and a server over a small air in memory, each by its own code.
//!
//! A row `SEED K BODY BREAKS` has a fresh client's file of BODY body octets, of which octet i is 7 i + 13 SEED modulo
//! 256. The file is uploaded: BREAKS times the client is broken off in the middle, recovered from its disk, and goes
//! on. Then the list of all files is asked, and the file is downloaded. List and octets are compared with what the
//! server's store holds, and the body with the one that was sent. K is the window of both stations, 1 to 7. What came
//! of it is printed.
//!
//! The server keeps its disk from row to row; the line `server` is one with an empty disk from then on.
//!
//! The air loses frames, delivers some twice, and displaces some by one place, as the seed draws it. It keeps the
//! premises of the link's law: SABM is delivered once at most, and an I or S frame comes after a later one only where
//! at most 7 - K frames were sent after it. Where no frame is on the air both stations count a tick.
//!
//! A row in which something is wrong prints what that is.

mod client_side;
mod compare;
mod exchange;
mod frames;
mod lanes;
mod row;
mod server_side;

use anyhow::Result;
use disk_model::MemoryDisk;
use row::Row;
use row_words::{Player, text_of};
use std::alloc::Global;

/// Plays rows, each over the disk that the server has by then.
#[derive(Drop)]
pub struct AirRows {
    disk: Option<MemoryDisk>,
}

impl AirRows {
    /// Before the first row, with a server whose disk is empty.
    pub fn new() -> AirRows {
        AirRows { disk: None }
    }
}

impl Player for AirRows {
    fn play(&mut self, alloc: Global, row: &str) -> Result<String> {
        if row == "server" {
            self.disk = None;
            return text_of(alloc, row);
        }
        match play(alloc, row, &mut self.disk) {
            Ok(shown) => Ok(shown),
            Err(wrong) => text_of(alloc, format_args!("{row}: {wrong}")),
        }
    }
}

/// Plays a row over the server's disk.
fn play(alloc: Global, row: &str, disk: &mut Option<MemoryDisk>) -> Result<String> {
    Row::read(row)?.play(alloc, disk)
}
