//! Steps of an air and an output over files.

use crate::air_calls::{poll, put};
use crate::texts::answer_text;
use anyhow::{Context, Result, bail};
use px_base::Out;
use real_outside::{StdAir, StdOut, SystemStream};
use row_words::{read_octets, text_of, written};
use std::alloc::Global;
use std::fs::{File, OpenOptions};
use std::io::{self, BufWriter};
use std::rt::Files;

/// An air over two files, which says to the second one through a buffer.
type FileAir = StdAir<SystemStream<File>, SystemStream<BufWriter<File>>>;

/// An air over files, once it is made.
#[derive(Drop)]
pub struct Streams {
    air: Option<FileAir>,
}

impl Streams {
    /// No air yet.
    pub fn new() -> Streams {
        Streams { air: None }
    }

    /// Makes the air, or a call of it, and gives what is printed for it. Takes memory.
    pub fn make<R: Files<File = File>>(
        &mut self,
        alloc: Global,
        rt: &R,
        words: &[&str],
    ) -> Result<String> {
        if let ["air", input, output] = words {
            let output = BufWriter::new(alloc, open_to_write(rt, output)?)?;
            self.air = Some(StdAir::new(File::open(rt, *input)?, output));
            return text_of(alloc, "ok");
        }
        let air = self.air.as_mut().context("no air yet")?;
        match words {
            ["poll"] => poll(alloc, air),
            ["put", octets] => put(alloc, air, octets),
            _ => bail!("no step of an air"),
        }
    }
}

/// Puts octets on an output to a file. Takes memory.
pub fn show<R: Files<File = File>>(
    alloc: Global,
    rt: &R,
    name: &str,
    octets: &str,
) -> Result<String> {
    let mut out = StdOut::new(open_to_write(rt, name)?);
    let octets = read_octets(alloc, written(octets))?;
    answer_text(alloc, out.put(octets.as_slice()))
}

/// Opens a file to append to it, and makes it if it isn't there.
fn open_to_write<R: Files<File = File>>(rt: &R, name: &str) -> io::Result<File> {
    let mut options = OpenOptions::new();
    options.append(true).create(true);
    options.open(rt, name)
}
