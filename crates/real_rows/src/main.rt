//! Plays rows of what is real, family by family: files as disks, the shelf over a folder, streams, a connection on this
//! machine, the clock: a test, in data. Each line of standard input names a family. Its rows are the lines of the file
//! of that name with `.rows` appended, in `data`, which is in the folder in which the program runs; in that folder it
//! makes its files, and each row removes those that it made. For each family a heading is printed, and then for each
//! row what its player gives; an empty line and one that begins with `#` are printed as they are.
//!
//! A row that has steps has them separated by `;`, and what they answer is printed separated by `; `. A step is words,
//! of which `''` is one without octets. Octets are written as in the other programs of rows; what is printed of them is
//! hexadecimal, `''` if there are none, and one octet and a count after `*` if there are more than 32, all alike.
//!
//! A further family is a module with a struct that is a `Player`, and says above what its rows are; a line in `play`;
//! the file of its rows in `data`; its name in `stdin`; and what is expected, worked out by hand, at its place in
//! `stdout`.
#![tactic(auto)]

mod air_calls;
mod device;
mod disk_calls;
mod files;
mod modem;
mod steps;
mod streams;
mod system;
mod texts;

use anyhow::{Result, bail};
use row_words::play_family;
use std::fs::File;
use std::io::{Input, Print};
use std::net::{Net, TcpStream};
use std::rt::{Clock, Files};

fn main(rt: HostRuntime) -> Result<()> {
    for family in rt.lines(rt.alloc()) {
        play(&rt, family?.as_str())?;
    }
    Ok(())
}

/// Plays the family of this name.
fn play<R>(rt: &R, family: &str) -> Result<()>
where
    R: AllocGlobal + Files<File = File> + Print + Net<Stream = TcpStream> + Clock,
{
    match family {
        "files" => play_family(rt, family, &mut files::FileRows::new(rt)),
        "device" => play_family(rt, family, &mut device::DeviceRows),
        "streams" => play_family(rt, family, &mut streams::StreamRows),
        "modem" => play_family(rt, family, &mut modem::ModemRows::new(rt)),
        "system" => play_family(rt, family, &mut system::SystemRows::new(rt)),
        _ => bail!("no family {family}"),
    }
}
