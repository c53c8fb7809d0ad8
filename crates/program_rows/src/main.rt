//! Plays rows of whole runs of `pacsat`, and of its two stations over an air, family by family: a test, in data. Each
//! line of standard input names a family. Its rows are the lines of the file of that name with `.rows` behind it, in
//! `data`, which lies where the program runs. For each family a heading is printed, and then for each row what its
//! player gives; an empty line and one that begins with `#` are printed as they are.
//!
//! A family more is a module with a struct that is a `Player`, and says above what its rows are; a line in `play`; the
//! file of its rows in `data`; its name in `stdin`; and what is wanted, worked out by hand, at its place in `stdout`.
#![tactic(auto)]

mod air;
mod client;
mod command;
mod memory_host;
mod memory_outside;
mod rehearsal;
mod run;
mod startup;
mod texts;

use anyhow::{Result, bail};
use row_words::play_family;
use std::io::{Input, Print};
use std::rt::Files;

fn main(rt: HostRuntime) -> Result<()> {
    for family in rt.lines(rt.alloc()) {
        play(&rt, family?.as_str())?;
    }
    Ok(())
}

/// Plays the family of this name.
fn play<R: AllocGlobal + Files + Print>(rt: &R, family: &str) -> Result<()> {
    match family {
        "run" | "halves" => play_family(rt, family, &mut run::RunRows::new()),
        "client" => play_family(rt, family, &mut client::ClientRows::new()),
        "command" => play_family(rt, family, &mut command::CommandRows),
        "air" => play_family(rt, family, &mut air::AirRows::new()),
        "rehearsal" => play_family(rt, family, &mut rehearsal::RehearsalRows),
        "startup" => play_family(rt, family, &mut startup::StartRows),
        "texts" => play_family(rt, family, &mut texts::TextRows),
        _ => bail!("no family {family}"),
    }
}
