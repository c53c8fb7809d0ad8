//! The program `pacsat`: the system as it is, on which the start runs.
#![tactic(auto)]

mod cause;
mod help;
mod system;

use pacsat_cli::start;
use std::process::ExitCode;
use system::System;

fn main(rt: HostRuntime) -> ExitCode {
    match system::told(&rt) {
        Some(status) => ExitCode::from(status.number()),
        None => ExitCode::from(start(rt.alloc(), &mut System::new(&rt))),
    }
}
