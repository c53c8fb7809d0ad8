//! Rows of the air of a modem, over connections on this machine. At first something listens, as a modem does, and an
//! air to it is made, which isn't connected yet. A row has steps:
//!
//! - `poll` and `put OCTETS`, calls of the air, as in `air_calls`. A poll that is `quiet` took at least 90 milliseconds
//!   and less than 10 seconds; else its time comes after it.
//! - `options`: whether the air's connection sends at once (`nodelay`), and how long a read of it waits; `none` if
//!   there is none.
//! - `accept`: the modem takes the connection. `say OCTETS`: it says octets; `hear COUNT`: it hears that many, which
//!   are printed; `shut`: it says nothing more; `hang`: it hangs up. `away`: nothing listens any more.
//! - `anew`: a new air to the same modem replaces the air; `to ADDRESS`: one to this address.

mod row;

use crate::modem::row::ModemSteps;
use crate::steps::make_steps;
use anyhow::Result;
use row_words::Player;
use std::alloc::Global;
use std::net::{Net, OpenListener, TcpListener, TcpStream};
use std::rt::Clock;

/// The address to listen at: any port of this machine.
const ANY_PORT: &str = "127.0.0.1:0";

/// Plays rows of modems, each on its own.
#[derive(Drop)]
pub struct ModemRows<'a, R> {
    rt: &'a R,
}

impl<'a, R> ModemRows<'a, R> {
    /// Rows over connections of this runtime.
    pub fn new(rt: &'a R) -> ModemRows<'a, R> {
        ModemRows { rt }
    }
}

impl<R: Net<Stream = TcpStream> + Clock> Player for ModemRows<'_, R> {
    fn play(&mut self, alloc: Global, row: &str) -> Result<String> {
        let listener = TcpListener::bind(self.rt, ANY_PORT)?;
        let address = listener.local_addr()?;
        let address = format!(in alloc; "{address}")?;
        let mut steps = ModemSteps::new(self.rt, listener, address.as_str());
        make_steps(alloc, &mut steps, row)
    }
}
