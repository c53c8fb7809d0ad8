//! The steps of a row of a modem.

use crate::air_calls::{poll, put};
use crate::steps::Steps;
use crate::texts::octets_text;
use anyhow::{Context, Result, bail};
use real_outside::TcpAir;
use row_words::{read_octets, text_of, written};
use std::alloc::Global;
use std::io::{Read, Write};
use std::net::{Net, OpenListener, Shutdown, TcpStream};
use std::rt::Clock;
use std::time::Instant;

/// How long a quiet poll takes at least, in milliseconds.
const LEAST_WAIT: u128 = 90;

/// What it takes less than.
const MOST_WAIT: u128 = 10_000;

/// What the steps of a row are made on.
#[derive(Drop)]
pub struct ModemSteps<'a, R: Net<Stream = TcpStream>> {
    rt: &'a R,
    listener: Option<R::Listener>,
    address: &'a str,
    modem: Option<TcpStream>,
    air: TcpAir<'a, R>,
}

impl<'a, R: Net<Stream = TcpStream> + Clock> ModemSteps<'a, R> {
    /// Before the first step, if this listens at this address.
    pub fn new(rt: &'a R, listener: R::Listener, address: &'a str) -> ModemSteps<'a, R> {
        ModemSteps {
            rt,
            listener: Some(listener),
            address,
            modem: None,
            air: TcpAir::new(rt, address),
        }
    }

    /// Polls the air, and measures how long that takes if it is quiet.
    fn poll(&mut self, alloc: Global) -> Result<String> {
        let start = Instant::now(self.rt)?;
        let polled = poll(alloc, &mut self.air)?;
        let waited = start.elapsed(self.rt)?.as_millis();
        if polled.as_str() == "quiet" && (waited < LEAST_WAIT || waited >= MOST_WAIT) {
            return text_of(alloc, format_args!("quiet after {waited} milliseconds"));
        }
        Ok(polled)
    }

    /// The options of the air's connection.
    fn options(&self, alloc: Global) -> Result<String> {
        let Some(stream) = self.air.connection().stream() else {
            return text_of(alloc, "none");
        };
        let nodelay = if stream.nodelay()? {
            "nodelay"
        } else {
            "delay"
        };
        let wait = stream
            .read_timeout()?
            .context("no limit of reads")?
            .as_millis();
        text_of(alloc, format_args!("{nodelay}, {wait} milliseconds"))
    }

    /// What the modem hears: this number of octets.
    fn hear(&mut self, alloc: Global, count: usize) -> Result<String> {
        let mut room = Vec::new(alloc);
        room.resize(count, 0)?;
        self.modem()?.read_exact(room.as_mut_slice())?;
        octets_text(alloc, room.as_slice())
    }

    /// Makes a step of the modem, or of what is used as the air.
    fn change(&mut self, alloc: Global, words: &[&'a str]) -> Result<()> {
        match words {
            ["accept"] => {
                let listener = self.listener.as_ref().context("nothing listens")?;
                self.modem = Some(listener.accept()?.0);
            }
            ["say", octets] => {
                let octets = read_octets(alloc, written(octets))?;
                self.modem()?.write_all(octets.as_slice())?;
            }
            ["shut"] => self.modem()?.shutdown(Shutdown::Write)?,
            ["hang"] => self.modem = None,
            ["away"] => self.listener = None,
            ["anew"] => self.air = TcpAir::new(self.rt, self.address),
            ["to", address] => self.air = TcpAir::new(self.rt, written(address)),
            _ => bail!("no step"),
        }
        Ok(())
    }

    /// The modem's connection.
    fn modem(&mut self) -> Result<&mut TcpStream> {
        self.modem.as_mut().context("the modem has no connection")
    }
}

impl<'a, R: Net<Stream = TcpStream> + Clock> Steps<'a> for ModemSteps<'a, R> {
    fn make(&mut self, alloc: Global, words: &[&'a str]) -> Result<String> {
        match words {
            ["poll"] => self.poll(alloc),
            ["put", octets] => put(alloc, &mut self.air, octets),
            ["options"] => self.options(alloc),
            ["hear", count] => self.hear(alloc, count.parse::<usize>()?),
            _ => {
                self.change(alloc, words)?;
                text_of(alloc, "ok")
            }
        }
    }
}
