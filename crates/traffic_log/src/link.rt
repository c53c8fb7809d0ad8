//! A station's link, as far as its frames show it.

use crate::client_lines::{show_got, show_sent};
use crate::lines::Lines;
use crate::packet_stream::PacketStream;
use crate::server_lines::{show_asked, show_said};
use crate::transfer::{Transfer, Work, seconds_between};
use ax25_frames::{Frame, Kind};
use ftl0_packets::Packet;
use px_base::{Call, FileNumber, Moment};
use std::fmt::Write;

/// After how many commands with P = 1 that nothing answered a link that is up goes down (AX.25 2.0, N2), and how many
/// seconds after the last one (T1). SABM and DISC are said once more.
const MOST_TRIES: u32 = 10;

const TRY_SECONDS: u32 = 10;

/// How many sequence numbers I frames have (AX.25 2.0, 2.4.4).
const NUMBERS: usize = 8;

/// Which command waits for its UA.
#[derive(Clone, Copy, PartialEq, Eq)]
enum Wish {
    /// None.
    Nothing,
    /// The station's SABM.
    TheirConnect,
    /// The station's DISC.
    TheirDisconnect,
    /// This end's SABM.
    OurConnect,
    /// This end's DISC.
    OurDisconnect,
}

/// The link with a station.
#[derive(Drop)]
pub(crate) struct Link {
    /// The station, or this end's own before there was one.
    peer: Call,
    /// Whether this end is a client's.
    client: bool,
    up: bool,
    wish: Wish,
    /// How many commands with P = 1 nothing answered, and when the last one was said.
    tries: u32,
    tried: Moment,
    heard: PacketStream,
    said: PacketStream,
    transfer: Transfer,
    /// How many octets of a file the I frames have that this end said, by N(S), as long as they aren't acknowledged;
    /// and the N(S) of the first one that isn't.
    sent: [usize; NUMBERS],
    unacknowledged: u8,
}

impl Link {
    /// A link of this end, a client's or a server's, with no station yet.
    pub(crate) fn new(me: Call, client: bool) -> Link {
        Link {
            peer: me,
            client,
            up: false,
            wish: Wish::Nothing,
            tries: 0,
            tried: Moment::new(0),
            heard: PacketStream::new(),
            said: PacketStream::new(),
            transfer: Transfer::new(Work::Nothing, FileNumber::new(0), 0),
            sent: [0; NUMBERS],
            unacknowledged: 0,
        }
    }

    /// It is the link with this station from now on, before its first frame.
    pub(crate) fn take(&mut self, peer: Call) {
        self.peer = peer;
        self.tries = 0;
    }

    /// Whether it is this station's.
    pub(crate) fn is_of(&self, peer: Call) -> bool {
        self.peer == peer
    }

    /// Whether nothing is under way.
    pub(crate) fn is_free(&self) -> bool {
        !self.up && self.wish == Wish::Nothing
    }

    /// Shows what a frame of the station says, at this moment.
    pub(crate) fn hear(&mut self, kind: &Kind<'_>, moment: Moment, lines: &mut Lines) {
        if let Some(nr) = acknowledged_by(kind) {
            self.acknowledge(nr, moment, lines);
        }
        match kind {
            Kind::Sabm => self.wish = Wish::TheirConnect,
            Kind::Disc if self.up => self.wish = Wish::TheirDisconnect,
            Kind::Ua => self.answer(Wish::OurConnect, Wish::OurDisconnect, "ended here", lines),
            Kind::Dm => self.refuse("DM", lines),
            Kind::Frmr(_) => self.refuse("FRMR", lines),
            Kind::I { ns, info, .. } => self.pass(true, *ns, info, moment, lines),
            _ => {}
        }
        self.tries = 0;
    }

    /// Shows what a frame of this end says, at this moment.
    pub(crate) fn say(&mut self, frame: &Frame<'_>, moment: Moment, lines: &mut Lines) {
        if frame.command && frame.poll {
            self.tries = self.tries.saturating_add(1);
            self.tried = moment;
        }
        match &frame.kind {
            Kind::Sabm => self.call(lines),
            Kind::Disc => self.wish = Wish::OurDisconnect,
            Kind::Ua => self.answer(
                Wish::TheirConnect,
                Wish::TheirDisconnect,
                "disconnected",
                lines,
            ),
            Kind::Dm => self.refuse("refused here", lines),
            Kind::Frmr(_) => self.refuse("bad N(R)", lines),
            Kind::I { ns, info, .. } => self.pass(false, *ns, info, moment, lines),
            _ => {}
        }
    }

    /// Shows that the link is down, if nothing answered for long enough at this moment.
    pub(crate) fn wait(&mut self, moment: Moment, lines: &mut Lines) {
        let most = match self.wish {
            Wish::OurConnect | Wish::OurDisconnect => MOST_TRIES,
            _ => MOST_TRIES - 1,
        };
        if self.tries > most && seconds_between(self.tried, moment) > TRY_SECONDS {
            self.tries = 0;
            self.refuse("no answer", lines);
        }
    }

    /// Shows that the station is called.
    fn call(&mut self, lines: &mut Lines) {
        self.up = false;
        self.wish = Wish::OurConnect;
        let _ = write!(lines.line, "calling {} (try {})", self.peer, self.tries);
        lines.end(false);
    }

    /// Shows what a UA brings, to the first of these commands or to the second.
    fn answer(&mut self, connect: Wish, disconnect: Wish, why: &str, lines: &mut Lines) {
        if self.wish == connect {
            self.connect(lines);
        } else if self.wish == disconnect {
            self.refuse(why, lines);
        }
    }

    /// Shows that the link is up: all begins again.
    fn connect(&mut self, lines: &mut Lines) {
        self.up = true;
        self.wish = Wish::Nothing;
        self.heard = PacketStream::new();
        self.said = PacketStream::new();
        self.transfer = Transfer::new(Work::Nothing, FileNumber::new(0), 0);
        self.sent = [0; NUMBERS];
        self.unacknowledged = 0;
        if !self.client {
            let _ = write!(lines.line, "{} ", self.peer);
        }
        let _ = write!(lines.line, "connected");
        lines.end(false);
    }

    /// Shows that the link is down, or that none was made, and why.
    fn refuse(&mut self, why: &str, lines: &mut Lines) {
        if self.is_free() {
            return;
        }
        self.up = false;
        self.wish = Wish::Nothing;
        let _ = write!(lines.line, "{} gone ({why})", self.peer);
        lines.end(false);
    }

    /// Shows how far a transfer is, if the I frames before this N(R) are acknowledged (AX.25 2.0, 2.4.4).
    fn acknowledge(&mut self, nr: u8, moment: Moment, lines: &mut Lines) {
        let mut octets = 0_usize;
        for _ in 0..NUMBERS {
            if self.unacknowledged == nr {
                break;
            }
            let place = usize::from(self.unacknowledged % 8);
            octets = octets.saturating_add(self.sent[place]);
            self.sent[place] = 0;
            self.unacknowledged = (self.unacknowledged % 8 + 1) % 8;
        }
        if octets > 0 {
            self.transfer.pass(octets, moment, lines);
        }
    }

    /// Shows the packets that end in the octets of an I frame, which was heard or said.
    fn pass(&mut self, heard: bool, ns: u8, octets: &[u8], moment: Moment, lines: &mut Lines) {
        let (up, client, peer) = (self.up, self.client, self.peer);
        let mut transfer = self.transfer;
        let mut sent = 0_usize;
        let stream = if heard {
            &mut self.heard
        } else {
            &mut self.said
        };
        if !up || !stream.takes(ns) {
            return;
        }
        for &octet in octets {
            let Some(packet) = stream.feed(octet) else {
                continue;
            };
            match (client, heard) {
                (true, true) => show_got(&mut transfer, &packet, moment, lines),
                (true, false) => {
                    show_sent(&mut transfer, &packet, moment, lines);
                    sent = sent.saturating_add(octets_of_file(&packet));
                }
                (false, true) => show_asked(&mut transfer, peer, &packet, lines),
                (false, false) => show_said(&mut transfer, peer, &packet, lines),
            }
        }
        self.transfer = transfer;
        if !heard {
            self.sent[usize::from(ns % 8)] = sent;
        }
    }
}

/// The N(R) of a frame, if it has one.
fn acknowledged_by(kind: &Kind<'_>) -> Option<u8> {
    match kind {
        Kind::I { nr, .. } | Kind::Rr { nr } | Kind::Rnr { nr } | Kind::Rej { nr } => Some(*nr),
        _ => None,
    }
}

/// How many octets of a file a packet has.
fn octets_of_file(packet: &Packet<'_>) -> usize {
    match packet {
        Packet::DataPart(octets) => octets.len(),
        _ => 0,
    }
}
