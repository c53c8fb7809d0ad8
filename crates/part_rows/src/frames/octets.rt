//! Rows of a frame's octets.

ghost use Rattle.std.specs.Prelude.{IsTrue};
ghost use Rattle.ax25_frames.specs.Kinds.{CanWrite};
ghost use Rattle.ax25_frames.specs.Values.{kind_value};

use crate::parts::octets_text;
use anyhow::Result;
use arrayvec::ArrayVec;
use ax25_frames::{Frame, FrameFault, Kind, read_frame, write_frame};
use row_words::{read_octets, text_of};
use std::alloc::Global;

/// The addresses of a command from NOCALL to PACSAT, and an octet for its control octet.
const COMMAND: [u8; 15] = [
    0xA0, 0x82, 0x86, 0xA6, 0x82, 0xA8, 0xE0, 0x9C, 0x9E, 0x86, 0x82, 0x98, 0x98, 0x61, 0x00,
];

/// `read OCTETS`
pub fn read(alloc: Global, text: &str) -> Result<String> {
    let octets = read_octets(alloc, text)?;
    match read_frame(octets.as_slice()) {
        Ok(frame) => {
            let frame_text = frame_text(alloc, &frame)?;
            let written = written_text(alloc, &frame, octets.as_slice())?;
            text_of(alloc, format_args!("{frame_text}; {written}"))
        }
        Err(fault) => text_of(alloc, fault),
    }
}

/// A frame.
fn frame_text(alloc: Global, frame: &Frame<'_>) -> Result<String> {
    let Frame {
        dest,
        src,
        via,
        kind,
        poll,
        command,
    } = frame;
    let kind = kind_text(alloc, kind)?;
    let command = if *command { "command" } else { "response" };
    let poll = u8::from(*poll);
    text_of(
        alloc,
        format_args!("{dest} {src} {via} {command} {poll} {kind}"),
    )
}

/// A kind of frame with what it has.
fn kind_text(alloc: Global, kind: &Kind<'_>) -> Result<String> {
    match kind {
        Kind::I { ns, nr, pid, info } => {
            let info = octets_text(alloc, info)?;
            text_of(alloc, format_args!("I {ns} {nr} {pid:02x} {info}"))
        }
        Kind::Ui { pid, info } => {
            let info = octets_text(alloc, info)?;
            text_of(alloc, format_args!("UI {pid:02x} {info}"))
        }
        Kind::Frmr(info) => {
            let info = octets_text(alloc, info.as_slice())?;
            text_of(alloc, format_args!("FRMR {info}"))
        }
        Kind::Rr { nr } => text_of(alloc, format_args!("RR {nr}")),
        Kind::Rnr { nr } => text_of(alloc, format_args!("RNR {nr}")),
        Kind::Rej { nr } => text_of(alloc, format_args!("REJ {nr}")),
        Kind::Sabm => text_of(alloc, "SABM"),
        Kind::Disc => text_of(alloc, "DISC"),
        Kind::Dm => text_of(alloc, "DM"),
        Kind::Ua => text_of(alloc, "UA"),
    }
}

/// The octets that are written of a frame that has these.
fn written_text(alloc: Global, frame: &Frame<'_>, octets: &[u8]) -> Result<String> {
    let mut out = ArrayVec::new();
    if frame.via != 0 || !fits(&frame.kind) {
        return text_of(alloc, "none");
    }
    write_frame(frame, &mut out);
    if out.as_slice() == octets {
        return text_of(alloc, "alike");
    }
    octets_text(alloc, out.as_slice())
}

/// Whether the kind can be written.
fn fits(kind: &Kind<'_>) -> bool
    ensures { IsTrue result → CanWrite (kind_value kind.now) }
{
    match kind {
        Kind::I { ns, nr, info, .. } => *ns < 8 && *nr < 8 && info.len() <= 256,
        Kind::Rr { nr } | Kind::Rnr { nr } | Kind::Rej { nr } => *nr < 8,
        Kind::Ui { info, .. } => info.len() <= 256,
        _ => true,
    }
}

/// `controls`
pub fn controls(alloc: Global) -> Result<String> {
    let mut ill = Vec::new(alloc);
    for octet in 0..=255u8 {
        if is_ill(octet) {
            ill.push(octet)?;
        }
    }
    octets_text(alloc, ill.as_slice())
}

/// Whether a control octet is of no kind of frame.
fn is_ill(octet: u8) -> bool {
    let mut octets = COMMAND;
    octets[14] = octet;
    matches!(read_frame(octets.as_slice()), Err(FrameFault::BadControl { octet: found }) if found == octet)
}
