//! What a server shows of a caller's packets and of its replies.

use crate::lines::Lines;
use crate::meaning::meaning_of_code;
use crate::transfer::{Transfer, Work};
use ftl0_packets::{ErrorCode, Packet};
use px_base::{Call, FileNumber};
use std::fmt::Write;

/// Shows what a caller asks for. Number 0 is the next file of its selection.
pub(crate) fn show_asked(job: &mut Transfer, caller: Call, packet: &Packet<'_>, lines: &mut Lines) {
    match packet {
        Packet::UploadCmd { number, length } => {
            *job = Transfer::new(Work::Upload, FileNumber::new(*number), *length);
        }
        Packet::DownloadCmd { number, offset, .. } => {
            *job = Transfer::new(Work::Download, FileNumber::new(*number), 0);
            let _ = write!(lines.line, "{caller} download {number}");
            if *offset > 0 {
                let _ = write!(lines.line, ", from {offset}");
            }
            lines.end(false);
        }
        _ => {}
    }
}

/// Shows what a caller is replied, except for the code that ends each list.
pub(crate) fn show_said(job: &mut Transfer, caller: Call, packet: &Packet<'_>, lines: &mut Lines) {
    match packet {
        Packet::UlGoResp { number, offset } => {
            job.number = FileNumber::new(*number);
            let length = job.length;
            let _ = write!(
                lines.line,
                "{caller} upload {number}, {length} octets, from {offset}"
            );
        }
        Packet::UlAckResp => {
            let _ = write!(lines.line, "{caller} {} kept", job.number.get());
        }
        Packet::DlCompletedResp => {
            let _ = write!(lines.line, "{caller} download done");
        }
        Packet::DlErrorResp(code) if ErrorCode::SelectionEmpty.is(*code) => return,
        Packet::UlErrorResp(code) | Packet::UlNakResp(code) | Packet::DlErrorResp(code) => {
            let meaning = meaning_of_code(*code);
            let _ = write!(lines.line, "{caller} refused {code} ({meaning})");
        }
        _ => return,
    }
    lines.end(false);
}
