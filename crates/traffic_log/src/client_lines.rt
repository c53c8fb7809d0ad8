//! What a client shows of its packets and of the server's replies.

use crate::lines::Lines;
use crate::meaning::meaning_of_code;
use crate::transfer::{Transfer, Work};
use ftl0_packets::{ErrorCode, Packet};
use px_base::{FileNumber, Moment};
use std::fmt::Write;

/// Shows what the client asks for. How far an upload is can be seen from the server's acknowledgements.
pub(crate) fn show_sent(
    job: &mut Transfer,
    packet: &Packet<'_>,
    moment: Moment,
    lines: &mut Lines,
) {
    match packet {
        Packet::UploadCmd { number, length } => {
            *job = Transfer::new(Work::Upload, FileNumber::new(*number), *length);
        }
        Packet::SelectCmd(_) => *job = Transfer::new(Work::List, FileNumber::new(0), 0),
        Packet::DownloadCmd { number, offset, .. } => {
            *job = Transfer::new(Work::Download, FileNumber::new(*number), 0);
            job.begin(FileNumber::new(*number), *offset, moment, lines);
        }
        _ => {}
    }
}

/// Shows what the server replies and sends. An outcome is shown as soon as it is there; the link ends after it.
pub(crate) fn show_got(job: &mut Transfer, packet: &Packet<'_>, moment: Moment, lines: &mut Lines) {
    let (number, work) = (job.number.get(), job.work);
    match packet {
        Packet::UlGoResp { number, offset } => return job.begin(
            FileNumber::new(*number),
            *offset,
            moment,
            lines,
        ),
        Packet::DataPart(octets) if work == Work::Download => {
            return job.pass(octets.len(), moment, lines);
        }
        Packet::SelectResp(count) => {
            let _ = write!(lines.line, "{count} selected");
        }
        reply if is_acknowledgement(reply) => {
            let _ = write!(lines.line, "acknowledged {number}, ending the link");
        }
        Packet::DlCompletedResp => {
            let _ = write!(lines.line, "fetched {number}, ending the link");
        }
        Packet::DlErrorResp(code) if work == Work::List && says_empty(*code) => {
            let _ = write!(lines.line, "listed, ending the link");
        }
        Packet::UlErrorResp(code) | Packet::UlNakResp(code) | Packet::DlErrorResp(code) => {
            let meaning = meaning_of_code(*code);
            let _ = write!(lines.line, "refused {code} ({meaning}), ending the link");
        }
        _ => return,
    }
    lines.end(false);
}

/// Whether the server says that it keeps the file: now, or since an earlier link.
fn is_acknowledgement(reply: &Packet<'_>) -> bool {
    match reply {
        Packet::UlAckResp => true,
        Packet::UlErrorResp(code) => ErrorCode::FileComplete.is(*code),
        _ => false,
    }
}

/// Whether the code ends a list.
fn says_empty(code: u8) -> bool {
    ErrorCode::SelectionEmpty.is(code) || ErrorCode::AlsoSelectionEmpty.is(code)
}
