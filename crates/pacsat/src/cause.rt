//! The cause of an end, told on standard error beside the status.

use crate::help::tell_usage;
use command_words::{ClientRequest, MakingRequest, RehearseRequest, Request};
use pacsat_cli::{BadStore, ReadWords, RefusedBy, Status};
use real_outside::SystemError;
use std::io::{self, ErrorKind};
use traffic_log::meaning_of_code;

/// How a run ended, and what the system refused last to each part of it.
#[derive(Clone, Copy)]
pub(crate) struct Ended {
    /// The status.
    pub status: Status,
    /// What it refused to the disk.
    pub disk: Option<SystemError>,
    /// What it refused to the shelf.
    pub shelf: Option<SystemError>,
}

impl Ended {
    /// Tells the cause of the status, where there is more to say than its line: of the disk at this path, and of the
    /// air at this host and port, to which the system refused this.
    pub(crate) fn tell(
        &self,
        rt: &HostRuntime,
        words: &ReadWords<'_>,
        disk: &str,
        at: &str,
        air: Option<SystemError>,
    ) {
        match self.status {
            Status::Usage => tell_usage(rt, words.words()),
            Status::Refused(by) => tell_refused(rt, by),
            Status::AirRead | Status::AirWrite => tell_error(rt, at, air),
            Status::Disk => tell_error(rt, disk, self.disk),
            Status::BadStore(why) => tell_bad_store(rt, disk, why),
            Status::NoSuch => tell_shelf(rt, words, true, self.shelf),
            Status::Shelf => tell_shelf(rt, words, false, self.shelf),
            _ => {}
        }
    }
}

/// Tells what the code of a refusal means.
fn tell_refused(rt: &HostRuntime, by: RefusedBy) {
    match by {
        RefusedBy::Shown => {}
        RefusedBy::Server { code } | RefusedBy::Fault { code } => {
            let meaning = meaning_of_code(code);
            let _ = eprintln!(rt; "pacsat: {code}: {meaning}");
        }
    }
}

/// Tells of a file or an air what the system refused to it.
fn tell_error(rt: &HostRuntime, name: &str, error: Option<SystemError>) {
    let _ = match error {
        None => eprintln!(rt; "pacsat: {name}: the cause isn't known"),
        Some(error) => match error.number {
            Some(number) => {
                let text = io::Error::from_raw_os_error(number);
                eprintln!(rt; "pacsat: {name}: {text}")
            }
            None if error.kind == ErrorKind::WouldBlock => {
                eprintln!(rt; "pacsat: {name}: locked by another program")
            }
            None => {
                let kind = error.kind;
                eprintln!(rt; "pacsat: {name}: {kind}")
            }
        },
    };
}

/// Tells of a file that is the other kind of disk, or a store of an earlier version.
fn tell_bad_store(rt: &HostRuntime, disk: &str, why: BadStore) {
    let BadStore::NotAStore { found } = why else {
        return;
    };
    match &found {
        b"PXSTORE1" => {
            let _ = eprintln!(rt; "pacsat: {disk}: a server's store, and no client's notes");
        }
        b"PXSTORE9" | b"PXSTORE0" => {
            let _ = eprintln!(rt;
                "pacsat: {disk}: a store of an earlier version, which this one doesn't read"
            );
        }
        b"PXNOTES1" => {
            let _ = eprintln!(rt; "pacsat: {disk}: a client's notes, and no server's store");
        }
        _ => {}
    }
}

/// Tells of the files that the words name what the system refused to the shelf: of those of `pfh-make` and `pfh-body`
/// of the one that is read alone, where `read_alone` holds.
fn tell_shelf(
    rt: &HostRuntime,
    words: &ReadWords<'_>,
    read_alone: bool,
    error: Option<SystemError>,
) {
    let Ok(request) = words.asked() else {
        return;
    };
    match request {
        Request::Client(ClientRequest::Send(send)) => tell_error(rt, send.name, error),
        Request::Client(ClientRequest::Fetch(fetch)) => tell_error(rt, fetch.name, error),
        Request::File { name, .. } | Request::Rehearse(RehearseRequest::Schedule { name }) => {
            tell_error(rt, name, error)
        }
        Request::Making(MakingRequest::Make(make)) if read_alone => {
            tell_error(rt, make.body, error)
        }
        Request::Making(MakingRequest::Make(make)) => tell_either(rt, make.body, make.kept, error),
        Request::Making(MakingRequest::Body(body)) if read_alone => {
            tell_error(rt, body.name, error)
        }
        Request::Making(MakingRequest::Body(body)) => tell_either(rt, body.name, body.kept, error),
        _ => {}
    }
}

/// Tells what the system refused to one of two files.
fn tell_either(rt: &HostRuntime, read: &str, kept: &str, error: Option<SystemError>) {
    if let Ok(both) = format!(in rt.alloc(); "{read} or {kept}") {
        tell_error(rt, both.as_str(), error);
    }
}
