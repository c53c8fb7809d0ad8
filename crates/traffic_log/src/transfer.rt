//! How far a transfer is.

use crate::lines::Lines;
use px_base::{FileNumber, Moment};
use std::fmt::Write;

/// Seconds between two lines of progress, if a line can't be written over.
const PROGRESS_SECONDS: u32 = 30;

/// What is under way on a link.
#[derive(Clone, Copy, PartialEq, Eq)]
pub(crate) enum Work {
    /// Nothing that is known.
    Nothing,
    /// An upload.
    Upload,
    /// A download.
    Download,
    /// A list.
    List,
}

/// The transfer of a link, as far as packets showed it, in octets.
#[derive(Clone, Copy)]
pub(crate) struct Transfer {
    /// What is under way.
    pub(crate) work: Work,
    /// The file's number.
    pub(crate) number: FileNumber,
    /// The file's length, or 0 if it isn't known.
    pub(crate) length: u32,
    /// How many octets have passed.
    place: u32,
    /// How many had passed when it began, and when that was.
    from: u32,
    began: Moment,
    /// When progress was shown last.
    shown: Moment,
}

impl Transfer {
    /// A job of a file of this number, and of this length if that isn't 0.
    pub(crate) fn new(work: Work, number: FileNumber, length: u32) -> Transfer {
        Transfer {
            work,
            number,
            length,
            place: 0,
            from: 0,
            began: Moment::new(0),
            shown: Moment::new(0),
        }
    }

    /// Shows that the octets of the file come from this place on, at this moment.
    pub(crate) fn begin(
        &mut self,
        number: FileNumber,
        from: u32,
        moment: Moment,
        lines: &mut Lines,
    ) {
        self.number = number;
        self.place = from;
        self.from = from;
        self.began = moment;
        self.shown = moment;
        let word = if self.work == Work::Upload {
            "upload"
        } else {
            "download"
        };
        let _ = write!(lines.line, "{word} {} from {from}", number.get());
        self.end_with_length(lines);
        lines.end(false);
    }

    /// This number of octets passed at this moment, which is shown from time to time.
    pub(crate) fn pass(&mut self, octets: usize, moment: Moment, lines: &mut Lines) {
        let octets = u32::try_from(octets).unwrap_or(0);
        self.place = self.place.saturating_add(octets);
        let seconds = if lines.terminal { 1 } else { PROGRESS_SECONDS };
        if seconds_between(self.shown, moment) >= seconds {
            self.shown = moment;
            self.show(moment, lines);
        }
    }

    /// Shows the place, the octets a second since it began, and the time that is left if the length is known.
    fn show(&self, moment: Moment, lines: &mut Lines) {
        let place = self.place;
        let passed = place.saturating_sub(self.from);
        let rate = passed / seconds_between(self.began, moment).max(1);
        let _ = write!(lines.line, "{place}");
        self.end_with_length(lines);
        let _ = write!(lines.line, " octets, {rate} octets/s");
        if self.length > 0 {
            let left = self.length.saturating_sub(place) / rate.max(1);
            let (minutes, seconds) = (left / 60, left % 60);
            let _ = write!(lines.line, ", {minutes} min {seconds} s left");
        }
        lines.end(true);
    }

    /// Adds the length to a line, if it is known.
    fn end_with_length(&self, lines: &mut Lines) {
        if self.length > 0 {
            let _ = write!(lines.line, " of {}", self.length);
        }
    }
}

/// The seconds from a moment to a later one, or none if it isn't later.
pub(crate) fn seconds_between(from: Moment, to: Moment) -> u32 {
    to.get().saturating_sub(from.get())
}
