//! Lines that are put together.

ghost use Rattle.std.specs.Prelude.{◌≡◌, None};

use arrayvec::ArrayString;
use px_base::{FaultCount, Out, OutDown};
use std::str;

/// Room for lines, in octets.
const ROOM: usize = 4096;

/// Room for one line, in octets.
const LINE_ROOM: usize = 1024;

/// Lines that wait to be shown, up to 4,096 octets, and the one that is put together. What there is no room for is left
/// out. Takes no memory besides itself.
#[derive(Drop)]
pub struct Lines {
    text: ArrayString<ROOM>,
    /// The line that is put together: it is written to, and then ended.
    pub(crate) line: ArrayString<LINE_ROOM>,
    /// Whether they are shown on a terminal, on which a line can be written over.
    pub(crate) terminal: bool,
    /// Whether the line that was ended last is one to be written over.
    over: bool,
    left_out: FaultCount,
}

impl Lines {
    /// No lines; `terminal` if a line can be written over.
    pub fn new(terminal: bool) -> Lines {
        Lines {
            text: ArrayString::new(),
            line: ArrayString::new(),
            terminal,
            over: false,
            left_out: FaultCount::new(),
        }
    }

    /// The octets of the lines that wait.
    pub fn as_bytes(&self) -> &[u8] {
        self.text.as_str().as_bytes()
    }

    /// Drops the lines that waited.
    pub fn clear(&mut self) {
        self.text.clear();
    }

    /// Ends the line. On a terminal the next one of these is written over it if `over` is true of both.
    pub(crate) fn end(&mut self, over: bool) {
        let over = over && self.terminal;
        if !over {
            self.leave_line();
        }
        if self.text.remaining_capacity() > LINE_ROOM + 8 {
            let _ = self.text.try_push_str(if over { "\r" } else { "" });
            let _ = self.text.try_push_str(self.line.as_str());
            let _ = self.text.try_push_str(if over { "    " } else { "\n" });
        }
        self.over = over;
        self.line.clear();
    }

    /// Goes on below a line that could have been written over.
    fn leave_line(&mut self)
        ensures { self.new.left_out ≡ self.old.left_out }
    {
        if self.over {
            let _ = self.text.try_push_str("\n");
            self.over = false;
        }
    }
}

impl Out for Lines {
    ghost shown = { λ _. None };

    ghost faults = { λ a. a.left_out };

    /// Appends whole lines to those that wait, or none if there is no room for them.
    fn put(&mut self, bytes: &[u8]) -> Result<(), OutDown> {
        self.leave_line();
        let text = str::from_utf8(bytes).unwrap_or("");
        let put = self.text.try_push_str(text).map_err(|_| OutDown);
        self.left_out.count_err(put)
    }
}
