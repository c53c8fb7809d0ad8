//! A write since the last sync.

ghost use Rattle.std.specs.Prelude.{◌≡◌, ◌+◌, min};

/// A write since the last sync, whether it passed or failed.
#[derive(Clone, Copy, Drop)]
pub(crate) struct OpenWrite {
    /// The place at which it was to write.
    pub at: u64,
    /// How many octets it was to write.
    pub count: u64,
    /// Over how many octets it was written: none where it failed, or where it began at the end.
    pub found: usize,
    /// Whether it passed.
    pub passed: bool,
}

impl OpenWrite {
    /// The place past the octets that it was to write, or the greatest number there is.
    pub(crate) fn end(&self) -> u64
        ensures { result ≡ min (self.now.at + self.now.count) 18446744073709551615 }
    {
        self.at.saturating_add(self.count)
    }
}

/// The octets that a write wrote, once it was undone.
#[derive(Clone, Copy, Drop)]
pub(crate) struct Written<'a> {
    /// Those that took the place of others.
    pub over: &'a [u8],
    /// Those of all writes that stand behind what was synced.
    pub behind: &'a [u8],
    /// How many octets were synced.
    pub synced: usize,
}

impl Written<'_> {
    /// The octet that the write wrote at this place of its range, if it passed.
    pub(crate) fn octet(&self, write: &OpenWrite, place: u64) -> Option<u8> {
        if !write.passed {
            return None;
        }
        match self.over.get(place.checked_sub(write.at)? as usize) {
            Some(octet) => Some(*octet),
            None => {
                let place = (place as usize).checked_sub(self.synced)?;
                self.behind.get(place).copied()
            }
        }
    }
}
