//! The content of a record that is put, where its text has it.

ghost use Rattle.std.specs.Prelude.{◌≡◌, ◌+◌, ◌≤◌, [], ◌∷◌, ◌++◌, length, take, drop};
ghost use Rattle.file_journal.specs.Records.{IsRecord, record_of, record_text};

use byteorder::{ByteOrder, LittleEndian};
use std::marker::Model;

/// A closed gate.
pub(crate) const CLOSED: u8 = 0;

/// An open gate.
const OPEN: u8 = 1;

/// The octets before a record's content: its gate, its kind, and the content's length.
const HEAD: usize = 4;

/// The most octets of a record's text with its gate and the next one.
const MOST: usize = 605;

/// The content of a record, at most 600 octets. It is written where the record's text has it, so that it isn't copied
/// again; one that is kept costs only what is put in it. Contracts see it as a list.
#[derive(Debug, Drop)]
pub struct RecordContent {
    /// Room for the gate, the kind and the length, the content, and room for the next gate.
    pub(crate) text: [u8; MOST],
    /// The length of the content in octets.
    pub(crate) len: usize,
}

impl Model for RecordContent {
    ghost use Rattle.std.specs.Prelude.{List, ℕ, ◌≤◌, take, drop};

    ghost Value = { List ℕ };

    ghost view = { λ a. take a.len (drop 4 a.text) };

    ghost invariant = { λ a. a.len ≤ 600 };
}

impl RecordContent {
    /// No octets. Takes no memory.
    pub fn new() -> RecordContent
        ensures { result ≡ [] }
    {
        RecordContent {
            text: [0; MOST],
            len: 0,
        }
    }

    /// Lets all go. Takes no memory.
    pub fn clear(&mut self)
        ensures { self.new ≡ [] }
    {
        self.len = 0;
    }

    /// Puts these octets behind, for which there is room. Takes no memory.
    pub fn put(&mut self, octets: &[u8])
        requires { length self.old + length octets.now ≤ 600 }
        ensures { self.new ≡ self.old ++ octets.now }
    {
        let start = HEAD + self.len;
        self.len += octets.len();
        let text = &mut self.text[..];
        text[start..start + octets.len()].copy_from_slice(octets);
    }

    /// The number of octets. Takes no memory.
    pub(crate) fn len(&self) -> usize
        ensures value { result ≡ length self.now }
        ensures most { result ≤ 600 }
    {
        self.len
    }
}

/// Writes the kind of a record before its content, which has so many octets, with this length, between an open gate and
/// a closed one.
pub(crate) fn close_text(text: &mut [u8; 605], kind: u8, len: usize)
    requires { len ≤ 600 }
    ensures text { take (5 + len) text.new
        ≡ 1 ∷ record_text (record_of kind (take len (drop 4 text.old))) ++ 0 ∷ [] }
    ensures content { take len (drop 4 text.new) ≡ take len (drop 4 text.old) }
    ensures size { length (take len (drop 4 text.old)) ≡ len }
    ensures fits { IsRecord (record_of kind (take len (drop 4 text.old))) }
{
    let text = &mut text[..];
    text[0] = OPEN;
    text[1] = kind;
    LittleEndian::write_u16(&mut text[2..HEAD], len as u16);
    text[HEAD + len] = CLOSED;
}
