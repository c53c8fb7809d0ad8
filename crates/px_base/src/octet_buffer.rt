//! Octets in one place of memory, of which there are at most so many.

ghost use Rattle.std.specs.Prelude.{◌≡◌, ◌+◌, ◌≤◌, [], ◌++◌, length};

use std::marker::Model;

/// At most so many octets. Contracts see them as a list. Where they are let go nothing is written, so that a buffer
/// that is kept costs only what is put in it.
#[derive(Debug, Drop)]
pub struct OctetBuffer<const MOST: usize> {
    octets: [u8; MOST],
    len: usize,
}

impl<const MOST: usize> Model for OctetBuffer<MOST> {
    ghost use Rattle.std.specs.Prelude.{List, ℕ, ◌≤◌, take};

    ghost Value = { List ℕ };

    ghost view = { λ a. take a.len a.octets };

    ghost invariant = { λ a. a.len ≤ MOST };
}

impl<const MOST: usize> OctetBuffer<MOST> {
    /// No octets. Takes no memory.
    pub fn new() -> Self
        ensures { result ≡ [] }
    {
        OctetBuffer {
            octets: [0; MOST],
            len: 0,
        }
    }

    /// The octets.
    pub fn as_slice(&self) -> &[u8]
        ensures octets { result.now ≡ self.now }
        ensures most { length result.now ≤ MOST }
    {
        &self.octets[..self.len]
    }

    /// How many octets there are.
    pub fn len(&self) -> usize
        ensures len { result ≡ length self.now }
        ensures most { result ≤ MOST }
    {
        self.len
    }

    /// Lets all go.
    pub fn clear(&mut self)
        ensures { self.new ≡ [] }
    {
        self.len = 0;
    }

    /// Puts these behind, for which there is room.
    pub fn put(&mut self, bytes: &[u8])
        requires { length self.old + length bytes.now ≤ MOST }
        ensures { self.new ≡ self.old ++ bytes.now }
    {
        let start = self.len;
        self.len = start + bytes.len();
        let octets = &mut self.octets[..];
        octets[start..start + bytes.len()].copy_from_slice(bytes);
    }
}
