//! The octets of a file.

ghost use Rattle.std.specs.Prelude.{◌≡◌, [], ◌++◌, length, IsTrue, ◌↔◌, IfOk, OnOk, OnErr};

use crate::OutOfMemory;
use std::alloc::Global;
use std::marker::Model;

/// The octets of a file, or of a part of one. Contracts see them as a list.
#[derive(Debug, Drop)]
pub struct FileBytes {
    octets: Vec<u8>,
}

impl Model for FileBytes {
    ghost use Rattle.std.specs.Prelude.{List, ℕ};

    ghost Value = { List ℕ };

    ghost view = { λ a. a.octets.items };
}

impl FileBytes {
    /// No octets. Takes no memory yet.
    pub fn new(alloc: Global) -> FileBytes
        ensures { result ≡ [] }
    {
        FileBytes {
            octets: Vec::new(alloc),
        }
    }

    /// A copy of these octets. Takes memory.
    pub fn copy_of(alloc: Global, bytes: &[u8]) -> Result<FileBytes, OutOfMemory>
        ensures { IfOk result (λ copy. copy ≡ bytes.now) }
    {
        Ok(FileBytes {
            octets: Vec::from_slice(alloc, bytes)?,
        })
    }

    /// The octets of this vector. Takes no memory.
    pub fn from_vec(octets: Vec<u8>) -> FileBytes
        ensures { result ≡ octets.items }
    {
        FileBytes { octets }
    }

    /// The vector of the octets. Takes no memory.
    pub fn into_vec(self) -> Vec<u8>
        ensures { result.items ≡ self }
    {
        let FileBytes { octets } = self;
        octets
    }

    /// The octets.
    pub fn as_slice(&self) -> &[u8]
        ensures { result.now ≡ self.now }
    {
        self.octets.as_slice()
    }

    /// How many octets there are.
    pub fn len(&self) -> usize
        ensures { result ≡ length self.now }
    {
        self.octets.len()
    }

    /// Whether there is no octet.
    pub fn is_empty(&self) -> bool
        ensures { IsTrue result ↔ (self.now ≡ []) }
    {
        self.octets.is_empty()
    }

    /// Puts octets at the end, or changes nothing where there is no memory. Takes memory.
    pub fn append(&mut self, bytes: &[u8]) -> Result<(), OutOfMemory>
        ensures ok { OnOk result (self.new ≡ self.old ++ bytes.now) }
        ensures err { OnErr result (self.new ≡ self.old) }
    {
        self.octets.extend_from_slice(bytes)?;
        Ok(())
    }
}
