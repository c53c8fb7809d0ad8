//! An upload under way.

ghost use Rattle.std.specs.Prelude.{◌≡◌, ◌+◌, ◌≤◌};
ghost use Rattle.file_store_model.specs.Limits.{longest_file};

use crate::LONGEST_FILE;
use px_base::{Call, FileNumber};
use std::marker::Model;

/// An upload under way: the way to its entry in the store. It must be spent, by `seal` or `park`. It knows only what
/// stays whatever becomes of other uploads: in every image of the disk its entry is under way, and holds at least the
/// octets that it says. Contracts see it as an `Upload`.
pub struct OpenUpload {
    number: FileNumber,
    caller: Call,
    length: u32,
    held: u32,
}

impl Model for OpenUpload {
    ghost use Rattle.file_store.specs.Upload.{IsUpload, Upload, upload_from};

    ghost Value = { Upload };

    ghost view = { λ a. upload_from a.number a.caller a.length a.held };

    ghost invariant = { λ a. IsUpload (upload_from a.number a.caller a.length a.held) };
}

impl OpenUpload {
    ghost use Rattle.file_store.specs.Upload.{held_whole, upload_from};

    /// The upload of this entry, of which this many octets are held.
    pub(crate) fn new(number: FileNumber, caller: Call, file_length: u32, held: u32) -> OpenUpload
        requires held { held ≤ file_length }
        requires file { file_length ≤ longest_file }
        ensures { result ≡ upload_from number caller file_length held }
    {
        OpenUpload {
            number,
            caller,
            length: file_length,
            held,
        }
    }

    /// The number of the file. Takes no memory.
    pub fn number(&self) -> FileNumber
        ensures { result ≡ self.now.number }
    {
        self.number
    }

    /// Whose file it is. Takes no memory.
    pub fn caller(&self) -> Call
        ensures { result ≡ self.now.caller }
    {
        self.caller
    }

    /// The length of the file in octets. Takes no memory.
    pub fn length(&self) -> u32
        ensures { result ≡ self.now.length }
    {
        self.length
    }

    /// How many octets the store holds of the file. Takes no memory.
    pub fn held(&self) -> u32
        ensures value { result ≡ self.now.held }
        ensures range { result ≤ self.now.length }
    {
        self.held
    }

    /// The upload after `more` further octets became held.
    pub(crate) fn moved_on(self, more: usize) -> OpenUpload
        requires { self.held + more ≤ self.length }
        ensures { result ≡ record self { held = self.held + more } }
    {
        let OpenUpload {
            number,
            caller,
            length,
            held,
        } = self;
        OpenUpload {
            number,
            caller,
            length,
            held: held + more as u32,
        }
    }

    /// The upload once all octets of the file are held.
    pub(crate) fn whole(self) -> OpenUpload
        ensures { result ≡ held_whole self }
    {
        let OpenUpload {
            number,
            caller,
            length,
            held: _,
        } = self;
        OpenUpload {
            number,
            caller,
            length,
            held: length,
        }
    }

    /// Gives the upload up, and gives its number.
    pub(crate) fn end(self) -> FileNumber
        ensures { result ≡ self.number }
    {
        let OpenUpload {
            number,
            caller: _,
            length: _,
            held: _,
        } = self;
        number
    }
}
