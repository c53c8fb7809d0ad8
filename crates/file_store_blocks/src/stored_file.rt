//! A file of the store, without the blocks that its octets are in.

ghost use Rattle.std.specs.Prelude.{◌≡◌, ◌+◌, ◌≤◌, ◌^◌, ◌<◌, length, [], Some, None, is_some, IsSome};
ghost use Rattle.file_store_blocks.specs.Placed.{is_sealed, new_placed};
ghost use Rattle.file_store_blocks.specs.PlacedCommand.{seal_with, sealed};
ghost use Rattle.file_store_blocks.specs.PlacedFiles.{brought, octets_or_none, placed_info, seal_of};
ghost use Rattle.file_store_blocks.specs.Sealed.{sealed_file};

use crate::{FileBlocks, SealedFile, Stamp};
use file_store_model::Info;
use px_base::{Call, FileNumber, Moment, OctetBuffer};
use std::marker::Model;

/// When a file was sealed, and what its seal says of its header.
#[derive(Clone, Copy, Debug)]
pub(crate) struct SealMark {
    /// The moment.
    pub(crate) moment: Moment,
    /// The sum of the header with the stamp.
    pub(crate) sum: u16,
    /// The length of the header in octets.
    pub(crate) header_len: u16,
}

/// A file, without its blocks. Contracts see it as a `PlacedFile` without blocks.
#[derive(Drop)]
pub(crate) struct StoredFile {
    number: FileNumber,
    caller: Call,
    length: u32,
    begun: Moment,
    /// How many octets are held.
    held: u32,
    /// The octets that came of an upload that is out and aren't held yet: at most those of one block.
    waiting: OctetBuffer<512>,
    /// Whether an upload of the file is out.
    out: bool,
    /// The file's seal.
    mark: Option<SealMark>,
}

impl Model for StoredFile {
    ghost use Rattle.std.specs.Prelude.{[]};
    ghost use Rattle.file_store_blocks.specs.PlacedFiles.{PlacedFile, rest_when, seal_of};

    ghost Value = { PlacedFile };

    ghost view = { λ a. record {
      entry = record {
        number = a.number;
        caller = a.caller;
        length = a.length;
        begun = a.begun;
        held = a.held;
        blocks = [];
        seal = seal_of a.mark;
      };
      rest = rest_when a.out a.waiting;
    } };
}

impl StoredFile {
    /// A file of which no octet is held, and no upload is out. Takes no memory.
    pub(crate) fn new(
        number: FileNumber,
        caller: Call,
        file_length: u32,
        moment: Moment,
    ) -> StoredFile
        ensures { result ≡ record { entry = new_placed number caller file_length moment; rest = None } }
    {
        StoredFile {
            number,
            caller,
            length: file_length,
            begun: moment,
            held: 0,
            waiting: OctetBuffer::new(),
            out: false,
            mark: None,
        }
    }

    /// The number of the file.
    pub(crate) fn number(&self) -> FileNumber
        ensures { result ≡ self.now.entry.number }
    {
        self.number
    }

    /// Whether the file is sealed.
    pub(crate) fn is_complete(&self) -> bool
        ensures { result ≡ is_sealed self.now.entry }
    {
        self.mark.is_some()
    }

    /// The file's seal.
    pub(crate) fn mark(&self) -> Option<SealMark>
        ensures { seal_of result ≡ self.now.entry.seal }
    {
        self.mark
    }

    /// What it is as a file with this seal, whose octets are in this run of a table.
    pub(crate) fn sealed_in(&self, run: usize, mark: SealMark) -> SealedFile
        ensures { result ≡ sealed_file run mark self.now.entry }
    {
        SealedFile {
            blocks: FileBlocks {
                run,
                held: self.held,
            },
            stamp: Stamp {
                number: self.number,
                by: self.caller,
                moment: mark.moment,
            },
            sum: mark.sum,
            header_len: mark.header_len,
        }
    }

    /// Whether an upload of the file is out.
    pub(crate) fn is_out(&self) -> bool
        ensures { result ≡ is_some self.now.rest }
    {
        self.out
    }

    /// The octets that came of the upload that is out and aren't held yet; none if none is out.
    pub(crate) fn rest(&self) -> &[u8]
        ensures octets { result.now ≡ octets_or_none self.now.rest }
        ensures most { length result.now ≤ 512 }
    {
        if self.out {
            self.waiting.as_slice()
        } else {
            &[]
        }
    }

    /// What the store reports about the file.
    pub(crate) fn info(&self) -> Info
        ensures { result ≡ placed_info self.now.entry }
    {
        Info {
            number: self.number,
            caller: self.caller,
            length: self.length,
            held: self.held,
            complete: self.mark.is_some(),
            begun: self.begun,
        }
    }

    /// An upload of the file goes out, of which no octet waits.
    pub(crate) fn take_out(&mut self)
        ensures { self.new ≡ record self.old { rest = Some [] } }
    {
        self.waiting.clear();
        self.out = true;
    }

    /// The upload that is out is given up, if there is one; the octets that aren't held yet are lost.
    pub(crate) fn park(&mut self)
        ensures { self.new ≡ record self.old { rest = None } }
    {
        self.waiting.clear();
        self.out = false;
    }

    /// Octets come of the upload that is out, after those that wait.
    pub(crate) fn bring(&mut self, bytes: &[u8])
        requires out { IsSome self.old.rest }
        requires room { length (octets_or_none self.old.rest) + length bytes.now ≤ 512 }
        ensures { self.new ≡ brought self.old bytes.now }
    {
        self.waiting.put(bytes);
    }

    /// The octets that wait of the upload that is out, `count` of them, become held.
    pub(crate) fn hold(&mut self, count: usize)
        requires out { IsSome self.old.rest }
        requires all { length (octets_or_none self.old.rest) ≡ count }
        requires fits { self.old.entry.held + count < 2 ^ 32 }
        ensures { self.new ≡ record self.old {
          entry = record self.old.entry { held = self.old.entry.held + count };
          rest = Some [];
        } }
    {
        self.waiting.clear();
        self.held += count as u32;
    }

    /// `used` further octets are held, of a file of which no upload is out.
    pub(crate) fn grow(&mut self, used: u16)
        requires in_ { self.old.rest ≡ None }
        requires fits { self.old.entry.held + used < 2 ^ 32 }
        ensures { self.new ≡ record self.old { entry = record self.old.entry { held = self.old.entry.held + used } } }
    {
        self.held += u32::from(used);
    }

    /// The file is kept with this seal.
    pub(crate) fn seal(&mut self, moment: Moment, sum: u16, header_len: u16)
        ensures { self.new ≡ record self.old { entry = sealed (seal_with moment sum header_len) self.old.entry } }
    {
        self.mark = Some(SealMark {
            moment,
            sum,
            header_len,
        });
    }
}
