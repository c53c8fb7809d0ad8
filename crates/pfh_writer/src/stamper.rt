//! The stamping of a file that comes in pieces.

ghost use Rattle.std.specs.Prelude.{◌≡◌, ℕ, List, [], ◌++◌, option_map};
ghost use Rattle.pfh_writer.specs.Stamping.{HasStamped, fixed_data};
ghost use Rattle.pfh_writer.specs.Steps.{octet_given, octet_in, stage_after, stage_after_len};

use crate::server::{ServerItems, few};
use crate::text::octets16;
use arrayvec::ArrayVec;
use pfh_items::HEADER_CHECKSUM;
use px_base::{Call, FileNumber, Moment};
use std::marker::Model;

/// How far a stamper has come.
#[derive(Clone, Copy, Debug, PartialEq, Eq)]
enum Stage {
    /// Before the file's first octet.
    Start,
    /// Before its second.
    Begun,
    /// Before an item.
    ItemStart,
    /// After the first octet of an item's id.
    IdCut {
        /// That octet.
        low: u8,
    },
    /// After an item's id.
    IdRead {
        /// The id.
        id: u16,
    },
    /// After an item's id and length, and before the end of its data.
    InData {
        /// The id.
        id: u16,
        /// The length of its data in octets.
        len: u8,
        /// How many of them were passed.
        at: u8,
    },
    /// After the end item.
    Body,
}

/// The stamping of a file that keeps all rules of headers and whose octets come in pieces of any lengths, as
/// [`stamp`](crate::stamp()) does it over a file in memory. It keeps no octets but an item's id and length, whatever the
/// file. A contract says what it gave in the place of the octets that it was fed.
#[derive(Debug, Drop)]
pub struct Stamper {
    server: ServerItems,
    /// The sum of the stamped header.
    sum: u16,
    stage: Stage,
}

impl Model for Stamper {
    ghost use Rattle.pfh_writer.specs.Stamping.{StamperValue, stamp_of};

    ghost Value = { StamperValue };

    ghost view = { λ a. record { stamp = stamp_of a.server; sum = a.sum; stage = a.stage } };
}

impl Stamper {
    /// A stamper that was fed nothing: for the file's number, the call of the station that uploaded it, and the moment of
    /// that. `sum` is the sum of the stamped header, as
    /// [`stamped_sum`](crate::stamped_sum) gives it. Takes no memory.
    pub fn new(number: FileNumber, by: Call, moment: Moment, sum: u16) -> Stamper
        ensures stamp { result.stamp ≡ record { number = number; by = by; moment = moment } }
        ensures sum { result.sum ≡ sum }
        ensures fed { HasStamped result [] [] }
    {
        Stamper {
            server: ServerItems::new(number, by, moment),
            sum,
            stage: Stage::Start,
        }
    }

    /// Stamps the next octets of the file, in their place. All pieces joined are to be a file that keeps all rules of
    /// headers, or the front of one. It costs the octets that it gets once, and nothing more from the piece on in which
    /// the header ended before. Takes no memory.
    pub fn feed(&mut self, piece: &mut [u8])
        ensures stamp { self.new.stamp ≡ self.old.stamp }
        ensures sum { self.new.sum ≡ self.old.sum }
        ensures fed { (fed given : List ℕ) → HasStamped self.old fed given
            → HasStamped self.new (fed ++ piece.old) (given ++ piece.new) }
    {
        if let Stage::Body = self.stage {
            return;
        }
        for octet in piece.iter_mut() {
            *octet = self.take(*octet);
        }
    }

    /// Takes one octet, and gives the one that comes in its place.
    fn take(&mut self, octet: u8) -> u8
        ensures stamp { self.new.stamp ≡ self.old.stamp }
        ensures sum { self.new.sum ≡ self.old.sum }
        ensures stage { self.new.stage ≡ stage_after self.old.stage octet }
        ensures octet { result ≡ octet_given self.old.stamp self.old.sum self.old.stage octet }
    {
        let given = match self.stage {
            Stage::InData { id, len, at } => self.given(id, len, at, octet),
            _ => octet,
        };
        self.stage = self.stage.after(octet);
        given
    }

    /// The octet that comes in the place of this one at place `at` of an item's data.
    fn given(&self, id: u16, len: u8, at: u8, octet: u8) -> u8
        ensures { result ≡ octet_in (fixed_data self.now.stamp self.now.sum id len) at octet }
    {
        match self.data(id, len) {
            Some(octets) => octets.get(usize::from(at)).copied().unwrap_or(octet),
            None => octet,
        }
    }

    /// The data that comes in the place of an item's own, if any does.
    fn data(&self, id: u16, len: u8) -> Option<ArrayVec<u8, 6>>
        ensures { option_map (λ octets. octets.items) result ≡ fixed_data self.now.stamp self.now.sum id len }
    {
        match (id, len) {
            (HEADER_CHECKSUM, 2) => Some(few(&octets16(self.sum))),
            _ => self.server.data(id, usize::from(len)),
        }
    }
}

impl Stage {
    /// How far it has come after one octet more.
    fn after(self, octet: u8) -> Stage
        ensures { result ≡ stage_after self octet }
    {
        match self {
            Stage::Start => Stage::Begun,
            Stage::Begun => Stage::ItemStart,
            Stage::ItemStart => Stage::IdCut { low: octet },
            Stage::IdCut { low } => Stage::IdRead {
                id: u16::from_le_bytes([low, octet]),
            },
            Stage::IdRead { id } => after_len(id, octet),
            Stage::InData { id, len, at } => {
                if u16::from(at) + 1 < u16::from(len) {
                    Stage::InData {
                        id,
                        len,
                        at: at + 1,
                    }
                } else {
                    Stage::ItemStart
                }
            }
            Stage::Body => Stage::Body,
        }
    }
}

/// How far it has come after an item's id and its length.
fn after_len(id: u16, len: u8) -> Stage
    ensures { result ≡ stage_after_len id len }
{
    match (id, len) {
        (0, 0) => Stage::Body,
        (_, 0) => Stage::ItemStart,
        _ => Stage::InData { id, len, at: 0 },
    }
}
