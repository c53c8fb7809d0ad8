//! The check of a file that comes in pieces.

ghost use Rattle.std.specs.Prelude.{◌≡◌, ◌+◌, ◌≤◌, ◌<◌, ℕ, List, [], ◌∷◌, ◌++◌, length, take, None, Some, IfOk, IfErr, MatchResult, ◌⊎◌, true, false};
ghost use Rattle.pfh_items.specs.Faults.{IsFound, fault_code, first_fault};
ghost use Rattle.pfh_items.specs.Walk.{items_from};
ghost use Rattle.pfh_reader.specs.Check.{HasFault, HasSums};
ghost use Rattle.pfh_reader.specs.Feed.{HasFed, IsCutItem, KeepsClaims, Takes, TakesEnd, TakesItems, fed_len, stage_after};
ghost use Rattle.pfh_reader.specs.declared.checker.Stage.TheVariants as stages;

use crate::HeaderFault;
use crate::claims::Claims;
use crate::measures::Measures;
use arrayvec::ArrayVec;
use pfh_items::{FileFault, Items, Stop, Sums};
use std::marker::Model;

/// How far a checker has come.
#[derive(Clone, Copy, Debug, PartialEq, Eq)]
enum Stage {
    /// No octet was fed.
    Nothing,
    /// AA alone.
    Begun,
    /// The file doesn't begin with AA 55.
    NoHeader,
    /// Among the items.
    Items,
    /// After the end item.
    Body,
}

/// The check of a file whose octets come in pieces of any lengths. It keeps at most one cut item, whatever the file. A
/// contract says of which octets it was fed.
#[derive(Debug, Drop)]
pub struct Checker {
    stage: Stage,
    /// The octets of the item that is cut.
    held: ArrayVec<u8, 258>,
    claims: Claims,
    /// The lengths and sums of the octets so far.
    measures: Measures,
}

impl Model for Checker {
    ghost use Rattle.pfh_reader.specs.Feed.{CheckerValue, IsCutItem};

    ghost Value = { CheckerValue };

    ghost view = { λ a. record { stage = a.stage; held = a.held.items; claims = a.claims; measures = a.measures } };

    ghost invariant = { λ a. IsCutItem a.held.items };
}

impl Checker {
    /// A checker that was fed nothing. Takes no memory.
    pub fn new() -> Checker
        ensures fed { HasFed result [] }
        ensures len { fed_len result ≡ 0 }
    {
        Checker {
            stage: Stage::Nothing,
            held: ArrayVec::new(),
            claims: Claims::new(),
            measures: Measures {
                file_len: 0,
                header_len: 0,
                header_sum: 0,
                body_sum: 0,
            },
        }
    }

    /// Takes the next octets of the file, at most 4,194,304 in all. It costs the octets that it gets, once, and takes no
    /// memory.
    pub fn feed(&mut self, piece: &[u8])
        requires { fed_len self.old + length piece.now ≤ 4194304 }
        ensures fed { (fed : List ℕ) → HasFed self.old fed → HasFed self.new (fed ++ piece.now) }
        ensures len { fed_len self.new ≡ fed_len self.old + length piece.now }
    {
        let mut rest = piece;
        while !rest.is_empty() {
            let taken = self.take(rest);
            rest = &rest[taken..];
        }
    }

    /// Takes octets from the front, at least one, and says how many.
    fn take(&mut self, octets: &[u8]) -> usize
        requires some { 0 < length octets.now }
        requires most { fed_len self.old + length octets.now ≤ 4194304 }
        ensures taken { 0 < result }
        ensures within { result ≤ length octets.now }
        ensures takes { Takes self.old self.new octets.now result }
    {
        match self.stage {
            Stage::Nothing | Stage::Begun => self.take_of_start(octets),
            Stage::NoHeader => self.pass(octets),
            Stage::Items => self.take_of_items(octets),
            Stage::Body => self.take_of_body(octets),
        }
    }

    /// Takes one octet of AA 55, or of what stands in their place.
    fn take_of_start(&mut self, octets: &[u8]) -> usize
        requires stage { (self.old.stage ≡ stages.Nothing) ⊎ (self.old.stage ≡ stages.Begun) }
        requires some { 0 < length octets.now }
        requires most { fed_len self.old + length octets.now ≤ 4194304 }
        ensures taken { result ≡ 1 }
        ensures takes { Takes self.old self.new octets.now result }
    {
        let (first, _) = octets.split_at(1);
        self.measures.add_header(first);
        self.stage = begun(self.stage, octets[0]);
        1
    }

    /// Takes octets of a file that doesn't begin with AA 55.
    fn pass(&mut self, octets: &[u8]) -> usize
        requires stage { self.old.stage ≡ stages.NoHeader }
        requires most { fed_len self.old + length octets.now ≤ 4194304 }
        ensures taken { result ≡ length octets.now }
        ensures takes { Takes self.old self.new octets.now result }
    {
        self.measures.add_header(octets);
        octets.len()
    }

    /// Takes octets of the body.
    fn take_of_body(&mut self, octets: &[u8]) -> usize
        requires stage { self.old.stage ≡ stages.Body }
        requires most { fed_len self.old + length octets.now ≤ 4194304 }
        ensures taken { result ≡ length octets.now }
        ensures takes { Takes self.old self.new octets.now result }
    {
        self.measures.add_body(octets);
        octets.len()
    }

    /// Takes octets of items: those that are whole where they stand, or the next octet of the one that is cut.
    fn take_of_items(&mut self, octets: &[u8]) -> usize
        requires stage { self.old.stage ≡ stages.Items }
        requires some { 0 < length octets.now }
        requires most { fed_len self.old + length octets.now ≤ 4194304 }
        ensures taken { 0 < result }
        ensures within { result ≤ length octets.now }
        ensures takes { Takes self.old self.new octets.now result }
    {
        if self.held.is_empty() {
            self.take_whole_items(octets)
        } else {
            self.take_of_cut_item(octets)
        }
    }

    /// Takes the items that are whole in these octets, and holds what is left of a cut one.
    fn take_whole_items(&mut self, octets: &[u8]) -> usize
        requires stage { self.old.stage ≡ stages.Items }
        requires none { self.old.held ≡ [] }
        requires some { 0 < length octets.now }
        requires most { fed_len self.old + length octets.now ≤ 4194304 }
        ensures taken { 0 < result }
        ensures within { result ≤ length octets.now }
        ensures takes { Takes self.old self.new octets.now result }
    {
        match take_items(&mut self.claims, octets) {
            Stop::EndItem { at } => {
                let (header, _) = octets.split_at(at + 3);
                self.measures.end_header(header);
                self.stage = Stage::Body;
                at + 3
            }
            Stop::Ran { at } => {
                let (_, cut) = octets.split_at(at);
                self.measures.add_header(octets);
                self.held = held(cut);
                octets.len()
            }
        }
    }

    /// Takes the next octet of the item that is cut.
    fn take_of_cut_item(&mut self, octets: &[u8]) -> usize
        requires stage { self.old.stage ≡ stages.Items }
        requires some { 0 < length octets.now }
        requires most { fed_len self.old + length octets.now ≤ 4194304 }
        ensures taken { result ≡ 1 }
        ensures takes { Takes self.old self.new octets.now result }
    {
        let (first, _) = octets.split_at(1);
        if take_octet(&mut self.held, &mut self.claims, octets[0]) {
            self.measures.end_header(first);
            self.stage = Stage::Body;
        } else {
            self.measures.add_header(first);
        }
        1
    }

    /// The answer for all octets that were fed: the sums of a file that keeps all rules, or the first rule that it breaks,
    /// as [`check`](crate::check) finds it. Takes no memory.
    pub fn end(&self) -> Result<Sums, HeaderFault>
        ensures ok { IfOk result (λ sums. (fed : List ℕ) → HasFed self.now fed → HasSums fed sums) }
        ensures fault { IfErr result (λ fault. (fed : List ℕ) → HasFed self.now fed → HasFault fed fault.code) }
        ensures code { (fed : List ℕ) → HasFed self.now fed
            → MatchResult result (λ _. fault_code fed ≡ None) (λ fault. fault_code fed ≡ Some fault.code) }
    {
        match self.fault() {
            Some(fault) => Err(fault.into()),
            None => Ok(Sums {
                header_len: u32::from(self.claims.body_offset),
                body_sum: self.measures.body_sum,
                header_sum: self.claims.header_sum,
            }),
        }
    }

    /// The first rule that the octets break which were fed.
    fn fault(&self) -> Option<FileFault>
        ensures found { (fed : List ℕ) → HasFed self.now fed → IsFound fed result }
        ensures read { (fed : List ℕ) → HasFed self.now fed → result ≡ first_fault fed }
    {
        match self.stage {
            Stage::Nothing => Some(FileFault::NoHeader),
            Stage::Begun => Some(FileFault::NoHeader),
            Stage::NoHeader => Some(FileFault::NoHeader),
            Stage::Items => Some(FileFault::NoEndItem),
            Stage::Body => self.claims.fault(&self.measures),
        }
    }
}

/// How far a checker has come after one octet more, where it had come to AA or not so far.
fn begun(stage: Stage, octet: u8) -> Stage
    ensures { result ≡ stage_after stage octet }
{
    match (stage, octet) {
        (Stage::Nothing, 0xAA) => Stage::Begun,
        (Stage::Begun, 0x55) => Stage::Items,
        _ => Stage::NoHeader,
    }
}

/// Takes the items that are whole in these octets, and says what ends them.
fn take_items(claims: &mut Claims, octets: &[u8]) -> Stop
    ensures stop { result ≡ (items_from 0 octets.now).stop }
    ensures claims { KeepsClaims (items_from 0 octets.now).items claims.old claims.new }
{
    let mut items = Items::over(octets);
    while let Some(item) = items.next() {
        claims.take(&item);
    }
    items.stop()
}

/// The octets of an item that is cut.
fn held(octets: &[u8]) -> ArrayVec<u8, 258>
    requires { IsCutItem octets.now }
    ensures { result.items ≡ octets.now }
{
    let mut held = ArrayVec::new();
    held.try_extend_from_slice(octets).unwrap();
    held
}

/// Puts one octet to the item that is cut, and takes the item if it is whole now; `true` where it is the end item.
fn take_octet(held: &mut ArrayVec<u8, 258>, claims: &mut Claims, octet: u8) -> bool
    requires { IsCutItem held.old.items }
    ensures cut { IsCutItem held.new.items }
    ensures items { result ≡ false → TakesItems (held.old.items ++ octet ∷ []) held.new.items claims.old claims.new }
    ensures end { result ≡ true → TakesEnd (held.old.items ++ octet ∷ []) claims.old claims.new }
{
    held.push(octet);
    match take_items(claims, held.as_slice()) {
        Stop::EndItem { .. } => {
            held.clear();
            true
        }
        Stop::Ran { at } => {
            if at == 0 {
                return false;
            }
            held.clear();
            false
        }
    }
}
