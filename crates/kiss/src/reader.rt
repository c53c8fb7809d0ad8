//! Reading KISS text an octet at a time.

ghost use Rattle.std.specs.Prelude.{◌≡◌, ◌≢◌, ◌↔◌, ℕ, List, [], ◌∷◌, ◌++◌, length, ◌<◌, ◌≤◌, IsSome, Some, None};
ghost use Rattle.std.specs.Prelude.{All, take};
ghost use Rattle.kiss.specs.KissText.{fend, fesc, kiss_parts, kiss_frames, escape};
ghost use Rattle.kiss.specs.Hearing.{parts_ended, frames_ended};
ghost use Rattle.kiss.specs.ReaderMemory.{heard_in, frame_in, hearing, parts_ended_in, parts_of_text, IsPlain, IsStep};

use crate::octets::{DATA_ON_PORT_0, FEND, FESC, TFEND, TFESC};
use arrayvec::ArrayVec;
use std::marker::Model;

/// The most octets of a part that isn't dropped, its type octet among them.
const MOST_TEXT: usize = 401;

/// What one octet ended.
#[derive(Clone, Copy, Debug, PartialEq, Eq)]
pub enum KissFed {
    /// No part: more octets are to come.
    More,
    /// A frame on port 0, of at most 400 octets after its type octet.
    Frame,
    /// A part with an ill escape, or with more than 400 octets after its type octet.
    Dropped,
    /// A part that isn't dropped and whose type octet isn't data on port 0.
    Passed,
}

/// Where a reader stands in the text.
#[derive(Clone, Copy, Debug, PartialEq, Eq)]
enum State {
    /// No FEND has come.
    Waiting,
    /// Within a part, or between two.
    Within,
    /// Within a part, after FESC.
    Escaped,
    /// Within a part that will be dropped.
    Spoilt,
    /// Right after the FEND that ended the frame that is kept.
    Framed,
}

/// A reader of KISS text. It keeps at most one part, and takes no memory beside itself.
#[derive(Debug, Drop)]
pub struct KissReader {
    state: State,
    /// The unescaped octets of the part, its type octet first.
    text: ArrayVec<u8, MOST_TEXT>,
}

impl Model for KissReader {
    ghost use Rattle.kiss.specs.Hearing.{Hearing};
    ghost use Rattle.kiss.specs.ReaderMemory.{hearing, HasTypeOctet};

    ghost Value = { Hearing };

    ghost view = { λ reader. hearing reader.state reader.text.items };

    ghost invariant = { λ reader. HasTypeOctet reader.state reader.text.items };
}

impl KissReader {
    /// A reader that has heard nothing. Takes no memory.
    #[tactic(auto, unfolding(crate::specs::KissText::kiss_parts, crate::specs::KissText::kiss_frames))]
    pub fn new() -> KissReader
        ensures heard { result.heard ≡ [] }
        ensures frame { result.frame ≡ None }
        ensures parts { kiss_parts result.heard ≡ [] }
        ensures frames { kiss_frames result.heard ≡ [] }
    {
        KissReader {
            state: State::Waiting,
            text: ArrayVec::new(),
        }
    }

    /// Takes one octet, and says what it ended. All answers but `More` come exactly at a FEND that
    /// ends a part which isn't empty and isn't what stood before the first FEND ("Asynchronous
    /// Frame Format"). After each of them the reader is ready for the next part. Takes no memory.
    #[inline]
    pub fn feed(&mut self, byte: u8) -> KissFed
        // What it says is what the definition says of the octets so far and this one.
        ensures verdict { parts_ended result self.new ≡ kiss_parts (self.old.heard ++ byte ∷ []) }
        ensures frame { (result ≡ KissFed.Frame) ↔ IsSome self.new.frame }
        ensures inside { byte ≢ fend → result ≡ KissFed.More }

        // Whatever comes later, the parts are this one and those that come after it.
        ensures parts { (later : List ℕ) → kiss_parts (self.old.heard ++ byte ∷ later)
            ≡ parts_ended result self.new ++ kiss_parts (self.new.heard ++ later) }
        ensures frames { (later : List ℕ) → kiss_frames (self.old.heard ++ byte ∷ later)
            ≡ frames_ended result self.new ++ kiss_frames (self.new.heard ++ later) }

        // No part is kept back that is ended.
        ensures no_part { kiss_parts self.new.heard ≡ [] }
        ensures no_frame { kiss_frames self.new.heard ≡ [] }
    {
        if self.state == State::Within && byte != FEND && byte != FESC && !self.text.is_full() {
            push_itself(&mut self.text, byte);
            return KissFed::More;
        }
        let (state, fed) = step(self.state, &mut self.text, byte);
        self.state = state;
        fed
    }

    /// Takes octets from the front, as far as they stand for themselves within a part, and says how many: maybe none.
    /// They end nothing. It does at once what [`feed`](KissReader::feed) does an octet at a time. Takes no memory.
    #[inline]
    pub fn pass(&mut self, octets: &[u8]) -> usize
        ensures within { result ≤ length octets.now }
        ensures heard { self.new.heard ≡ self.old.heard ++ take result octets.now }
        ensures none { result ≡ 0 → self.new ≡ self.old }
        ensures frame { 0 < result → self.new.frame ≡ None }

        // Neither they nor fewer of them end anything.
        ensures no_part { (n : ℕ) → n ≤ result → kiss_parts (self.old.heard ++ take n octets.now) ≡ [] }
        ensures no_frame { (n : ℕ) → n ≤ result → kiss_frames (self.old.heard ++ take n octets.now) ≡ [] }
    {
        if self.state != State::Within {
            return 0;
        }
        let count = plain_front(octets).min(self.text.remaining_capacity());
        self.text.try_extend_from_slice(&octets[..count]).unwrap();
        count
    }

    /// The octets of the frame after its type octet, at most 400. The last `feed` has to have
    /// answered `Frame`. Takes no memory.
    pub fn frame(&self) -> &[u8]
        requires { IsSome self.now.frame }
        ensures octets { Some result.now ≡ self.now.frame }
        ensures len { length result.now ≤ 400 }
    {
        &self.text[1..]
    }
}

/// How many octets at the front stand for themselves within a part: those before the first FEND or FESC.
#[inline]
fn plain_front(octets: &[u8]) -> usize
    ensures within { result ≤ length octets.now }
    ensures plain { All IsPlain (take result octets.now) }
{
    octets
        .iter()
        .position(|octet| *octet == FEND || *octet == FESC)
        .unwrap_or(octets.len())
}

/// Keeps an octet of a part that stands for itself. Most octets do, so `feed` looks at them first.
#[inline]
fn push_itself(text: &mut ArrayVec<u8, MOST_TEXT>, octet: u8)
    requires room { length text.old.items < MOST_TEXT }
    requires no_end { octet ≢ fend }
    requires no_escape { octet ≢ fesc }
    ensures { IsStep State.Within text.old.items octet State.Within text.new.items KissFed.More }
{
    text.push(octet);
}

/// Where a reader stands after an octet, and what that octet ended.
#[inline(never)]
fn step(state: State, text: &mut ArrayVec<u8, MOST_TEXT>, octet: u8) -> (State, KissFed)
    ensures { IsStep state text.old.items octet result.0 text.new.items result.1 }
{
    if octet != FEND {
        return (advance(state, text, octet), KissFed::More);
    }
    let fed = verdict(state, text);
    if fed == KissFed::Frame {
        return (State::Framed, fed);
    }
    text.clear();
    (State::Within, fed)
}

/// Where a reader stands after an octet that isn't FEND ("Transparency").
fn advance(state: State, text: &mut ArrayVec<u8, MOST_TEXT>, octet: u8) -> State
    requires { octet ≢ fend }
    ensures parts { (later : List ℕ) → kiss_parts (heard_in state text.old.items ++ octet ∷ later)
        ≡ kiss_parts (heard_in result text.new.items ++ later) }
    ensures no_frame { frame_in result text.new.items ≡ None }
{
    match state {
        State::Waiting => State::Waiting,
        State::Spoilt => State::Spoilt,
        State::Within => advance_within(text, octet),
        State::Escaped => advance_escaped(text, octet),
        State::Framed => {
            text.clear();
            advance_within(text, octet)
        }
    }
}

/// Where a reader stands after an octet of a part.
fn advance_within(text: &mut ArrayVec<u8, MOST_TEXT>, octet: u8) -> State
    requires { octet ≢ fend }
    ensures parts { (later : List ℕ) → kiss_parts (fend ∷ escape text.old.items ++ octet ∷ later)
        ≡ kiss_parts (heard_in result text.new.items ++ later) }
    ensures no_frame { frame_in result text.new.items ≡ None }
{
    if octet == FESC {
        State::Escaped
    } else {
        keep(text, octet)
    }
}

/// Where a reader stands after an octet that follows FESC.
fn advance_escaped(text: &mut ArrayVec<u8, MOST_TEXT>, octet: u8) -> State
    requires { octet ≢ fend }
    ensures parts { (later : List ℕ) → kiss_parts (heard_in State.Escaped text.old.items ++ octet ∷ later)
        ≡ kiss_parts (heard_in result text.new.items ++ later) }
    ensures no_frame { frame_in result text.new.items ≡ None }
{
    match octet {
        TFEND => keep(text, FEND),
        TFESC => keep(text, FESC),
        _ => State::Spoilt,
    }
}

/// Keeps an unescaped octet, where there is room for it.
fn keep(text: &mut ArrayVec<u8, MOST_TEXT>, octet: u8) -> State
    ensures parts { (later : List ℕ) → kiss_parts (fend ∷ (escape (text.old.items ++ octet ∷ []) ++ later))
        ≡ kiss_parts (heard_in result text.new.items ++ later) }
    ensures no_frame { frame_in result text.new.items ≡ None }
{
    if text.is_full() {
        return State::Spoilt;
    }
    text.push(octet);
    State::Within
}

/// What a FEND ends.
fn verdict(state: State, text: &ArrayVec<u8, MOST_TEXT>) -> KissFed
    ensures parts { (later : List ℕ) → kiss_parts (heard_in state text.now.items ++ fend ∷ later)
        ≡ parts_ended_in result text.now.items ++ kiss_parts (fend ∷ later) }
    ensures frame { result ≡ KissFed.Frame → 0 < length text.now.items }
{
    match state {
        State::Waiting => KissFed::More,
        State::Framed => KissFed::More,
        State::Escaped => KissFed::Dropped,
        State::Spoilt => KissFed::Dropped,
        State::Within => verdict_on(text),
    }
}

/// What the unescaped octets between two FENDs are ("Control of the KISS TNC").
fn verdict_on(text: &[u8]) -> KissFed
    requires { length text.now ≤ 401 }
    ensures parts { parts_ended_in result text.now ≡ parts_of_text text.now }
    ensures frame { result ≡ KissFed.Frame → 0 < length text.now }
{
    match text {
        [] => KissFed::More,
        [DATA_ON_PORT_0, ..] => KissFed::Frame,
        _ => KissFed::Passed,
    }
}
