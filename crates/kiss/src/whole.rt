//! The parts of a whole list of octets, and of a list that comes in pieces.

ghost use Rattle.std.specs.Prelude.{◌≡◌, ℕ, List, [], ◌∷◌, ◌++◌, map, ◌<◌, ◌≤◌, length, drop, None, IfOk, OnOk, IsSome, IfSome, IfNone};
ghost use Rattle.std.specs.Option.{option_map};
ghost use Rattle.std.specs.List.{flat_map};
ghost use Rattle.kiss.specs.KissText.{fend, HasNoFend, part_of, part_of_text, with_front, unescape, kiss_parts, kiss_frames};
ghost use Rattle.kiss.specs.Hearing.{parts_ended};

use crate::octets::{DATA_ON_PORT_0, FEND, FESC, MOST_OCTETS, TFEND, TFESC};
use crate::reader::{KissFed, KissReader};
use px_base::{FileBytes, OutOfMemory};
use std::alloc::Global;

/// What stands between two FENDs ("Asynchronous Frame Format").
#[derive(Debug, Drop)]
pub enum Part {
    /// A frame on port 0, of at most 400 octets after its type octet.
    Frame(FileBytes),
    /// A part with an ill escape, or with more than 400 octets after its type octet.
    Dropped,
    /// A part that isn't dropped and whose type octet isn't data on port 0.
    Passed,
}

/// The parts of a list of octets, in order. This is the definition as a plain and slow program: it
/// looks for each FEND, and copies each frame. `Err` only where memory runs out.
pub fn parts(alloc: Global, octets: &[u8]) -> Result<Vec<Part>, OutOfMemory>
    ensures { IfOk result (λ parts. parts.items ≡ kiss_parts octets.now) }
{
    let mut parts = Vec::new(alloc);
    let Some((_, mut rest)) = at_fend(octets) else {
        return Ok(parts);
    };
    while let Some((piece, after)) = at_fend(rest) {
        if !piece.is_empty() {
            parts.push(part_between(alloc, piece)?)?;
        }
        rest = after;
    }
    Ok(parts)
}

/// The parts of octets that come in these pieces, in order, as a [`KissReader`] gives them. It
/// doesn't matter where the octets are cut. `Err` only where memory runs out.
pub fn parts_of_pieces(alloc: Global, pieces: &[FileBytes]) -> Result<Vec<Part>, OutOfMemory>
    ensures { IfOk result (λ parts. parts.items ≡ kiss_parts (flat_map (λ piece. piece) pieces.now)) }
{
    let mut reader = KissReader::new();
    let mut parts = Vec::new(alloc);
    for piece in pieces {
        hear(alloc, &mut reader, piece.as_slice(), &mut parts)?;
    }
    Ok(parts)
}

/// Feeds a piece to a reader, and adds the parts that it ends.
fn hear(
    alloc: Global,
    reader: &mut KissReader,
    piece: &[u8],
    parts: &mut Vec<Part>,
) -> Result<(), OutOfMemory>
    requires { kiss_parts reader.old.heard ≡ [] }
    ensures parts { OnOk result ((later : List ℕ) → parts.new.items ++ kiss_parts (reader.new.heard ++ later)
        ≡ parts.old.items ++ kiss_parts (reader.old.heard ++ (piece.now ++ later))) }
    ensures no_part { OnOk result (kiss_parts reader.new.heard ≡ []) }
{
    for &octet in piece {
        let fed = reader.feed(octet);
        add_ended(alloc, fed, reader, parts)?;
    }
    Ok(())
}

/// Adds the part that a reader's answer says was ended.
fn add_ended(
    alloc: Global,
    fed: KissFed,
    reader: &KissReader,
    parts: &mut Vec<Part>,
) -> Result<(), OutOfMemory>
    requires { fed ≡ KissFed.Frame → IsSome reader.now.frame }
    ensures { OnOk result (parts.new.items ≡ parts.old.items ++ parts_ended fed reader.now) }
{
    match fed {
        KissFed::More => {}
        KissFed::Frame => parts.push(frame_part(alloc, reader.frame())?)?,
        KissFed::Dropped => parts.push(Part::Dropped)?,
        KissFed::Passed => parts.push(Part::Passed)?,
    }
    Ok(())
}

/// A frame with these octets.
fn frame_part(alloc: Global, octets: &[u8]) -> Result<Part, OutOfMemory>
    ensures { IfOk result (λ part. part ≡ Part.Frame octets.now) }
{
    Ok(Part::Frame(FileBytes::copy_of(alloc, octets)?))
}

/// What stands before the first FEND, and after it.
fn at_fend(octets: &[u8]) -> Option<(&[u8], &[u8])>
    ensures found { IfSome result (λ cut. HasNoFend cut.0.now × (octets.now ≡ cut.0.now ++ fend ∷ cut.1.now)) }
    ensures none { IfNone result (HasNoFend octets.now) }
{
    for (index, &octet) in octets.iter().enumerate() {
        if octet == FEND {
            return Some((&octets[..index], &octets[index + 1..]));
        }
    }
    None
}

/// What a piece between two FENDs is.
fn part_between(alloc: Global, piece: &[u8]) -> Result<Part, OutOfMemory>
    ensures { IfOk result (λ part. part ≡ part_of (unescape piece.now)) }
{
    match unescaped(alloc, piece)? {
        None => Ok(Part::Dropped),
        Some(text) => part_with_text(alloc, &text),
    }
}

/// What unescaped octets are ("Control of the KISS TNC").
fn part_with_text(alloc: Global, text: &[u8]) -> Result<Part, OutOfMemory>
    ensures { IfOk result (λ part. part ≡ part_of_text text.now) }
{
    match text {
        [] => Ok(Part::Dropped),
        [_, octets @ ..] if octets.len() > MOST_OCTETS => Ok(Part::Dropped),
        [DATA_ON_PORT_0, octets @ ..] => frame_part(alloc, octets),
        _ => Ok(Part::Passed),
    }
}

/// The octets that a piece was sent for, `None` where it has an ill escape ("Transparency").
fn unescaped(alloc: Global, piece: &[u8]) -> Result<Option<Vec<u8>>, OutOfMemory>
    ensures { IfOk result (λ text. option_map (λ octets. octets.items) text ≡ unescape piece.now) }
{
    let mut text = Vec::new(alloc);
    let mut at = 0;
    while at < piece.len() {
        let Some((octet, len)) = first_octet(&piece[at..]) else {
            return Ok(None);
        };
        text.push(octet)?;
        at += len;
    }
    Ok(Some(text))
}

/// The first octet that a piece was sent for, and how many octets of the piece stand for it.
/// `None` where the piece begins with an ill escape ("Transparency").
fn first_octet(piece: &[u8]) -> Option<(u8, usize)>
    requires { 0 < length piece.now }
    ensures found { IfSome result (λ first. unescape piece.now ≡ with_front first.0 (unescape (drop first.1 piece.now))) }
    ensures len { IfSome result (λ first. (0 < first.1) × (first.1 ≤ length piece.now)) }
    ensures none { IfNone result (unescape piece.now ≡ None) }
{
    if piece[0] != FESC {
        return Some((piece[0], 1));
    }
    match piece.get(1) {
        Some(&TFEND) => Some((FEND, 2)),
        Some(&TFESC) => Some((FESC, 2)),
        _ => None,
    }
}
