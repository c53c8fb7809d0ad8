//! A whole run of a stamper, over pieces.

ghost use Rattle.std.specs.Prelude.{◌≡◌, flat_map};
ghost use Rattle.pfh_items.specs.Stamp.{stamped};
ghost use Rattle.pfh_writer.specs.Given.{IsFaultlessFile, IsStampedSum};

use crate::Stamper;
use px_base::{Call, FileNumber, Moment};

/// Stamps a file that comes in these pieces, wherever they are cut: the new pieces joined are what [`stamp`](crate::stamp())
/// makes of all pieces joined. `sum` is the sum of the stamped header. Takes no memory.
pub fn stamp_pieces(pieces: &mut [Vec<u8>], number: FileNumber, by: Call, moment: Moment, sum: u16)
    requires faultless { IsFaultlessFile (flat_map (λ piece. piece.items) pieces.old) }
    requires sum { IsStampedSum (record { number = number; by = by; moment = moment })
        (flat_map (λ piece. piece.items) pieces.old) sum }
    ensures { flat_map (λ piece. piece.items) pieces.new
        ≡ stamped (record { number = number; by = by; moment = moment }) (flat_map (λ piece. piece.items) pieces.old) }
{
    let mut stamper = Stamper::new(number, by, moment, sum);
    for piece in pieces.iter_mut() {
        stamper.feed(piece.as_mut_slice());
    }
}
