//! The turns of a node: octets in from the air, texts out to it, and the clock's moments.

ghost use Rattle.std.specs.Prelude.{◌≡◌, ◌<◌, ◌≤◌, [], ◌∷◌, length, IsSome, None, OnErr, OnOk};
ghost use Rattle.px_base.specs.Moments.{MomentsOf};
ghost use Rattle.disk_model.specs.AtDisk.{at};
ghost use Rattle.turn_loop.specs.Course.{OwesSome};
ghost use Rattle.turn_loop.specs.Inputs.{octets_at, tick_after, turn_inputs};
ghost use Rattle.turn_loop.specs.Turns.{AreHandedOver, IsMomentOf, SaysAll, Takes, TakesPiece, TookTurn, TookTurns};
ghost use Rattle.turn_loop.specs.Turns.{lent_party};

use crate::{Finished, MOST_SAID, NodeStop, Party, TurnTerms};
use arrayvec::ArrayVec;
use disk_model::Disk;
use px_base::{Air, AirDown, Clock, Moment, Polled, ROOM};

/// What a party gives is written here.
type Text = ArrayVec<u8, MOST_SAID>;

/// What the turns of a node are made with, kept from one to the next.
#[derive(Drop)]
struct Buffers {
    /// What a poll reads.
    room: [u8; ROOM],
    /// What the party gives.
    text: Text,
}

impl Buffers {
    fn new() -> Buffers {
        Buffers {
            room: [0; ROOM],
            text: ArrayVec::new(),
        }
    }
}

/// Says what the party has to give, and takes turns until it is over, or up to the end of the air, or as many polls
/// as may be made. A turn takes its moment, and then one poll. The octets are handed to the party, from their front
/// on, as far as they finish something, and what it then gives is said, each text by one put, before the next octet
/// is handed over. Then, where the moment isn't the one of the turn before, there is one tick, and what the party
/// then gives is said. A turn is whole: only between turns it is looked at whether the party is over.
///
/// An error: `AirRead` where a poll failed and the air's count of those rose, `AirWrite` where a put failed and its
/// count rose, and `Spent` where as many polls were made as may be. Where the party halts, what it still gives is
/// said, whatever becomes of that, and the error is `Disk` or `OutOfMemory`.
pub fn take_turns<D: Disk, P: Party<D>, A: Air, C: Clock>(
    party: &mut P,
    disk: &mut D,
    air: &mut A,
    clock: &mut C,
    terms: &TurnTerms,
) -> Result<Finished, NodeStop>
    requires { P.course.owes (at party.old disk.old) [] None [] (at party.old disk.old) }
    ensures turns { TookTurns AreHandedOver P.course A.Air C.given (lent_party party.old disk.old air.old clock.old)
        (lent_party party.new disk.new air.new clock.new) terms.now result }
    ensures clock { IsSome terms.now.given → clock.new ≡ clock.old }
{
    P::is_lawful();
    let mut buffers = Buffers::new();
    put_all(party, disk, air, &mut buffers.text)?;
    let mut last = None;
    for turn in 0..terms.polls {
        if party.is_over() {
            return Ok(Finished::Over(turn));
        }
        let moment = moment_of_turn(turn, terms, clock);
        if !take_turn(
            party,
            disk,
            air,
            &mut buffers,
            moment,
            last.unwrap_or(moment),
        )? {
            return Ok(Finished::Closed(turn + 1));
        }
        last = Some(moment);
    }
    if party.is_over() {
        Ok(Finished::Over(terms.polls))
    } else {
        Err(NodeStop::Spent)
    }
}

/// The moment of this turn, counted from 0: the first one's may have been taken before.
fn moment_of_turn<C: Clock>(turn: u64, terms: &TurnTerms, clock: &mut C) -> Moment
    ensures moment { IsMomentOf turn terms.now (C.given clock.old) (C.given clock.new) result }
    ensures clock { IsSome terms.now.given → clock.new ≡ clock.old }
{
    match terms.first {
        Some(first) if turn == 0 => first,
        _ => moment_given(terms.given, clock),
    }
}

/// The moment of a turn: the one that is given, or the clock's.
fn moment_given<C: Clock>(given: Option<Moment>, clock: &mut C) -> Moment
    ensures moment { MomentsOf given (C.given clock.old) (C.given clock.new) (result ∷ []) }
    ensures clock { IsSome given → clock.new ≡ clock.old }
{
    match given {
        Some(moment) => moment,
        None => clock.now(),
    }
}

/// Takes one turn at this moment: a poll, what it hands over, and a tick where the last one was at another moment. It
/// is false where the poll read the end of the air.
fn take_turn<D: Disk, P: Party<D>, A: Air>(
    party: &mut P,
    disk: &mut D,
    air: &mut A,
    buffers: &mut Buffers,
    moment: Moment,
    last: Moment,
) -> Result<bool, NodeStop>
    requires { P.course.is_fit (at party.old disk.old) }
    ensures { TookTurn P.course A.Air air.old air.new (at party.old disk.old) (at party.new disk.new)
        (λ next. turn_inputs next last moment) result }
{
    P::is_lawful();
    let text = &mut buffers.text;
    match air.poll(&mut buffers.room) {
        Ok(Polled::Bytes(count)) => {
            hear_octets(party, disk, air, &buffers.room[..count], moment, text)?;
            tick(party, disk, air, moment, last, text)?;
            Ok(true)
        }
        Ok(Polled::Quiet) => {
            tick(party, disk, air, moment, last, text)?;
            Ok(true)
        }
        Ok(Polled::End) => Ok(false),
        Err(_down) => Err(NodeStop::AirRead),
    }
}

/// Hands octets that were heard to the party, and says what it gives.
fn hear_octets<D: Disk, P: Party<D>, A: Air>(
    party: &mut P,
    disk: &mut D,
    air: &mut A,
    octets: &[u8],
    moment: Moment,
    text: &mut Text,
) -> Result<(), NodeStop>
    requires { P.course.is_fit (at party.old disk.old) }
    ensures { Takes P.course A.Air air.old air.new (at party.old disk.old) (at party.new disk.new)
        (octets_at moment octets.now) result }
{
    P::is_lawful();
    let mut piece = octets;
    while !piece.is_empty() {
        let taken = hear_piece(party, disk, air, piece, moment, text)?;
        piece = piece.split_at(taken).1;
    }
    Ok(())
}

/// Hands octets to the party, from the front of the piece, says what it gives, and tells how many it took.
fn hear_piece<D: Disk, P: Party<D>, A: Air>(
    party: &mut P,
    disk: &mut D,
    air: &mut A,
    piece: &[u8],
    moment: Moment,
    text: &mut Text,
) -> Result<usize, NodeStop>
    requires some { 0 < length piece.now }
    requires fit { P.course.is_fit (at party.old disk.old) }
    ensures { TakesPiece (Takes P.course A.Air air.old air.new (at party.old disk.old) (at party.new disk.new))
        (octets_at moment) piece.now result }
{
    match party.hear(disk, piece, moment) {
        Ok(taken) => {
            put_all(party, disk, air, text)?;
            Ok(taken)
        }
        Err(stop) => {
            // What it halts by is the answer, whatever becomes of saying the rest.
            let _ = put_all(party, disk, air, text);
            Err(stop)
        }
    }
}

/// Hands over a tick where the last one was at another moment, and says what the party gives.
fn tick<D: Disk, P: Party<D>, A: Air>(
    party: &mut P,
    disk: &mut D,
    air: &mut A,
    moment: Moment,
    last: Moment,
    text: &mut Text,
) -> Result<(), NodeStop>
    requires { P.course.is_fit (at party.old disk.old) }
    ensures { Takes P.course A.Air air.old air.new (at party.old disk.old) (at party.new disk.new)
        (tick_after last moment) result }
{
    P::is_lawful();
    if moment == last {
        return Ok(());
    }
    match party.tick(disk, moment) {
        Ok(()) => {
            put_all(party, disk, air, text)?;
            Ok(())
        }
        Err(stop) => {
            // What it halts by is the answer, whatever becomes of saying the rest.
            let _ = put_all(party, disk, air, text);
            Err(stop)
        }
    }
}

/// Says all that the party has to give, each text by one put.
fn put_all<D: Disk, P: Party<D>, A: Air>(
    party: &mut P,
    disk: &mut D,
    air: &mut A,
    text: &mut Text,
) -> Result<(), AirDown>
    requires { OwesSome P.course (at party.old disk.old) }
    ensures { SaysAll P.course A.Air air.old air.new (at party.old disk.old) (at party.new disk.new) result }
{
    while party.next_out(disk, text) {
        air.put(text)?;
    }
    Ok(())
}
