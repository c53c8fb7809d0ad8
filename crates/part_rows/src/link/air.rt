//! A row of two links over an air that loses, repeats and displaces frames.

ghost use Rattle.ax25_link.specs.Window.{IsGoodK};

use crate::link::draws::Draws;
use crate::link::frames;
use crate::link::row::window;
use crate::link::side::{Found, Side};
use anyhow::Result;
use ax25_link::Link;
use row_words::{text_of, three_parts};
use std::alloc::Global;

/// How many steps are drawn.
const STEPS: u32 = 8000;

/// How many steps without loss there are at most after them.
const MOST_LAST_STEPS: u32 = 20_000;

/// Two stations, and the air between them.
#[derive(Drop)]
struct Air {
    caller: Side,
    called: Side,
    draws: Draws,
    /// The window.
    k: u8,
    /// With how many later frames sent a frame may be delivered late.
    most_later: usize,
    ghost window: { IsGoodK k },
}

/// Plays a row of a seed, a window, and how many later frames more than is lawful there may be.
pub fn play(alloc: Global, numbers: &str) -> Result<String> {
    let (seed, k, late) = three_parts(numbers, ' ')?;
    let draws = Draws::new(seed.parse::<u64>()?);
    let mut air = Air::new(alloc, draws, window(k)?, late.parse::<usize>()?)?;
    air.play(alloc)
}

impl Air {
    /// Two new links with this window, and an air that delivers frames late while at most 7 - k + `late` later ones
    /// have been sent.
    fn new(alloc: Global, draws: Draws, k: u8, late: usize) -> Result<Air>
        requires { IsGoodK k }
    {
        let (caller, called) = (frames::caller()?, frames::called()?);
        let calling = Link::call(alloc, caller, called, k)?;
        let answering = Link::answer(alloc, called, caller, k, true)?;
        Ok(Air {
            caller: Side::new(alloc, calling, 0),
            called: Side::new(alloc, answering, 1),
            draws,
            k,
            most_later: usize::from(7 - k).saturating_add(late),
        })
    }

    /// Plays the row.
    fn play(&mut self, alloc: Global) -> Result<String> {
        self.open()?;
        let step = self.run()?;
        self.shown(alloc, step)
    }

    /// SABM and UA are sent, and UA is delivered.
    fn open(&mut self) -> Result<()> {
        self.caller.hand_out()?;
        self.called.hand_out()?;
        self.caller.hear(self.called.newest_octets(), 1)
    }

    /// Plays all steps, or those until something is found, and says how many were drawn.
    fn run(&mut self) -> Result<u32> {
        for number in 1..=STEPS {
            self.step()?;
            if self.found().is_some() {
                return Ok(number);
            }
        }
        self.settle()?;
        Ok(STEPS)
    }

    /// What one of the stations found.
    fn found(&self) -> Option<Found> {
        self.caller.found.or(self.called.found)
    }

    /// A step that is drawn: a tick, a push, or a delivery.
    fn step(&mut self) -> Result<()> {
        match self.draws.below(16) {
            0 => self.tick(),
            what @ 1..=4 => self.push(what <= 2),
            what => self.carry(what % 2 == 1),
        }
    }

    /// Both stations get a tick.
    fn tick(&mut self) -> Result<()> {
        self.caller.tick()?;
        self.called.tick()
    }

    /// A station pushes 1 to 300 octets.
    fn push(&mut self, is_caller: bool) -> Result<()> {
        let count = self.draws.below(300) as usize + 1;
        if is_caller {
            self.caller.push(count)
        } else {
            self.called.push(count)
        }
    }

    /// A frame of a station is delivered or lost: in two of twelve cases one of the newest, once more or late; in one
    /// the next one is lost; else the next one is delivered.
    fn carry(&mut self, is_caller: bool) -> Result<()> {
        let how = self.draws.below(12);
        let back = if how <= 1 {
            Some(self.draws.below(11 - u64::from(self.k)))
        } else {
            None
        };
        if is_caller {
            carry_between(
                &mut self.caller,
                &mut self.called,
                how,
                back,
                self.most_later,
            )
        } else {
            carry_between(
                &mut self.called,
                &mut self.caller,
                how,
                back,
                self.most_later,
            )
        }
    }

    /// What is on the air is lost, and from then on nothing is, until each station has taken what the other pushed.
    fn settle(&mut self) -> Result<()> {
        self.caller.lose_all();
        self.called.lose_all();
        for _ in 0..MOST_LAST_STEPS {
            if self.is_whole() || self.found().is_some() {
                break;
            }
            self.carry_all()?;
        }
        Ok(())
    }

    /// Whether each station took as many octets as the other pushed.
    fn is_whole(&self) -> bool {
        self.caller.taken == self.called.pushed && self.called.taken == self.caller.pushed
    }

    /// The next frame of each station is delivered; if neither has one, both get a tick.
    fn carry_all(&mut self) -> Result<()> {
        let first = self.caller.next_place();
        if let Some(place) = first {
            self.caller
                .deliver(&mut self.called, place, self.most_later)?;
        }
        let second = self.called.next_place();
        if let Some(place) = second {
            self.called
                .deliver(&mut self.caller, place, self.most_later)?;
        }
        if first.is_none() && second.is_none() {
            self.tick()?;
        }
        Ok(())
    }

    /// What the row prints after this number of steps.
    fn shown(&self, alloc: Global, step: u32) -> Result<String> {
        if let Some(found) = self.found() {
            return text_of(alloc, format_args!("step {step}: {found:?}"));
        }
        let caller = shown_side(alloc, &self.caller, &self.called)?;
        let called = shown_side(alloc, &self.called, &self.caller)?;
        text_of(alloc, format_args!("caller {caller}; called {called}"))
    }
}

/// Delivers to a station the frame that is this far back among those that the other sent, or the next one, which is
/// lost if `how` is 2.
fn carry_between(
    from: &mut Side,
    to: &mut Side,
    how: u64,
    back: Option<u64>,
    most_later: usize,
) -> Result<()> {
    let place = match back {
        Some(later) => from.place_before_end(later as usize),
        None => from.next_place(),
    };
    match place {
        Some(place) if how != 2 => from.deliver(to, place, most_later),
        _ => Ok(()),
    }
}

/// What a station took, and how its frames came.
fn shown_side(alloc: Global, side: &Side, other: &Side) -> Result<String> {
    let taken = side.taken;
    let pushed = other.pushed;
    let pieces = side.pieces;
    let late = side.late;
    let repeated = side.repeated;
    text_of(
        alloc,
        format_args!("took {taken} of {pushed} in {pieces}, {late} late, {repeated} repeated"),
    )
}
