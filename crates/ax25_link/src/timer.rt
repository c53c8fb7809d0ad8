//! The timer of a link: ticks since it was set, and tries since the peer last answered (AX.25 2.0, 2.4.7.1,
//! 2.4.7.2).

ghost use Rattle.std.specs.Prelude.{◌≡◌, ◌+◌, ◌<◌, ◌≤◌};
ghost use Rattle.ax25_link.specs.Counting.{HasTicked};

/// How many ticks a frame waits for its answer: T1 (2.4.7.1.1).
pub(crate) const T1: u8 = 10;

/// How many ticks a link without outstanding frames is silent before it asks: T3 (2.4.7.1.3).
pub(crate) const T3: u8 = 60;

/// How many times in a row the timer may run out: N2 (2.4.7.2).
const MOST_TRIES: u8 = 10;

/// What a tick did.
#[derive(Clone, Copy)]
pub(crate) enum Expiry {
    /// The limit isn't reached.
    Waits,
    /// The limit is reached, and a frame is sent once more.
    Asks,
    /// The limit is reached, and the tries are used up.
    GivesUp,
}

/// Ticks and tries.
#[derive(Clone, Copy)]
pub(crate) struct Timer {
    pub(crate) ticks: u8,
    pub(crate) tries: u8,
}

/// No ticks, no tries.
pub(crate) const ANEW: Timer = Timer { ticks: 0, tries: 0 };

impl Timer {
    /// Counts a tick; `limit` ticks are the limit.
    pub(crate) fn tick(&mut self, limit: u8) -> Expiry
        requires { self.old.ticks < 255 }
        ensures { HasTicked result self.old self.new limit }
    {
        if self.ticks + 1 < limit {
            self.ticks += 1;
            return Expiry::Waits;
        }
        if self.tries >= MOST_TRIES {
            return Expiry::GivesUp;
        }
        self.tries += 1;
        self.ticks = 0;
        Expiry::Asks
    }
}
