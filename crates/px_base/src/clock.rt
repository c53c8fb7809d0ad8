//! The clock.

ghost use Rattle.std.specs.Prelude.{ℕ, List, Option};
ghost use Rattle.px_base.specs.Moments.{Gives};

use crate::Moment;

/// What gives the moment. It can't fail, and may tell the moments that it gave; the form in memory does, the real one
/// doesn't. Nothing says that moments rise.
pub trait Clock {
    /// The moments given so far, where they are told.
    ghost given: { Self → Option (List ℕ) };

    /// The moment.
    fn now(&mut self) -> Moment
        ensures { Gives (given self.old) (given self.new) result };
}
