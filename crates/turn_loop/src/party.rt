//! What a node drives.

ghost use Rattle.std.specs.Prelude.{◌≡◌, ℕ, ◌<◌, ◌≤◌, [], ◌∷◌, length, take, false, true, None, IfErr, IfOk};
ghost use Rattle.disk_model.specs.AtDisk.{at};
ghost use Rattle.turn_loop.specs.Course.{Course, GaveAll, GivesNext, HaltsWithin, IsLawful, OwesBy, OwesSome};
ghost use Rattle.turn_loop.specs.Inputs.{Input, IsInput, octets_at, tick};

use crate::NodeStop;
use arrayvec::ArrayVec;
use disk_model::Disk;
use px_base::Moment;

/// The most octets that a party gives at once.
pub const MOST_SAID: usize = 2049;

/// What a node drives over a disk of this kind: octets and ticks go in, and texts come out, each to be said by one
/// put of the air. Its course is what its owner says of it.
pub trait Party<D: Disk> {
    /// Over which inputs it comes from where to where, and what it gives.
    ghost course: { Course Self D Input };

    /// Takes octets that are heard at this moment, from the front of the piece, up to the end of what they finish: how
    /// many, and at least one.
    ///
    /// An error: it halts at what they finish, and takes nothing more. The stop is the one of that halt: `Disk` or
    /// `OutOfMemory`.
    fn hear(&mut self, disk: &mut D, piece: &[u8], moment: Moment) -> Result<usize, NodeStop>
        requires some { 0 < length piece.now }
        requires fit { course.is_fit (at self.old disk.old) }
        ensures some { IfOk result (λ taken. 0 < taken) }
        ensures within { IfOk result (λ taken. taken ≤ length piece.now) }
        ensures takes { IfOk result (λ taken. course.owes (at self.old disk.old)
            (octets_at moment (take taken piece.now)) None [] (at self.new disk.new)) }
        ensures halts { IfErr result (λ stop. HaltsWithin course (at self.old disk.old) (octets_at moment) piece.now
            stop (at self.new disk.new)) };

    /// Takes the clock's going on to this moment.
    ///
    /// An error: it halts at this tick, and takes nothing more. The stop is the one of that halt: `Disk` or
    /// `OutOfMemory`.
    fn tick(&mut self, disk: &mut D, moment: Moment) -> Result<(), NodeStop>
        requires { course.is_fit (at self.old disk.old) }
        ensures takes { OwesBy course (at self.old disk.old) (tick moment ∷ []) result (at self.new disk.new) };

    /// Replaces `text` by what is to be said next. It is false where nothing is.
    fn next_out(&mut self, disk: &mut D, text: &mut ArrayVec<u8, 2049>) -> bool
        requires owes { OwesSome course (at self.old disk.old) }
        ensures next { result ≡ true → GivesNext course (at self.old disk.old) text.new.items (at self.new disk.new) }
        ensures fewer { result ≡ true → course.most self.new < course.most self.old }
        ensures all { result ≡ false → GaveAll course (at self.old disk.old) (at self.new disk.new) };

    /// Whether it takes no further turn.
    fn is_over(&self) -> bool
        ensures { result ≡ course.is_over self.now };

    /// Its course is lawful.
    fn is_lawful()
        ensures { IsLawful course IsInput };
}
