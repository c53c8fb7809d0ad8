//! A station of AX.25, as a node drives it.

ghost use Rattle.std.specs.Prelude.{◌≡◌, ◌<◌, [], ◌∷◌, false, true, ⊤};
ghost use Rattle.px_base.specs.CallSign.{CallSign};
ghost use Rattle.ax25_frames.specs.Kinds.{FitsControl};
ghost use Rattle.ax25_frames.specs.Values.{value_of};
ghost use Rattle.kiss.specs.KissText.{kiss_text};
ghost use Rattle.disk_model.specs.AtDisk.{at};
ghost use Rattle.turn_loop.specs.Course.{Course, GaveAll, GivesNext, IsLawful, OwesBy};
ghost use Rattle.turn_loop.specs.Events.{IsFor, NodeEvent, hears, ticks};

use crate::NodeStop;
use arrayvec::ArrayVec;
use ax25_frames::Frame;
use disk_model::Disk;
use px_base::Moment;

/// A station of AX.25 over a disk of this kind: frames for it and ticks go in, and frames come out. Its course is
/// what its owner says of it; the text that it gives is the KISS text of its frames.
pub trait Station<D: Disk> {
    /// Whose frames it hears.
    ghost me: { Self → CallSign };

    /// Over which events it comes from where to where, and what it gives.
    ghost course: { Course Self D NodeEvent };

    /// Hears a frame for it at this moment.
    ///
    /// An error: it halts at this frame, and takes nothing more. The stop is the one of that halt: `Disk` or
    /// `OutOfMemory`.
    fn hear(&mut self, disk: &mut D, frame: &Frame<'_>, moment: Moment) -> Result<(), NodeStop>
        requires fit { course.is_fit (at self.old disk.old) }
        requires frame { IsFor (me self.old) (value_of frame.now) }
        requires numbers { FitsControl (value_of frame.now).kind.control }
        ensures takes { OwesBy course (at self.old disk.old) (hears (value_of frame.now) moment ∷ []) result
            (at self.new disk.new) }
        ensures me { me self.new ≡ me self.old };

    /// Takes the clock's going on to this moment.
    ///
    /// An error: it halts at this tick, and takes nothing more. The stop is the one of that halt: `Disk` or
    /// `OutOfMemory`.
    fn tick(&mut self, disk: &mut D, moment: Moment) -> Result<(), NodeStop>
        requires { course.is_fit (at self.old disk.old) }
        ensures takes { OwesBy course (at self.old disk.old) (ticks moment ∷ []) result (at self.new disk.new) }
        ensures me { me self.new ≡ me self.old };

    /// Replaces `frame` by the octets of the next frame that is to be sent. It is false where none is.
    fn next_out(&mut self, disk: &mut D, frame: &mut ArrayVec<u8, 400>) -> bool
        ensures next { result ≡ true → GivesNext course (at self.old disk.old) (kiss_text frame.new.items)
            (at self.new disk.new) }
        ensures fewer { result ≡ true → course.most self.new < course.most self.old }
        ensures all { result ≡ false → GaveAll course (at self.old disk.old) (at self.new disk.new) }
        ensures me { me self.new ≡ me self.old };

    /// Whether it takes no further turn.
    fn is_over(&self) -> bool
        ensures { result ≡ course.is_over self.now };

    /// Its course is lawful.
    fn is_lawful()
        ensures { IsLawful course (λ event. ⊤) };
}
