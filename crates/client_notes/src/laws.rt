//! Laws of a client's notes.

ghost use Rattle.client_notes.specs.Laws.{AckedLaw, ArmedLaw, ForgotLaw, GotLaw, RecordsLaw, StandingLaw};
ghost use Rattle.client_notes.specs.OnDisk.{EachImage};
ghost use Rattle.client_notes.specs.Several.{OneLaw, SeveralLaw};
ghost use Rattle.client_notes.specs.State.{IsReady, StandsFor};
ghost use Rattle.client_notes.specs.Tasks.{TasksLaw};

use crate::Notes;
use disk_model::Disk;

/// A record is read as a command exactly where it is that command's record, and each command that can be written has
/// one.
pub fn records_law()
    ensures { RecordsLaw }
{}

/// What octets stand for: the notes after the commands that their records are, and no others.
pub fn standing_law()
    ensures { StandingLaw }
{}

/// What stands on a disk on which notes that haven't failed stand: in every image these notes. Takes no memory.
pub fn images_law<D: Disk>(notes: &Notes, disk: &D)
    requires { IsReady D.Disk notes.now disk.now }
    ensures { EachImage D.Disk disk.now (λ image. StandsFor image notes.now.lists) }
{
    notes.read_law();
}

/// What commands do to a disk: those of one list and then those of another do what both lists do, one after the other.
pub fn several_law<D: Disk>()
    ensures joined { SeveralLaw D.Disk }
    ensures one { OneLaw D.Disk }
{}

/// What becomes of a task that was acknowledged: it stays so.
pub fn acked_law()
    ensures { AckedLaw }
{}

/// What is got of a file: what was got before, and behind it what came; and nothing once it was given up.
pub fn got_law()
    ensures more { GotLaw }
    ensures none { ForgotLaw }
{}

/// What commands keep: each task with its file, its number once that is known, and as it was once it was acknowledged
/// or refused. What is got of a file grows at its end, or is given up.
pub fn tasks_law()
    ensures { TasksLaw }
{}

/// What arming a disk leaves: the notes stand on it as before. So it is of whatever leaves the disk's content, its
/// moment, and what a crash may leave or might have left.
pub fn armed_law<D: Disk>()
    ensures { ArmedLaw D.Disk }
{}
