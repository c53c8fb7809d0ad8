//! The disk as a rehearsal sees it, which arms it to fail and cuts its power.

ghost use Rattle.std.specs.Prelude.{◌≡◌, ℕ, List, Option, Bool, false};
ghost use Rattle.disk_model.specs.Cuts.{Arming, ArmsOnly, KeepsPast, LastsSo, LosesPower, Picks, ShowsWhatStands, cut_state};
ghost use Rattle.disk_model.specs.Cuts.{cuts_by};
ghost use Rattle.disk_model.specs.Surface.{Surface};

use crate::Disk;

/// A disk that can be armed to fail at a call, and that loses power. Its calls here answer no want of memory: where one
/// finds none, the disk is starved.
///
/// It is plain where no call of it is listed to fail, and no call changes that. A count of a plain disk rises only in a
/// call that the arming lets fail, or where the disk is starved then. That call is a moment of the disk, unless it is
/// starved then: so the moment tells how many calls were made.
pub trait CutDisk: Disk {
    /// The contents that the power cuts left, in order, where they are told.
    ghost restarts: { Self → Option (List (List ℕ)) };

    /// How it is armed.
    ghost arming: { Self → Arming };

    /// No call of it is listed to fail.
    ghost plain: { Self → Type 0 };

    /// Whether a call found no memory.
    ghost is_starved: { Self → Bool };

    /// What stands on it: what was synced, the ranges written since then, and what a read gives.
    ghost surface: { Self → Surface };

    /// Arms it: so many further calls of `write_at` and `sync` pass; the one after them fails, and so does every call
    /// after that, also of `len` and `read`, which pass before. With `None` it takes the arming away. It changes
    /// nothing else.
    fn arm(&mut self, calls: Option<u64>)
        ensures { ArmsOnly Self.Disk (cuts_by restarts arming plain is_starved) calls self.old self.new };

    /// Cuts its power: what a read gives from then on is one of what a crash might have left, which is picked by this
    /// number, as its remainder by 4 says: what was synced, what a read gave, one octet in each place that may have any,
    /// or octets that are drawn for these places. A crash leaves nothing else then, and the arming is gone. Where it
    /// finds no memory, the disk is starved.
    fn power_cut(&mut self, pick: u64)
        ensures left { is_starved self.new ≡ false
            → LosesPower Self.Disk (cuts_by restarts arming plain is_starved) self.old self.new }
        ensures picked { is_starved self.new ≡ false → Picks Self.Disk surface pick self.old self.new }
        ensures stays { KeepsPast Self.Disk (cuts_by restarts arming plain is_starved) self.old self.new };

    /// Whether a call found no memory.
    fn starved(&self) -> bool
        ensures { result ≡ is_starved self.now };

    /// What it tells as a disk is what stands on it.
    ghost shows: { (disk : Self) → ShowsWhatStands Self.Disk surface disk };

    /// What lasts through the calls of a disk, lasts so.
    ghost lasts_so: { (old new : Self) → Self.lasts old new
        → LastsSo (cut_state Self.Disk (cuts_by restarts arming plain is_starved) old)
        (cut_state Self.Disk (cuts_by restarts arming plain is_starved) new) };
}
