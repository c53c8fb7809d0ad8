//! The disk as the layers above see it.

ghost use Rattle.std.specs.Prelude.{◌≡◌, ◌↔◌, ◌⊎◌, ℕ, ◌+◌, ◌^◌, ◌<◌, ◌≤◌, List, length, Option, IfSome, IfOk, OnErr};
ghost use Rattle.std.specs.Prelude.{OnOk, IsErr};
ghost use Rattle.px_base.specs.Outside.{HasCause};
ghost use Rattle.px_base.specs.Octets.{IsOctets};
ghost use Rattle.disk_model.specs.Disk.{AreAmong, FillsRoom, Follows, HasContent, IsTold, LeavesOpen, Only, Torn};
ghost use Rattle.disk_model.specs.Disk.{Writes};
ghost use Rattle.disk_model.specs.Moments.{OnlyFails, OnlyReads, SinceNow, TakesOneMoment, TimePasses};

use thiserror::Error;

/// A call of a disk failed, and its count of faults rose.
#[derive(Clone, Copy, Debug, PartialEq, Eq, Error)]
#[error("the disk failed")]
pub struct DiskFault;

/// A disk of at most 2^63 octets that may lose power at any moment, also within a call.
///
/// Between two syncs each written range, and the part past the end that was synced, may hold any octets after a crash,
/// and the length lies between that end and the present one; octets outside stay. After a sync that answered Ok, a
/// crash leaves what a read gives. A fault of `write_at` or `sync` leaves the disk as if the call were under way. A
/// disk may tell its content and what a crash may leave; forms in memory do, real ones don't, and where it isn't told
/// a clause on it asks nothing. It counts its faults, up to 2^64 - 1, and answers `DiskFault` exactly where a count
/// rose in that call. After a fault of `write_at` or `sync` it is used again only by a new recovery.
pub trait Disk {
    /// The octets that a read gives, where they are told.
    ghost content: { Self → Option (List ℕ) };

    /// What a crash at this moment may leave; nothing, where it isn't told.
    ghost images: { Self → List ℕ → Type 0 };

    /// How many calls of `write_at` and `sync` were made, where it is told; one that failed may be left out.
    ghost moment: { Self → ℕ };

    /// What a crash at some moment from that one on might have left, during a call or between two.
    ghost images_since: { Self → ℕ → List ℕ → Type 0 };

    /// How often `len` and `read` failed.
    ghost read_faults: { Self → ℕ };

    /// How often `write_at` and `sync` failed.
    ghost write_faults: { Self → ℕ };

    /// The disk is down, by a write that failed: from then on each write and sync fails and changes nothing.
    ghost is_down: { Self → Type 0 };

    /// What a disk of a special kind keeps through its calls, between the disk before and the disk after some of them;
    /// one without such things says nothing by it.
    ghost lasts: { Self → Self → Type 0 };

    /// The number of octets, at most 2^63.
    fn len(&mut self) -> Result<u64, DiskFault>
        ensures len { IfOk result (λ n. IfSome (content self.old) (λ octets. n ≡ length octets)) }
        ensures most { IfOk result (λ n. n ≤ 2 ^ 63) }
        ensures only_reads { OnlyReads content images moment images_since write_faults self.old self.new }
        ensures read_faults { HasCause (read_faults self.old) (read_faults self.new) result }
        ensures down { is_down self.new ↔ is_down self.old }
        ensures lasts { lasts self.old self.new };

    /// Fills the room with the octets from this place on; they have to be there.
    fn read(&mut self, at: u64, room: &mut [u8]) -> Result<(), DiskFault>
        requires { IfSome (content self.old) (λ octets. at + length room.old ≤ length octets) }
        ensures room { OnOk result
            (IfSome (content self.old) (λ octets. FillsRoom octets at (length room.old) room.new)) }
        ensures only_reads { OnlyReads content images moment images_since write_faults self.old self.new }
        ensures read_faults { HasCause (read_faults self.old) (read_faults self.new) result }
        ensures down { is_down self.new ↔ is_down self.old }
        ensures lasts { lasts self.old self.new };

    /// Writes octets over what is there, and past the end; a gap before them holds any octets. A range that would end
    /// past 2^63 is a fault that changes nothing. Until a sync, a crash may leave any octets in the range, also after a
    /// fault; but for one of a disk that is down, which changes nothing.
    fn write_at(&mut self, at: u64, bytes: &[u8]) -> Result<(), DiskFault>
        ensures written { OnOk result (HasContent (content self.old) (content self.new) (Writes at bytes.now)) }
        ensures told { IsTold (content self.old) → IsTold (content self.new) }
        ensures untold { IsTold (content self.new) → IsTold (content self.old) }
        ensures torn { Follows (Torn at (length bytes.now)) (images self.old) (images self.new) }
        ensures open { LeavesOpen is_down images at (length bytes.now) self.old self.new }
        ensures kept { AreAmong (images self.old) (images self.new) }
        ensures far { 2 ^ 63 < at + length bytes.now
            → OnlyFails content images moment images_since self.old self.new result }
        ensures down { is_down self.old → OnlyFails content images moment images_since self.old self.new result }
        ensures stays_down { is_down self.old → is_down self.new }
        ensures goes_down { is_down self.new → is_down self.old ⊎ (IsErr result × (at + length bytes.now ≤ 2 ^ 63)) }
        ensures moment { TakesOneMoment (content self.old) (moment self.old) (moment self.new) result }
        ensures past { TimePasses moment images images_since self.old self.new }
        ensures since_now { SinceNow moment images images_since self.old self.new }
        ensures read_faults { read_faults self.new ≡ read_faults self.old }
        ensures write_faults { HasCause (write_faults self.old) (write_faults self.new) result }
        ensures lasts { lasts self.old self.new };

    /// After it, a crash leaves what a read gives; after a fault, what it might have left before.
    fn sync(&mut self) -> Result<(), DiskFault>
        ensures durable { OnOk result (IfSome (content self.old) (Only (images self.new))) }
        ensures content { content self.new ≡ content self.old }
        ensures images { AreAmong (images self.new) (images self.old) }
        ensures kept { OnErr result (AreAmong (images self.old) (images self.new)) }
        ensures down { is_down self.old → OnlyFails content images moment images_since self.old self.new result }
        ensures stays_down { is_down self.new ↔ is_down self.old }
        ensures moment { TakesOneMoment (content self.old) (moment self.old) (moment self.new) result }
        ensures past { TimePasses moment images images_since self.old self.new }
        ensures since_now { SinceNow moment images images_since self.old self.new }
        ensures read_faults { read_faults self.new ≡ read_faults self.old }
        ensures write_faults { HasCause (write_faults self.old) (write_faults self.new) result }
        ensures lasts { lasts self.old self.new };

    /// What a read gives is one of the images.
    ghost content_is_image: { (disk : Self) → IfSome (content disk) (images disk) };

    /// Each image is octets, at most 2^63 of them.
    ghost images_fit: { (disk : Self) (image : List ℕ) → images disk image → IsOctets image × (length image ≤ 2 ^ 63) };

    /// This moment is one of those since an earlier one.
    ghost counts_now: { (disk : Self) (t : ℕ) (image : List ℕ)
        → t ≤ moment disk → images disk image → images_since disk t image };

    /// What might have been left since a moment might have been left since an earlier one.
    ghost earlier: { (disk : Self) (t u : ℕ) (image : List ℕ)
        → t ≤ u → images_since disk u image → images_since disk t image };

    /// What lasts, lasts where nothing is called.
    ghost lasts_same: { (disk : Self) → lasts disk disk };

    /// What lasts from one disk to the next and from that to a third lasts from the first to the third.
    ghost lasts_on: { (first second third : Self) → lasts first second → lasts second third → lasts first third };
}
