//! A change of the entries, put on the disk.

ghost use Rattle.std.specs.Prelude.{◌≡◌, ◌∷◌, [], IsErr, OnErr, OnOk};
ghost use Rattle.file_journal.specs.Layout.{blocks_on};
ghost use Rattle.file_store.specs.Changes.{LetsBy, MakesOf, MayMake, command_by};
ghost use Rattle.file_store.specs.OnDisk.{Does};
ghost use Rattle.file_store.specs.State.{IsKnown, IsRead, IsReady, StandsOn, state_from};

use crate::change::EntriesChange;
use disk_model::{Disk, DiskFault};
use file_journal::Kept;
use file_store_blocks::Entries;

/// Makes a change of the entries that may be made, of a store that hasn't failed. After `Ok` a crash leaves the store
/// after its command, until then and after a fault that or the one before it. Two writes and two syncs, and one of each
/// more if octets are put in a block first; before them the records are written again if their half has no room for one
/// more. Takes no memory.
pub(crate) fn put_change<D: Disk>(
    kept: &mut Kept<Entries>,
    disk: &mut D,
    change: &EntriesChange,
) -> Result<(), DiskFault>
    requires ready { IsReady D.Disk (state_from kept.old.ledger.files kept.old.journal) disk.old }
    requires read { IsRead kept.old.journal }
    requires may { MayMake change.now kept.old.ledger }
    requires lets { IsKnown D.Disk disk.old
        → LetsBy change.now kept.old.ledger.files (blocks_on (D.content disk.old)) }
    ensures does { Does D.Disk (IsErr result) (state_from kept.old.ledger.files kept.old.journal)
        (state_from kept.new.ledger.files kept.new.journal) disk.old disk.new
        (command_by change.now kept.old.ledger.files ∷ []) }
    ensures stands_on { StandsOn D.Disk (state_from kept.new.ledger.files kept.new.journal) disk.new }
    ensures read { IsRead kept.new.journal }
    ensures makes { OnOk result (MakesOf change.now kept.old.ledger.files kept.new.ledger.files) }
    ensures err { OnErr result (kept.new.ledger ≡ kept.old.ledger) }
{
    kept.put(disk, change)
}
