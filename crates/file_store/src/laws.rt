//! Laws of a store on a disk.

ghost use Rattle.std.specs.Prelude.{◌≡◌, ℕ, Some, IsTrue};
ghost use Rattle.file_store_model.specs.Info.{is_complete};
ghost use Rattle.file_store_model.specs.IsStore.{IsStore};
ghost use Rattle.file_store_model.specs.Store.{Entry, entry_of};
ghost use Rattle.file_store.specs.Laws.{ArmedLaw, HoldsInEach, ReceiptLaw, StandingLaw, StandsInEach, ToldLaw};
ghost use Rattle.file_store.specs.State.{IsRead, IsReady, store_in, store_on};
ghost use Rattle.file_store.specs.Upload.{Holds};

use crate::{FileStore, OpenUpload};
use disk_model::Disk;

/// What octets stand for: what their records make of no entries, with the octets that the blocks hold, and no other
/// store.
pub fn standing_law()
    ensures { StandingLaw }
{}

/// What a store is: its journal was read to its end, and its entries keep the rules. Takes no memory.
pub fn state_law(store: &FileStore)
    ensures read { IsRead store.now.journal }
    ensures rules { IsStore (store_in store.now) }
{
    store.read_law();
    let _info = store.info(store.next_number());
}

/// What a store is on a disk if it is known what its files hold: what memory shows of it, with the octets of its files.
/// Takes no memory.
pub fn told_law<D: Disk>(store: &FileStore, disk: &D)
    ensures { ToldLaw D.Disk store.now disk.now }
{
    state_law(store);
}

/// What an upload that is out knows: in every image of a disk on which the store is, its entry is under way and holds
/// at least the octets that the upload says. The store hasn't failed. Takes no memory.
pub fn token_law<D: Disk>(store: &FileStore, up: &OpenUpload, disk: &D)
    requires ready { IsReady D.Disk store.now disk.now }
    requires holds { Holds store.now up.now }
    ensures { HoldsInEach D.Disk up.now disk.now }
{
    store.read_law();
}

/// What stays of a file that is complete: in every image of a disk on which the store is, the entry is there as it is.
/// The store hasn't failed; each of its calls keeps each complete entry. Takes no memory.
pub fn complete_law<D: Disk>(store: &FileStore, disk: &D)
    requires { IsReady D.Disk store.now disk.now }
    ensures { (number : ℕ) (entry : Entry) → entry_of (store_on D.Disk store.now disk.now) number ≡ Some entry
        → IsTrue (is_complete entry.holding) → StandsInEach D.Disk number entry disk.now }
{
    store.read_law();
}

/// What a receipt is good for: its file's entry is there as it is in every image that later commands of the store
/// leave, at every moment of them and whether the disk failed in one or not.
pub fn receipt_law()
    ensures { ReceiptLaw }
{}

/// What arming a disk leaves: the store is on it as before. So it is of whatever leaves the disk's content, its moment,
/// and what a crash may leave or might have left.
pub fn armed_law<D: Disk>()
    ensures { ArmedLaw D.Disk }
{}
