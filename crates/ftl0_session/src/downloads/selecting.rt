//! The files that match a selection.

ghost use Rattle.std.specs.Prelude.{◌≡◌, ◌≤◌, [], length, IsErrOf, IfOk, OnOk};
ghost use Rattle.file_store.specs.Headers.{header_items};
ghost use Rattle.file_store.specs.Reads.{MayRead, OnlyReads};
ghost use Rattle.file_store.specs.State.{IsKnown, IsReady, store_in, store_on};
ghost use Rattle.selection.specs.Meaning.{holds as holds_of};
ghost use Rattle.selection.specs.Values.{tree_of};
ghost use Rattle.ftl0_session.specs.Downloads.Needs.{AreFiles};
ghost use Rattle.ftl0_session.specs.Downloads.Table.{chosen, octets_in};

use crate::lists::MOST_NUMBERS;
use arrayvec::ArrayVec;
use disk_model::Disk;
use file_store::laws::state_law;
use file_store::{FileStore, HeaderFault, header_in};
use px_base::FileNumber;
use selection::Selection;

/// The numbers of a caller's list.
pub(crate) type Numbers = ArrayVec<u32, MOST_NUMBERS>;

/// The numbers of the complete files that match the selection, rising. It reads the header of each complete file. Takes
/// no memory.
pub(crate) fn chosen_files<D: Disk>(
    disk: &mut D,
    store: &mut FileStore,
    selection: &Selection,
) -> Result<Numbers, HeaderFault>
    requires { IsReady D.Disk store.old disk.old }
    ensures numbers { IfOk result (λ numbers. IsKnown D.Disk disk.old
        → numbers.items ≡ chosen (tree_of selection.now) (store_on D.Disk store.old disk.old).entries) }
    ensures complete { IfOk result (λ numbers. AreFiles (store_in store.old) numbers.items) }
    ensures there { IsErrOf result HeaderFault.NoHeader → ¬ IsKnown D.Disk disk.old }
    ensures reads { OnlyReads D.Disk (IsErrOf result HeaderFault.Disk) store.old store.new disk.old disk.new }
{
    // The entries' numbers rise, and there are at most 1,024.
    state_law(store);
    let mut numbers = ArrayVec::new();
    let mut above = FileNumber::new(0);
    while let Some(number) = store.numbers(above) {
        let holds = is_chosen(disk, store, number, selection)?;
        if holds {
            numbers.push(number.get());
        }
        above = number;
    }
    Ok(numbers)
}

/// Whether the header of a complete file matches the selection.
fn is_chosen<D: Disk>(
    disk: &mut D,
    store: &mut FileStore,
    number: FileNumber,
    selection: &Selection,
) -> Result<bool, HeaderFault>
    requires { MayRead D.Disk store.old disk.old number }
    ensures holds { IfOk result (λ holds. IsKnown D.Disk disk.old → holds ≡ holds_of (tree_of selection.now)
        (header_items (octets_in (store_on D.Disk store.old disk.old) number))) }
    ensures there { IsErrOf result HeaderFault.NoHeader → ¬ IsKnown D.Disk disk.old }
    ensures reads { OnlyReads D.Disk (IsErrOf result HeaderFault.Disk) store.old store.new disk.old disk.new }
{
    let header = store.header(disk, number)?;
    Ok(selection.holds(&header_in(header)))
}
