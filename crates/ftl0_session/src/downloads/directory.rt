//! The headers of files that a directory command lists.

ghost use Rattle.std.specs.Prelude.{◌≡◌, ◌+◌, ◌*◌, ◌≤◌, ◌++◌, [], length, map, flat_map, IsErrOf, IfOk, OnOk};
ghost use Rattle.file_store.specs.Headers.{header_octets};
ghost use Rattle.file_store.specs.Reads.{MayRead, OnlyReads};
ghost use Rattle.file_store.specs.State.{IsKnown, store_in, store_on};
ghost use Rattle.ftl0_session.specs.Downloads.Needs.{AreStored, LiesIn, MayList};
ghost use Rattle.ftl0_session.specs.Downloads.Spans.{due_of};
ghost use Rattle.ftl0_session.specs.Downloads.Table.{header_due, long_due, octets_in, short_octets};

use crate::downloads::span::{MOST_LISTED, Span, Spans};
use arrayvec::ArrayVec;
use disk_model::Disk;
use file_store::{FileStore, HeaderFault, header_in};
use pfh_writer::short_form;
use px_base::FileNumber;

/// The length of a short form in octets.
pub(crate) const SHORT_LEN: usize = 73;

/// The short forms of as many files as a directory command lists.
pub(crate) type ShortForms = ArrayVec<u8, 730>;

/// Reads the headers of complete files, at most ten, and puts their short forms in place of what is there, one after
/// another. A fault leaves any octets there. Takes no memory.
pub(crate) fn read_short_forms<D: Disk>(
    disk: &mut D,
    store: &mut FileStore,
    numbers: &[u32],
    forms: &mut ShortForms,
) -> Result<(), HeaderFault>
    requires { MayList D.Disk store.old disk.old numbers.now }
    ensures forms { OnOk result (IsKnown D.Disk disk.old → forms.new.items ≡ flat_map
        (λ number. short_octets (octets_in (store_on D.Disk store.old disk.old) number)) numbers.now) }
    ensures there { IsErrOf result HeaderFault.NoHeader → ¬ IsKnown D.Disk disk.old }
    ensures reads { OnlyReads D.Disk (IsErrOf result HeaderFault.Disk) store.old store.new disk.old disk.new }
{
    forms.clear();
    for number in numbers {
        let form = read_short_form(disk, store, FileNumber::new(*number))?;
        forms.try_extend_from_slice(&form).unwrap();
    }
    Ok(())
}

/// Reads the header of a complete file, and gives its short form.
fn read_short_form<D: Disk>(
    disk: &mut D,
    store: &mut FileStore,
    number: FileNumber,
) -> Result<[u8; SHORT_LEN], HeaderFault>
    requires { MayRead D.Disk store.old disk.old number }
    ensures form { IfOk result (λ form. IsKnown D.Disk disk.old
        → form ≡ short_octets (octets_in (store_on D.Disk store.old disk.old) number)) }
    ensures there { IsErrOf result HeaderFault.NoHeader → ¬ IsKnown D.Disk disk.old }
    ensures reads { OnlyReads D.Disk (IsErrOf result HeaderFault.Disk) store.old store.new disk.old disk.new }
{
    let header = store.header(disk, number)?;
    Ok(short_form(&header_in(header)))
}

/// Reads the headers of complete files, at most ten, and gives where they lie. Takes no memory.
pub(crate) fn read_spans_of_headers<D: Disk>(
    disk: &mut D,
    store: &mut FileStore,
    numbers: &[u32],
) -> Result<Spans, HeaderFault>
    requires { MayList D.Disk store.old disk.old numbers.now }
    ensures spans { IfOk result (λ spans. IsKnown D.Disk disk.old
        → map due_of spans.items ≡ long_due (store_on D.Disk store.old disk.old) numbers.now) }
    ensures within { IfOk result (λ spans. AreStored (store_in store.old) (map due_of spans.items)) }
    ensures there { IsErrOf result HeaderFault.NoHeader → ¬ IsKnown D.Disk disk.old }
    ensures reads { OnlyReads D.Disk (IsErrOf result HeaderFault.Disk) store.old store.new disk.old disk.new }
{
    let mut spans = ArrayVec::new();
    for number in numbers {
        spans.push(read_span(disk, store, FileNumber::new(*number))?);
    }
    Ok(spans)
}

/// Reads the header of a complete file, and gives where it lies.
fn read_span<D: Disk>(
    disk: &mut D,
    store: &mut FileStore,
    number: FileNumber,
) -> Result<Span, HeaderFault>
    requires { MayRead D.Disk store.old disk.old number }
    ensures span { IfOk result (λ span. IsKnown D.Disk disk.old
        → due_of span ≡ header_due (store_on D.Disk store.old disk.old) number) }
    ensures within { IfOk result (λ span. LiesIn (store_in store.old) span.number span.place span.last) }
    ensures there { IsErrOf result HeaderFault.NoHeader → ¬ IsKnown D.Disk disk.old }
    ensures reads { OnlyReads D.Disk (IsErrOf result HeaderFault.Disk) store.old store.new disk.old disk.new }
{
    let header = store.header(disk, number)?;
    Ok(Span {
        number,
        place: 0,
        last: header.len() as u32,
    })
}
