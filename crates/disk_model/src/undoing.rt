//! How writes are undone.

ghost use Rattle.std.specs.Prelude.{◌≡◌, ◌++◌, length, take, drop, IfOk, OnOk, OnErr};
ghost use Rattle.disk_model.specs.Surface.{overlay};
ghost use Rattle.disk_model.specs.Undone.{WritesKeeping, before_writes, found_by};

use crate::open_write::OpenWrite;
use crate::overwriting::overwrite;
use px_base::OutOfMemory;

/// Writes octets over the content, as `overwrite` does, and puts those that stood in their range behind the ones
/// that were kept. It gives how many these are. Where there is no memory, or where they would end past the most octets
/// of a disk, it changes nothing. Takes memory.
pub(crate) fn overwrite_keeping(
    content: &mut Vec<u8>,
    kept: &mut Vec<u8>,
    at: u64,
    bytes: &[u8],
) -> Result<usize, OutOfMemory>
    ensures ok { OnOk result
        (WritesKeeping at bytes.now content.old.items content.new.items kept.old.items kept.new.items) }
    ensures found { IfOk result (λ found. found ≡ length (found_by content.old.items at bytes.now)) }
    ensures content { OnErr result (content.new.items ≡ content.old.items) }
    ensures kept { OnErr result (kept.new.items ≡ kept.old.items) }
{
    let before = kept.len();
    keep_range(kept, content.as_slice(), at, bytes.len() as u64)?;
    if overwrite(content, at, bytes).is_err() {
        kept.truncate(before);
        return Err(OutOfMemory);
    }
    Ok(kept.len() - before)
}

/// Puts so many octets from this place on, as far as there are octets, behind those that were kept, or changes nothing
/// where there is no memory.
fn keep_range(kept: &mut Vec<u8>, octets: &[u8], at: u64, count: u64) -> Result<(), OutOfMemory>
    ensures ok { OnOk result (kept.new.items ≡ kept.old.items ++ take count (drop at octets.now)) }
    ensures err { OnErr result (kept.new.items ≡ kept.old.items) }
{
    // What is written at the end finds none.
    if at < octets.len() as u64 {
        kept.extend_from_slice(range_of(octets, at, count))?;
    }
    Ok(())
}

/// So many octets from this place on, as far as there are octets.
fn range_of(octets: &[u8], at: u64, count: u64) -> &[u8]
    ensures { result.now ≡ take count (drop at octets.now) }
{
    let length = octets.len() as u64;
    let start = at.min(length);
    &octets[start as usize..at.saturating_add(count).min(length) as usize]
}

/// Undoes these writes, the latest first: puts the octets that each found in their place, and keeps those that it wrote
/// in place of them. It costs the octets that they found. What was written behind the end stays.
pub(crate) fn undo(octets: &mut [u8], writes: &[OpenWrite], kept: &mut [u8])
    ensures { octets.new ≡ before_writes writes.now kept.old octets.old }
{
    let mut end = kept.len();
    for i in (0..writes.len()).rev() {
        let start = end.saturating_sub(writes[i].found);
        exchange(octets, writes[i].at, &mut kept[start..end]);
        end = start;
    }
}

/// Puts octets in the place of those at this place, as far as there are octets, and those in place of these.
fn exchange(octets: &mut [u8], at: u64, others: &mut [u8])
    ensures octets { octets.new ≡ overlay octets.old at others.old }
    ensures others { length others.new ≡ length others.old }
{
    let start = at.min(octets.len() as u64) as usize;
    let count = others.len().min(octets.len() - start);
    octets[start..start + count].swap_with_slice(&mut others[..count]);
}
