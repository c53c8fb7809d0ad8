//! How octets are written over others.

ghost use Rattle.std.specs.Prelude.{◌≡◌, ◌+◌, ◌-◌, ◌≤◌, ◌^◌, ◌++◌, length, take, drop, replicate, OnOk, OnErr};
ghost use Rattle.px_base.specs.Octets.{IsOctets};
ghost use Rattle.disk_model.specs.Surface.{write_over};

use crate::limits::ends_within;
use px_base::OutOfMemory;

/// Writes octets over what is there; a gap before them is filled with zeros. It answers `OutOfMemory` and changes
/// nothing where there is no memory, or where they would end past the most octets of a disk. Takes memory.
pub fn overwrite(octets: &mut Vec<u8>, at: u64, bytes: &[u8]) -> Result<(), OutOfMemory>
    ensures ends { OnOk result (at + length bytes.now ≤ 2 ^ 63) }
    ensures ok { OnOk result (octets.new.items ≡ write_over octets.old.items at bytes.now) }
    ensures err { OnErr result (octets.new.items ≡ octets.old.items) }
    ensures octets { IsOctets octets.new.items }
{
    if !ends_within(at, bytes) {
        return Err(OutOfMemory);
    }
    let at = at as usize;
    if at == octets.len() {
        octets.extend_from_slice(bytes)?;
        return Ok(());
    }
    extend_to(octets, at + bytes.len())?;
    replace(octets.as_mut_slice(), at, bytes);
    Ok(())
}

/// Fills up with zeros to this length, or changes nothing where there is no memory.
fn extend_to(octets: &mut Vec<u8>, end: usize) -> Result<(), OutOfMemory>
    ensures ok { OnOk result (octets.new.items ≡ octets.old.items ++ replicate (end - length octets.old.items) 0) }
    ensures err { OnErr result (octets.new.items ≡ octets.old.items) }
{
    if octets.len() < end {
        octets.resize(end, 0)?;
    }
    Ok(())
}

/// Writes octets in the place of others.
pub(crate) fn replace(octets: &mut [u8], at: usize, bytes: &[u8])
    requires { at + length bytes.now ≤ length octets.old }
    ensures { octets.new ≡ take at octets.old ++ bytes.now ++ drop (at + length bytes.now) octets.old }
{
    octets[at..at + bytes.len()].copy_from_slice(bytes);
}
