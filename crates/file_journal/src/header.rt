//! The header of a store.

ghost use Rattle.std.specs.Prelude.{◌≡◌, ◌<◌, List, ℕ, length, slice_index, IfOk, IfSome, IsErrOf};
ghost use Rattle.disk_model.specs.Runs.{Reads};
ghost use Rattle.file_journal.specs.Header.{AreBlocks, HasBadNumber, HasHeader, HasSelector, IsForeignBy};
ghost use Rattle.file_journal.specs.Recovery.{Refuses};
ghost use Rattle.file_journal.specs.declared.layout.Layout.{Layout};

use crate::RecoverFault;
use disk_model::Disk;
use px_base::le32;

/// What the header of a store says.
#[derive(Clone, Copy)]
pub(crate) struct Header {
    /// The block number, 1 to 65,536.
    pub blocks: u32,
    /// Octet 15.
    pub selector: u8,
}

/// Reads the header of a store with this magic.
pub(crate) fn read_header<D: Disk>(disk: &mut D, magic: [u8; 8]) -> Result<Header, RecoverFault>
    requires { IfSome (D.content disk.old) (λ octets. 16 < length octets) }
    ensures header { IfOk result (λ header. IfSome (D.content disk.old) (HasHeader magic header.blocks)) }
    ensures selector { IfOk result (λ header. HasSelector (D.content disk.old) header.selector) }
    ensures blocks { IfOk result (λ header. AreBlocks header.blocks) }
    ensures refuses { (layout : Layout) → Refuses magic layout (D.content disk.old) result }
    ensures reads { Reads D.Disk (IsErrOf result RecoverFault.Disk) disk.old disk.new }
{
    let mut octets = [0; 16];
    disk.read(0, &mut octets)?;
    parse_header(&octets, magic)
}

/// What the 16 octets of a header say.
fn parse_header(octets: &[u8; 16], magic: [u8; 8]) -> Result<Header, RecoverFault>
    ensures header { IfOk result (λ header. HasHeader magic header.blocks octets.now) }
    ensures selector { IfOk result (λ header. header.selector ≡ slice_index octets.now 15) }
    ensures blocks { IfOk result (λ header. AreBlocks header.blocks) }
    ensures not_a_store { IsForeignBy magic octets.now result }
    ensures damaged { (at : ℕ) → IsErrOf result (RecoverFault.Damaged at) → (at ≡ 8) × HasBadNumber magic octets.now }
    ensures disk { ¬ IsErrOf result RecoverFault.Disk }
{
    let mut found = [0; 8];
    found.copy_from_slice(&octets[..8]);
    if found != magic {
        return Err(RecoverFault::NotAStore { found });
    }
    let blocks = le32(octets, 8);
    if !(1..=65_536).contains(&blocks) {
        return Err(RecoverFault::Damaged { at: 8 });
    }
    Ok(Header {
        blocks,
        selector: octets[15],
    })
}
