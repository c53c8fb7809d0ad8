//! Octets in memory as a disk that can only be read.

ghost use Rattle.std.specs.Prelude.{◌≡◌, ◌^◌, ◌≤◌, length};
ghost use Rattle.px_base.specs.Octets.{IsOctets};

use crate::{Disk, DiskFault};
use px_base::FaultCount;

/// Octets in memory as a disk that is down from the start. `len` and `read` give the octets, and never fail; each write
/// and each sync fails and is counted, and changes nothing. A crash leaves the octets at any moment, so the disk is
/// quiet, and whatever only reads a disk reads the octets of a file too.
#[derive(Drop)]
pub struct OctetsDisk<'a> {
    octets: &'a [u8],
    write_faults: FaultCount,
    ghost are_octets: { IsOctets octets.now },
    ghost most: { length octets.now ≤ 2 ^ 63 },
}

impl<'a> OctetsDisk<'a> {
    ghost use Rattle.disk_model.specs.OctetsDisk.{octets_in};

    /// These octets as a disk. Takes no memory.
    pub fn new(octets: &'a [u8]) -> OctetsDisk<'a>
        ensures { octets_in result ≡ octets.now }
    {
        OctetsDisk {
            octets,
            write_faults: FaultCount::new(),
        }
    }
}

impl Disk for OctetsDisk<'_> {
    ghost use Rattle.disk_model.specs.OctetsDisk as it;

    ghost content = { it.content };

    ghost images = { it.images };

    ghost moment = { it.moment };

    ghost images_since = { it.images_since };

    ghost read_faults = { it.read_faults };

    ghost write_faults = { it.write_faults };

    ghost is_down = { it.is_down };

    ghost lasts = { it.lasts };

    fn len(&mut self) -> Result<u64, DiskFault> {
        Ok(self.octets.len() as u64)
    }

    fn read(&mut self, at: u64, room: &mut [u8]) -> Result<(), DiskFault> {
        let at = at as usize;
        room.copy_from_slice(&self.octets[at..at + room.len()]);
        Ok(())
    }

    /// Fails, and is counted.
    fn write_at(&mut self, _at: u64, _bytes: &[u8]) -> Result<(), DiskFault> {
        self.write_faults.count();
        Err(DiskFault)
    }

    /// Fails, and is counted.
    fn sync(&mut self) -> Result<(), DiskFault> {
        self.write_faults.count();
        Err(DiskFault)
    }

    ghost content_is_image = { it.content_is_image };

    ghost images_fit = { it.images_fit };

    ghost counts_now = { it.counts_now };

    ghost earlier = { it.earlier };

    ghost lasts_same = { it.lasts_same };

    ghost lasts_on = { it.lasts_on };
}
