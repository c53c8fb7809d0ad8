//! A disk of a special kind: what it keeps through its calls is said by `lasts`.

use disk_model::{Disk, DiskFault};
use px_base::FileBytes;

/// A disk with a label, which no call of the disk changes.
#[derive(Drop)]
pub struct Labelled<D> {
    /// The disk.
    pub disk: D,
    /// Its label.
    pub label: FileBytes,
}

impl<D: Disk + Drop> Disk for Labelled<D> {
    ghost use Rattle.std.specs.Prelude.{◌≡◌, refl};
    ghost use Rattle.std.proofs.Common.{◌∙◌};

    ghost content = { λ l. D.content l.disk };

    ghost images = { λ l. D.images l.disk };

    ghost moment = { λ l. D.moment l.disk };

    ghost images_since = { λ l. D.images_since l.disk };

    ghost read_faults = { λ l. D.read_faults l.disk };

    ghost write_faults = { λ l. D.write_faults l.disk };

    ghost is_down = { λ l. D.is_down l.disk };

    ghost lasts = { λ old new. new.label ≡ old.label };

    fn len(&mut self) -> Result<u64, DiskFault> {
        self.disk.len()
    }

    fn read(&mut self, at: u64, room: &mut [u8]) -> Result<(), DiskFault> {
        self.disk.read(at, room)
    }

    fn write_at(&mut self, at: u64, bytes: &[u8]) -> Result<(), DiskFault> {
        self.disk.write_at(at, bytes)
    }

    fn sync(&mut self) -> Result<(), DiskFault> {
        self.disk.sync()
    }

    ghost content_is_image = { λ l. D.content_is_image l.disk };

    ghost images_fit = { λ l. D.images_fit l.disk };

    ghost counts_now = { λ l. D.counts_now l.disk };

    ghost earlier = { λ l. D.earlier l.disk };

    ghost lasts_same = { λ _. refl };

    ghost lasts_on = { λ _ _ _ first second. second ∙ first };
}
