//! A disk that tells what its power cuts left.

ghost use Rattle.std.specs.Prelude.{◌≡◌, ◌∷◌, ◌++◌, [], OnErr, OnOk};

use crate::fuse_disk::FuseDisk;
use crate::{CutDisk, Disk, DiskFault};
use px_base::{FileBytes, OutOfMemory};
use std::alloc::Global;
use std::marker::Model;

/// Contents of disks, in order. Contracts see them as a list of lists of octets.
#[derive(Drop)]
struct Contents {
    all: Vec<FileBytes>,
}

impl Model for Contents {
    ghost use Rattle.std.specs.Prelude.{List, ℕ};

    ghost Value = { List (List ℕ) };

    ghost view = { λ a. a.all.items };
}

impl Contents {
    /// None yet. Takes no memory.
    fn new(alloc: Global) -> Contents
        ensures { result ≡ [] }
    {
        Contents {
            all: Vec::new(alloc),
        }
    }

    /// All of them.
    fn as_slice(&self) -> &[FileBytes]
        ensures { result.now ≡ self.now }
    {
        self.all.as_slice()
    }

    /// Keeps a copy of one more, or changes nothing where there is no memory. Takes memory.
    fn keep(&mut self, alloc: Global, content: &[u8]) -> Result<(), OutOfMemory>
        ensures ok { OnOk result (self.new ≡ self.old ++ content.now ∷ []) }
        ensures err { OnErr result (self.new ≡ self.old) }
    {
        let copy = FileBytes::copy_of(alloc, content)?;
        self.all.push(copy)?;
        Ok(())
    }
}

/// A `FuseDisk` that keeps each content that a power cut left, and so tells them. Where it finds no memory for one, it
/// is starved.
#[derive(Drop)]
pub struct LogDisk {
    alloc: Global,
    disk: FuseDisk,
    restarts: Contents,
}

impl LogDisk {
    ghost use Rattle.disk_model.specs.Fuse.{fuse};
    ghost use Rattle.disk_model.specs.Log.{log};

    /// This disk, which has lost no power yet. It keeps the allocator, and takes no memory yet.
    pub fn new(alloc: Global, disk: FuseDisk) -> LogDisk
        ensures { log result ≡ record { disk = fuse disk; restarts = [] } }
    {
        LogDisk {
            alloc,
            disk,
            restarts: Contents::new(alloc),
        }
    }

    /// The contents that the power cuts left, in order.
    pub fn restarts(&self) -> &[FileBytes]
        ensures { result.now ≡ (log self.now).restarts }
    {
        self.restarts.as_slice()
    }

    /// The disk in it, with its content and images. Takes no memory.
    pub fn into_disk(self) -> FuseDisk
        ensures { fuse result ≡ (log self).disk }
    {
        self.disk
    }
}

impl Disk for LogDisk {
    ghost use Rattle.disk_model.specs.Fuse as it;
    ghost use Rattle.disk_model.specs.FuseLaws as law;
    ghost use Rattle.disk_model.specs.CutLaws.{lasts_longer, lasts_still};
    ghost use Rattle.disk_model.specs.Log.{cut_of, lasts, log};

    ghost content = { λ l. it.content l.disk };

    ghost images = { λ l. it.images l.disk };

    ghost moment = { λ l. it.moment l.disk };

    ghost images_since = { λ l. it.images_since l.disk };

    ghost read_faults = { λ l. it.read_faults l.disk };

    ghost write_faults = { λ l. it.write_faults l.disk };

    ghost is_down = { λ l. it.is_down l.disk };

    ghost lasts = { lasts };

    fn len(&mut self) -> Result<u64, DiskFault> {
        self.disk.len()
    }

    fn read(&mut self, at: u64, room: &mut [u8]) -> Result<(), DiskFault> {
        self.disk.read(at, room)
    }

    fn write_at(&mut self, at: u64, bytes: &[u8]) -> Result<(), DiskFault> {
        self.disk.write_at(at, bytes)
    }

    fn sync(&mut self) -> Result<(), DiskFault> {
        self.disk.sync()
    }

    ghost content_is_image = { λ l. law.content_is_image l.disk };

    ghost images_fit = { λ l. law.images_fit l.disk };

    ghost counts_now = { λ l. law.counts_now l.disk };

    ghost earlier = { λ l. law.earlier l.disk };

    ghost lasts_same = { λ l. lasts_still (cut_of (log l)) };

    ghost lasts_on = { λ first second third.
        lasts_longer (cut_of (log first)) (cut_of (log second)) (cut_of (log third)) };
}

impl CutDisk for LogDisk {
    ghost use Rattle.std.specs.Prelude.{Some, refl};
    ghost use Rattle.disk_model.specs.Fuse as it;

    ghost restarts = { λ l. Some l.restarts };

    ghost arming = { λ l. it.arming l.disk };

    ghost plain = { λ l. it.plain l.disk };

    ghost is_starved = { λ l. it.is_starved l.disk };

    ghost surface = { λ l. it.standing l.disk };

    fn arm(&mut self, calls: Option<u64>) {
        self.disk.arm(calls);
    }

    /// Cuts the power of the disk in it, and keeps a copy of what was left. Takes memory.
    fn power_cut(&mut self, pick: u64) {
        self.disk.power_cut(pick);
        if self.disk.starved() {
            return;
        }
        if self.restarts.keep(self.alloc, self.disk.bytes()).is_err() {
            self.disk.starve();
        }
    }

    fn starved(&self) -> bool {
        self.disk.starved()
    }

    ghost shows = { λ l. record { content = refl; images = λ image. (λ left. left, λ left. left) } };

    ghost lasts_so = { λ old new lasts. lasts };
}
