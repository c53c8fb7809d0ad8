//! The disks of a rehearsal, which are made when one is played.

ghost use Rattle.std.specs.List.{All};
ghost use Rattle.std.specs.Prelude.{IfOk, OnErr, OnOk, [], ◌+◌, ◌≡◌, length};
ghost use Rattle.disk_model.specs.Cuts.{AreFresh, IsFresh, cuts_by};

use disk_model::laws::fresh_law;
use disk_model::{CutDisk, Disk, FuseDisk, MemoryDisk};
use px_base::OutOfMemory;
use std::alloc::Global;

/// How many disks a rehearsal has: the server's, and those of eight clients.
const DISKS: usize = 9;

/// What makes the disks of a rehearsal, one at a call.
pub trait DiskMaker<B: CutDisk> {
    /// A disk without an octet, as a rehearsal begins with it. Takes memory.
    fn fresh(&self, alloc: Global) -> Result<B, OutOfMemory>
        ensures { IfOk result (IsFresh B.Disk (cuts_by B.restarts B.arming B.plain B.is_starved)) };
}

/// Makes disks in memory that fail and lose power as they are armed.
#[derive(Clone, Copy, Debug)]
pub struct FuseDisks;

impl DiskMaker<FuseDisk> for FuseDisks {
    fn fresh(&self, alloc: Global) -> Result<FuseDisk, OutOfMemory> {
        let disk = FuseDisk::new(MemoryDisk::new(alloc, &[], &[])?, 0);
        fresh_law(&disk, 0);
        Ok(disk)
    }
}

/// The bench of a rehearsal: what makes its disks, and the disks, once one is played. It has none before, and so takes
/// no memory for a command that plays none.
#[derive(Drop)]
pub struct Bench<B, M> {
    maker: M,
    /// The disks as the last rehearsal left them: the server's, and those of eight clients.
    pub disks: Vec<B>,
}

impl<B: CutDisk + Drop, M: DiskMaker<B> + Drop> Bench<B, M> {
    /// A bench without a disk. Takes no memory.
    pub fn new(alloc: Global, maker: M) -> Bench<B, M>
        ensures { result.disks.items ≡ [] }
    {
        Bench {
            maker,
            disks: Vec::new(alloc),
        }
    }

    /// Puts nine fresh disks in the place of those that it has. Where there is no memory for them it stays as it was.
    /// Takes memory.
    pub(crate) fn renew(&mut self, alloc: Global) -> Result<(), OutOfMemory>
        ensures fresh { OnOk result (AreFresh B.Disk (cuts_by B.restarts B.arming B.plain B.is_starved)
            self.new.disks.items) }
        ensures stays { OnErr result (self.new ≡ self.old) }
    {
        let disks = fresh_disks(alloc, &self.maker)?;
        self.disks = disks;
        Ok(())
    }
}

/// Nine disks for a rehearsal, without an octet: the server's, and those of eight clients. Takes memory.
pub fn fresh_disks<B: CutDisk + Drop, M: DiskMaker<B>>(
    alloc: Global,
    maker: &M,
) -> Result<Vec<B>, OutOfMemory>
    ensures { IfOk result (λ disks. AreFresh B.Disk (cuts_by B.restarts B.arming B.plain B.is_starved) disks.items) }
{
    let mut disks = Vec::new(alloc);
    for _ in 0..DISKS {
        add(&mut disks, maker.fresh(alloc)?)?;
    }
    Ok(disks)
}

/// Puts one fresh disk more beside these. Takes memory.
fn add<B: CutDisk + Drop>(disks: &mut Vec<B>, disk: B) -> Result<(), OutOfMemory>
    requires fresh { All (IsFresh B.Disk (cuts_by B.restarts B.arming B.plain B.is_starved)) disks.old.items }
    requires more { IsFresh B.Disk (cuts_by B.restarts B.arming B.plain B.is_starved) disk }
    ensures { OnOk result ((length disks.new.items ≡ length disks.old.items + 1)
        × All (IsFresh B.Disk (cuts_by B.restarts B.arming B.plain B.is_starved)) disks.new.items) }
{
    disks.push(disk)?;
    Ok(())
}
