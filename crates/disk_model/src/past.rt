//! What was done to a disk in memory, for proofs alone.

ghost use Rattle.std.specs.Prelude.{◌≡◌, ◌∷◌, ◌++◌, [], List, ℕ};
ghost use Rattle.std.specs.Borrow.{ftrue};
ghost use Rattle.disk_model.specs.declared.disk_call.DiskCall.{DiskCall};

use std::marker::Model;

/// The octets that a disk had at first, and its calls since then in order. They exist only in proofs: it takes no
/// memory, and its calls do nothing at run time.
#[derive(Drop)]
pub(crate) struct Past {
    ghost first: { List ℕ },
    ghost calls: { List DiskCall },
}

impl Model for Past {
    ghost also_owns = { λ _. ftrue };
}

/// A call, or a power cut, as a past is told it.
#[derive(Clone, Copy, Drop)]
pub(crate) enum Told<'a> {
    /// These octets were written at this place.
    Write { at: u64, bytes: &'a [u8] },
    /// Writing so many octets at this place failed.
    TornWrite { at: u64, count: u64 },
    /// All that was written was synced.
    Sync,
    /// A sync failed.
    FailedSync,
    /// Power was lost, and these octets were left.
    PowerCut { left: &'a [u8] },
}

/// The octets of a new disk.
#[derive(Clone, Copy, Drop)]
pub(crate) struct First<'a> {
    pub bytes: &'a [u8],
}

impl Past {
    ghost use Rattle.disk_model.specs.Told.{told_of};

    /// Of a new disk with these octets.
    #[inline(always)]
    pub(crate) fn new(_first: &First<'_>) -> Past
        ensures { (result.first ≡ _first.now.bytes.now) × (result.calls ≡ []) }
    {
        Past {}
    }

    /// With one call more.
    #[inline(always)]
    pub(crate) fn then(&self, _told: &Told<'_>) -> Past
        ensures { (result.first ≡ self.now.first)
            × (result.calls ≡ self.now.calls ++ told_of self.now.first self.now.calls _told.now ∷ []) }
    {
        Past {}
    }
}
