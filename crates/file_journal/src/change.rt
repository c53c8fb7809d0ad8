//! A change of a ledger that one record keeps.

ghost use Rattle.std.specs.Prelude.{◌≡◌, IfSome};
ghost use Rattle.file_journal.specs.Form.{Form, IsFormOf};
ghost use Rattle.std.specs.Option.{option_map};
ghost use Rattle.file_journal.specs.Layout.{Blocks, HoldSame};
ghost use Rattle.file_journal.specs.Records.{record_of};
ghost use Rattle.file_journal.specs.Steps.{IsSeenBy, MayPut, Steps, Turn, WritesTurn, kept_by, put_of};
ghost use Rattle.file_journal.specs.declared.layout.Layout.TheVariants as Layout;

use crate::{Ledger, RecordContent};

/// Octets that are put in a block: 1 to 512.
#[derive(Clone, Copy, Debug)]
pub struct BlockPut<'a> {
    /// The number of the block.
    pub block: u32,
    /// The octets.
    pub octets: &'a [u8],
}

/// A change of a ledger that one record keeps. Its record is on the disk before it is made, so where it may be made
/// there is memory for it: nothing is on the disk that memory can't have.
pub trait Change<L: Ledger> {
    /// The states that records make.
    ghost State: { Type 0 };

    /// What is kept of such a state.
    ghost Kept: { Type 0 };

    /// What that is seen as.
    ghost Seen: { Type 0 };

    /// The commands that change what is seen.
    ghost Command: { Type 0 };

    /// What octets stand for, and what commands make of it.
    ghost form: { Form Self.Seen Self.Command };

    /// What records make of a state.
    ghost steps: { Steps Self.State Self.Kept };

    /// What is kept is seen as, with what the blocks of the disk hold.
    ghost seen: { Blocks → Self.Kept → Self.Seen };

    /// What a ledger holds of a state.
    ghost state: { L → Self.Kept };

    /// What it does to a ledger's state.
    ghost turn: { Self → L → Turn Self.Kept Self.Command };

    /// It may be made of this ledger: the state allows it, and there is memory for what it makes.
    ghost may: { Self → L → Type 0 };

    /// What it makes of a ledger, beside the state after it.
    ghost makes: { Self → L → L → Type 0 };

    /// What it puts in a block before its record, if anything. Takes no memory.
    fn block<'a>(&'a self, ledger: &'a L) -> Option<BlockPut<'a>>
        requires may { may self.now ledger.now }
        ensures puts { option_map put_of result ≡ (turn self.now ledger.now).puts }
        ensures fits { IfSome (turn self.now ledger.now).puts (MayPut form steps (state ledger.now)) };

    /// Writes its record: the kind, with the content in place of what `content` holds. Its command is that one record,
    /// with a block before it or without. Takes no memory.
    fn write(&self, ledger: &L, content: &mut RecordContent) -> u8
        requires may { may self.now ledger.now }
        ensures writes { WritesTurn form steps seen (state ledger.now) (turn self.now ledger.now)
            (record_of result content.new) };

    /// Makes it. Takes no memory.
    fn make(&self, ledger: &mut L)
        requires { may self.now ledger.old }
        ensures state { state ledger.new ≡ (turn self.now ledger.old).next }
        ensures makes { makes self.now ledger.old ledger.new };

    /// What is seen is what octets stand for.
    ghost is_seen: { IsSeenBy steps seen form };

    /// What blocks hold that the state doesn't use doesn't matter to it.
    ghost lets_same: { (change : Self) (ledger : L) (one other : Blocks)
        → HoldSame (steps.uses (state ledger)) one other
        → (turn change ledger).lets one → (turn change ledger).lets other };

    /// The form is the ledger's.
    ghost of_ledger: { IsFormOf form (λ held ledger. seen held (state ledger))
        L.form (λ held ledger. L.seen held (kept_by L.steps L.state ledger)) };

    /// The records that make what a ledger holds anew are the ledger's.
    ghost anew_of_ledger: { (ledger : L) → form.layout ≡ Layout.Halves
        → steps.anew (state ledger) ≡ L.steps.anew (kept_by L.steps L.state ledger) };
}
