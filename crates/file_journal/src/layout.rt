//! Where the parts of a store stand on its disk.

ghost use Rattle.std.specs.Prelude.{◌≡◌, ◌^◌, ◌<◌, ◌≤◌, IfSome};
ghost use Rattle.file_journal.specs.Header.{AreBlocks};
ghost use Rattle.file_journal.specs.Layout.{block_place, first_gate, half_by, half_end, half_gate, half_size};
ghost use Rattle.file_journal.specs.Layout.{other_half, selector_of};

/// The number of octets of a header.
pub(crate) const HEADER: u64 = 16;

/// The number of octets of a block.
const BLOCK: u64 = 512;

/// What stands between the header of a store and its records, and where these go on.
#[derive(Clone, Copy, Debug, PartialEq, Eq)]
pub enum Layout {
    /// Nothing: the records come right behind the header, and the disk grows with them.
    Growing,
    /// As many blocks as the header says, of 512 octets each; the disk grows with the records behind them.
    Blocks,
    /// The same blocks, and behind them two halves for the records, of 65,536 octets each and 28 for each block. The
    /// selector says which half the records are in: the first where it is even, the second where it is odd.
    Halves,
}

/// A half of the records.
#[derive(Clone, Copy, Debug, PartialEq, Eq)]
pub enum Half {
    /// The one right behind the blocks; or the only one.
    First,
    /// The one behind the first.
    Second,
}

impl Half {
    /// The other half.
    pub(crate) fn other(self) -> Half
        ensures { result ≡ other_half self }
    {
        match self {
            Half::First => Half::Second,
            Half::Second => Half::First,
        }
    }

    /// The selector that says so.
    pub(crate) fn selector(self) -> u8
        ensures { result ≡ selector_of self }
    {
        match self {
            Half::First => 0,
            Half::Second => 1,
        }
    }
}

impl Layout {
    /// The place of the first gate of a store of so many blocks, 1 to 65,536.
    pub(crate) fn first_gate(self, blocks: u32) -> u64
        requires blocks { AreBlocks blocks }
        ensures place { result ≡ first_gate self blocks }
        ensures behind { 16 ≤ result }
        ensures fits { result < 2 ^ 26 }
    {
        match self {
            Layout::Growing => HEADER,
            Layout::Blocks | Layout::Halves => block_place(blocks),
        }
    }

    /// The half that this selector says.
    pub(crate) fn half(self, selector: u8) -> Half
        ensures { result ≡ half_by self selector }
    {
        match self {
            Layout::Growing | Layout::Blocks => Half::First,
            Layout::Halves => {
                if selector % 2 == 1 {
                    Half::Second
                } else {
                    Half::First
                }
            }
        }
    }

    /// The place of the first gate of a half of a store of so many blocks, 1 to 65,536.
    pub(crate) fn half_gate(self, blocks: u32, half: Half) -> u64
        requires blocks { AreBlocks blocks }
        ensures place { result ≡ half_gate self blocks half }
        ensures behind { 16 ≤ result }
        ensures fits { result < 2 ^ 26 }
    {
        match (self, half) {
            (Layout::Halves, Half::Second) => block_place(blocks) + half_size(blocks),
            _ => self.first_gate(blocks),
        }
    }

    /// Where a half of a store of so many blocks ends, if it does.
    pub(crate) fn half_end(self, blocks: u32, half: Half) -> Option<u64>
        requires blocks { AreBlocks blocks }
        ensures place { result ≡ half_end self blocks half }
        ensures fits { IfSome result (λ end. end < 2 ^ 27) }
    {
        match self {
            Layout::Growing | Layout::Blocks => None,
            Layout::Halves => Some(self.half_gate(blocks, half) + half_size(blocks)),
        }
    }
}

/// How many octets each half of the records has in a store of so many blocks.
fn half_size(blocks: u32) -> u64
    ensures { result ≡ half_size blocks }
{
    65_536 + 28 * u64::from(blocks)
}

/// The place of a block, from 0 on.
pub(crate) fn block_place(block: u32) -> u64
    ensures place { result ≡ block_place block }
    ensures fits { result < 2 ^ 42 }
{
    HEADER + BLOCK * u64::from(block)
}
