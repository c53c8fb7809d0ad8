//! Where the blocks of a run are in the table's list of numbers, and which blocks are taken.

ghost use Rattle.std.specs.Prelude.{◌≡◌, ◌<◌, ◌≤◌, ◌++◌, IfNone, IfSome, length, map, take, drop};
ghost use Rattle.std.specs.List.{All};
ghost use Rattle.file_store_blocks.specs.BlockTable.Kept.{AllMarked, AreFreed, IsFirstFree, earlier};

/// Where the blocks of a run are in the table's list of numbers.
#[derive(Clone, Copy)]
pub struct RunMark {
    /// The place of its first block's number.
    pub first: u32,
    /// How many blocks it has.
    pub count: u32,
    /// How many blocks it may have.
    pub room: u32,
}

/// The places of the runs from this one on begin this number of places earlier.
pub fn move_up(marks: &mut [RunMark], from: usize, places: u32)
    requires from { from ≤ length marks.old }
    requires places { All (λ m. places ≤ m.first) (drop from marks.old) }
    ensures { marks.new ≡ take from marks.old ++ map (earlier places) (drop from marks.old) }
{
    for mark in &mut marks[from..] {
        mark.first -= places;
    }
}

/// The first block from this one on that isn't marked, if there is one.
pub fn first_free(taken: &[bool], from: usize) -> Option<usize>
    ensures some { IfSome result (IsFirstFree taken.now from) }
    ensures none { IfNone result (AllMarked taken.now from) }
{
    for block in from..taken.len() {
        if !taken[block] {
            return Some(block);
        }
    }
    None
}

/// Takes the marks of these blocks away. The result is at most `lowest`, and at most each of them.
pub fn free_blocks(taken: &mut [bool], blocks: &[u16], mut lowest: u32) -> u32
    requires { All (λ b. b < length taken.old) blocks.now }
    ensures taken { AreFreed taken.old taken.new blocks.now }
    ensures lowest { result ≤ lowest }
    ensures each { All (λ b. result ≤ b) blocks.now }
{
    for block in blocks {
        taken[usize::from(*block)] = false;
        lowest = lowest.min(u32::from(*block));
    }
    lowest
}
