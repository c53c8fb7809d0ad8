//! The table of runs.

ghost use Rattle.std.specs.Prelude.{◌≡◌, ◌↔◌, ℕ, ◌≤◌, ◌<◌, length, IsTrue, IfOk};
ghost use Rattle.std.specs.Prelude.{slice_index};
ghost use Rattle.file_store_blocks.specs.BlockTable.Table.{HasRoom, IsFree, IsLowestFree, IsTable, IsTaken};
ghost use Rattle.file_store_blocks.specs.BlockTable.Table.{after_beginning, after_taking, left_in, new_table, run_at};
ghost use Rattle.file_store_blocks.specs.BlockTable.Table.{without};

use crate::block_table::marks::{RunMark, first_free, free_blocks, move_up};
use px_base::OutOfMemory;
use std::alloc::Global;
use std::marker::Model;

/// The runs of blocks of a store's files. Contracts see it as a `Table`.
#[derive(Drop)]
pub struct BlockTable {
    /// The numbers of the blocks: those of a run are one after another, from its first place on.
    numbers: Vec<u16>,
    /// Of each block, whether a run has it.
    taken: Vec<bool>,
    /// The hint, from which a free block is looked for: each block below this one is taken.
    lowest: u32,
    runs: Vec<RunMark>,
    /// How many blocks the runs may have together: this number of places of the list of numbers are theirs.
    rooms: u32,
    limit: u32,
}

impl Model for BlockTable {
    ghost use Rattle.std.specs.Prelude.{vec_capacity};
    ghost use Rattle.file_store_blocks.specs.BlockTable.Table.{Table};

    ghost Value = { Table };

    ghost use Rattle.file_store_blocks.specs.BlockTable.Kept.{IsKept, runs_in};

    ghost view = { λ a. record {
      runs = runs_in a.numbers.items a.runs.items;
      limit = a.limit;
      most = vec_capacity a.runs;
    } };

    ghost invariant = { λ a. IsKept (record {
      marks = a.runs.items;
      numbers = a.numbers.items;
      taken = a.taken.items;
      lowest = a.lowest;
      rooms = a.rooms;
      limit = a.limit;
    }) };
}

impl BlockTable {
    /// A table without runs, of `limit` blocks, which may have `runs` runs. Takes memory, all that it ever does: 3
    /// octets for each block, and 12 for each run.
    pub fn new(alloc: Global, limit: u32, runs: usize) -> Result<BlockTable, OutOfMemory>
        requires some { 1 ≤ limit }
        requires most { limit ≤ 65536 }
        ensures { IfOk result (λ table. table ≡ new_table limit runs) }
    {
        let blocks = limit as usize;
        Ok(BlockTable {
            numbers: vec![in alloc; 0; blocks]?,
            taken: vec![in alloc; false; blocks]?,
            lowest: 0,
            runs: Vec::with_capacity(alloc, runs)?,
            rooms: 0,
            limit,
        })
    }

    /// How many blocks a run that is begun next may have at most. Takes no memory.
    pub fn left(&self) -> u32
        ensures left { result ≡ left_in self.now }
        ensures rules { IsTable self.now }
    {
        self.limit - self.rooms
    }

    /// Begins a run, which has no block yet, and may have `room` of them. Takes no memory.
    pub fn begin(&mut self, room: u32)
        requires room { room ≤ left_in self.old }
        requires few { length self.old.runs < self.old.most }
        ensures { self.new ≡ after_beginning self.old room }
    {
        let mark = RunMark {
            first: self.rooms,
            count: 0,
            room,
        };
        self.runs.push_reserved(mark);
        self.rooms += room;
    }

    /// Whether a run has this block. Takes no memory.
    pub fn is_taken(&self, block: u32) -> bool
        ensures { IsTrue result ↔ IsTaken self.now block }
    {
        match self.taken.get(block as usize) {
            Some(taken) => *taken,
            None => false,
        }
    }

    /// Whether there is this block, and no run has it. Takes no memory.
    pub fn is_free(&self, block: u32) -> bool
        ensures { IsTrue result ↔ IsFree self.now block }
    {
        match self.taken.get(block as usize) {
            Some(taken) => !*taken,
            None => false,
        }
    }

    /// The lowest block that no run has. There is one, since a run may have one more. Takes no memory. The search
    /// begins at the hint `lowest` and moves it up to the block that it found, so asking twice doesn't look twice. The
    /// work is at most one look at the mark of each block from the hint on; the search never looks at those below it
    /// again until one of them is freed.
    pub fn lowest_free(&mut self) -> u32
        requires { (run : ℕ) × HasRoom self.old run }
        ensures free { IsLowestFree self.old result }
        ensures same { self.new ≡ self.old }
    {
        self.lowest = first_free(&self.taken, self.lowest as usize).unwrap() as u32;
        self.lowest
    }

    /// A run, which has room for it, has this block after its others; no run had it. Takes no memory. The work is the
    /// same for each table.
    pub fn take(&mut self, run: usize, block: u32)
        requires room { HasRoom self.old run }
        requires free { IsFree self.old block }
        ensures { self.new ≡ after_taking self.old run block }
    {
        let mark = &mut self.runs[run];
        self.numbers[(mark.first + mark.count) as usize] = block as u16;
        mark.count += 1;
        self.taken[block as usize] = true;
        self.lowest += u32::from(block == self.lowest);
    }

    /// How many blocks this run has. Takes no memory.
    pub fn count(&self, run: usize) -> usize
        requires { run < length self.now.runs }
        ensures count { result ≡ length (run_at self.now run).blocks }
        ensures rules { IsTable self.now }
    {
        self.runs[run].count as usize
    }

    /// The block at this place of a run. Takes no memory. The work is the same for each place.
    pub fn block(&self, run: usize, at: usize) -> u32
        requires there { run < length self.now.runs }
        requires place { at < length (run_at self.now run).blocks }
        ensures { result ≡ slice_index (run_at self.now run).blocks at }
    {
        let mark = self.runs[run];
        u32::from(self.numbers[mark.first as usize + at])
    }

    /// This run is gone, the later ones move up, and its blocks are free. Takes no memory.
    pub fn remove(&mut self, run: usize)
        requires { run < length self.old.runs }
        ensures { self.new ≡ without self.old run }
    {
        let gone = self.runs.remove(run);
        let first = gone.first as usize;
        let blocks = &self.numbers[first..first + gone.count as usize];
        self.lowest = free_blocks(&mut self.taken, blocks, self.lowest);
        let behind = first + gone.room as usize;
        self.numbers.copy_within(behind..self.rooms as usize, first);
        move_up(&mut self.runs, run, gone.room);
        self.rooms -= gone.room;
    }
}
