//! The octets that were pushed and aren't acknowledged.

ghost use Rattle.std.specs.Prelude.{◌≡◌, ℕ, ◌+◌, ◌-◌, ◌<◌, ◌≤◌, ◌^◌, ◌==◌, not, [], ◌∷◌, ◌++◌, length, take, drop, min, sum, IfOk};
ghost use Rattle.px_base.specs.Octets.{IsOctets};
ghost use Rattle.ax25_link.specs.Queue.{Queue, empty_queue, room_of};
ghost use Rattle.std.specs.Prelude.{slice_get, Some, unwrap_or};

use arrayvec::ArrayVec;
use circular_buffer::HeapCircularBuffer;
use px_base::OutOfMemory;
use std::alloc::Global;
use std::marker::Model;

/// How many octets may wait to be acknowledged.
const MOST_QUEUED: usize = 4096;

/// How many octets of information an I frame has at most (AX.25 2.0, 2.4.7.3).
const MOST_INFORMATION: usize = 256;

/// How many frames may be outstanding at most.
const MOST_PIECES: usize = 7;

/// The octets that were pushed and aren't acknowledged: those of the outstanding I frames, the oldest first, and
/// then those that weren't sent. Each outstanding frame has a piece of them. Contracts see the pieces and the
/// octets that weren't sent.
#[derive(Drop)]
pub(crate) struct SendQueue {
    octets: HeapCircularBuffer<u8>,
    /// The lengths of the pieces of the outstanding frames, the oldest first.
    sizes: ArrayVec<usize, MOST_PIECES>,
}

impl Model for SendQueue {
    ghost use Rattle.ax25_link.specs.Queue.{Queue, AreSizes, queue_of};

    ghost Value = { Queue };

    ghost view = { λ a. queue_of a.sizes.items a.octets.items };

    ghost invariant = { λ a. AreSizes a.sizes.items a.octets.items a.octets.capacity };
}

impl SendQueue {
    /// No octets. Takes memory.
    pub(crate) fn new(alloc: Global) -> Result<SendQueue, OutOfMemory>
        ensures { IfOk result (λ queue. queue ≡ empty_queue) }
    {
        Ok(SendQueue {
            octets: HeapCircularBuffer::with_capacity(alloc, MOST_QUEUED)?,
            sizes: ArrayVec::new(),
        })
    }

    /// How many octets can be queued.
    pub(crate) fn free(&self) -> usize
        ensures { result ≡ room_of self.now }
    {
        MOST_QUEUED - self.octets.len()
    }

    /// How many frames are outstanding.
    pub(crate) fn outstanding(&self) -> u8
        ensures count { result ≡ length self.now.pieces }
        ensures most { result ≤ 7 }
    {
        self.sizes.len() as u8
    }

    /// Whether there are octets that weren't sent.
    pub(crate) fn has_unsent(&self) -> bool
        ensures { result ≡ not (length self.now.unsent == 0) }
    {
        self.octets.len() > total(&self.sizes)
    }

    /// Queues as many octets as there is room for, and says how many.
    pub(crate) fn push(&mut self, bytes: &[u8]) -> usize
        ensures count { result ≡ min (length bytes.now) (room_of self.old) }
        ensures queue { self.new ≡ record self.old { unsent = self.old.unsent ++ take result bytes.now } }
    {
        self.octets.fill_from_slice(bytes)
    }

    /// Frees the octets of the `count` oldest outstanding frames.
    pub(crate) fn acknowledge(&mut self, count: u8)
        requires { count ≤ length self.old.pieces }
        ensures { self.new ≡ record self.old { pieces = drop count self.old.pieces } }
    {
        let freed = total(&self.sizes[..usize::from(count)]);
        self.octets.truncate_front(self.octets.len() - freed);
        remove_first(&mut self.sizes, count);
    }

    /// Makes the next piece of up to 256 octets that weren't sent. It is then the last one.
    pub(crate) fn send(&mut self)
        requires { length self.old.pieces < 7 }
        ensures pieces { self.new.pieces ≡ self.old.pieces ++ take 256 self.old.unsent ∷ [] }
        ensures unsent { self.new.unsent ≡ drop 256 self.old.unsent }
    {
        let unsent = self.octets.len() - total(&self.sizes);
        self.sizes.push(unsent.min(MOST_INFORMATION));
    }

    /// Puts the octets of the piece at this place, the oldest being at 0, at the end of `out`.
    pub(crate) fn put_piece(&self, place: u8, out: &mut ArrayVec<u8, 400>)
        requires place { place < length self.now.pieces }
        requires room { length out.old.items ≤ 144 }
        ensures octets { out.new.items ≡ out.old.items ++ unwrap_or (slice_get self.now.pieces place) [] }
        ensures most { length (unwrap_or (slice_get self.now.pieces place) []) ≤ 256 }
        ensures range { IsOctets (unwrap_or (slice_get self.now.pieces place) []) }
    {
        let start = total(&self.sizes[..usize::from(place)]);
        let end = start + self.sizes[usize::from(place)];
        let (front, back) = self.octets.as_slices();
        put_range(out, front, back, start, end);
    }

    /// Drops the octets that weren't sent.
    pub(crate) fn drop_unsent(&mut self)
        ensures { self.new ≡ record self.old { unsent = [] } }
    {
        self.octets.truncate_back(total(&self.sizes));
    }

    /// Drops all octets.
    pub(crate) fn clear(&mut self)
        ensures { self.new ≡ empty_queue }
    {
        self.octets.clear();
        self.sizes.clear();
    }
}

/// The sum of these lengths.
fn total(sizes: &[usize]) -> usize
    requires { sum sizes.now < 2 ^ 64 }
    ensures { result ≡ sum sizes.now }
{
    sizes.iter().sum()
}

/// Removes the first `count` lengths.
fn remove_first(sizes: &mut ArrayVec<usize, MOST_PIECES>, count: u8)
    requires { count ≤ length sizes.old.items }
    ensures { sizes.new.items ≡ drop count sizes.old.items }
{
    for _ in 0..count {
        sizes.remove(0);
    }
}

/// Puts the octets from one place up to another of two slices, taken as one, at the end.
fn put_range(out: &mut ArrayVec<u8, 400>, front: &[u8], back: &[u8], start: usize, end: usize)
    requires order { start ≤ end }
    requires inside { end ≤ length (front.now ++ back.now) }
    requires room { length out.old.items + (end - start) ≤ 400 }
    ensures octets { out.new.items ≡ out.old.items ++ take (end - start) (drop start (front.now ++ back.now)) }
    ensures range { IsOctets (take (end - start) (drop start (front.now ++ back.now))) }
{
    let cut = front.len();
    put(out, &front[start.min(cut)..end.min(cut)]);
    put(
        out,
        &back[start.saturating_sub(cut)..end.saturating_sub(cut)],
    );
}

/// Puts octets at the end.
fn put(out: &mut ArrayVec<u8, 400>, bytes: &[u8])
    requires { length out.old.items + length bytes.now ≤ 400 }
    ensures octets { out.new.items ≡ out.old.items ++ bytes.now }
    ensures range { IsOctets bytes.now }
{
    out.try_extend_from_slice(bytes).unwrap();
}
