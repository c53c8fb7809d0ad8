//! What every crate of `pacsat` stands on: station calls, numbers on the wire, octets of files, and the
//! traits through which the program reaches the outside, with their forms in memory.
#![tactic(auto)]

mod air;
mod call;
mod call_counter;
mod call_octets;
mod call_record;
mod clock;
mod fault_count;
mod file_bytes;
pub mod laws;
mod memory;
mod memory_air;
mod memory_clock;
mod memory_out;
mod memory_shelf;
mod number;
mod numbers;
mod octet_buffer;
mod out;
mod shelf;

pub use air::{Air, AirDown, Polled, ROOM, Turn};
pub use call::{BadCall, Call};
pub use call_counter::CallCounter;
pub use call_octets::{CALL_OCTETS, read_call, write_call};
pub use call_record::CallRecord;
pub use clock::Clock;
pub use fault_count::FaultCount;
pub use file_bytes::FileBytes;
pub use memory::OutOfMemory;
pub use memory_air::MemoryAir;
pub use memory_clock::MemoryClock;
pub use memory_out::MemoryOut;
pub use memory_shelf::MemoryShelf;
pub use number::{FileKind, FileNumber, Moment, MomentKind, Number};
pub use numbers::{le16, le32};
pub use octet_buffer::OctetBuffer;
pub use out::{Out, OutDown};
pub use shelf::{Shelf, ShelfDown, ShelfRefusal};
