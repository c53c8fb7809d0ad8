//! The real outside of the program: a file as a disk, the working folder as a shelf, a TCP connection as an air,
//! standard streams as an air and as an output, the system's clock, the standard descriptors. Each uses a small trait
//! of the calls that it makes; in a form in memory these can be observed.
#![tactic(auto)]

mod descriptors;
mod disk;
mod files;
mod memory_stream;
mod memory_time;
mod script;
mod shelf;
mod std_air;
mod std_out;
mod stream;
mod system_clock;
mod system_error;
mod system_stream;
mod tcp;
mod time_source;
mod writing;

pub use descriptors::{MemoryNull, NullDevice, NullFile, StandardStreams, hold_standard_streams};
pub use disk::{
    Device, DeviceCall, DeviceDisk, DeviceDown, FileDevice, FileDisk, MemoryDevice,
    laws as disk_laws,
};
pub use files::{FileCall, FileSystem, Found, MemoryFiles, RealFiles};
pub use memory_stream::MemoryStream;
pub use memory_time::MemoryTime;
pub use script::{MemoryAnswer, Script};
pub use shelf::FolderShelf;
pub use std_air::StdAir;
pub use std_out::StdOut;
pub use stream::{InputStream, OutputStream, StreamCall};
pub use system_clock::SystemClock;
pub use system_error::{SystemError, system_answer};
pub use system_stream::SystemStream;
pub use tcp::{
    Connection, ConnectionAir, ConnectionCall, MemoryConnection, TcpAir, TcpConnection,
    laws as tcp_laws,
};
pub use time_source::{SystemTime, TimeSource};
