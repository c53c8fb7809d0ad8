//! An air over a TCP connection to a modem, and what it asks of the connection.

mod connection;
mod connection_air;
pub mod laws;
mod memory_connection;
mod steps;
mod tcp_connection;

pub use connection::{Connection, ConnectionCall};
pub use connection_air::ConnectionAir;
pub use memory_connection::MemoryConnection;
pub use tcp_connection::{TcpAir, TcpConnection};
