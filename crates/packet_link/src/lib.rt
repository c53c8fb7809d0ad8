//! A link that carries packets (AX.25 2.0, 2.4; FTL0 1990, packet format): the octets that an end accepts are a stream
//! of packets, one after another without a break, and so are those that it queues. Servers and clients share it. It
//! knows nothing of what packets say.
#![tactic(auto)]

mod carrying;

pub use carrying::PacketLink;
