//! The turns of a client: what has one job of it carried out, over an air, a clock and the disk of its notes.

mod carrying;
mod station;

pub(crate) use carrying::carry_out;
