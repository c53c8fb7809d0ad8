//! One line of text for each part of recorded KISS text: what each frame is, or the fault of its octets.

pub mod laws;
mod line;
mod show;

pub use show::show_frames;
