//! An attempt of a client at a job: its call to the server, with each SABM that its timer repeats, and all that follows
//! on that link until the client is asked again. (In `ax25_link` an attempt is shorter: one SABM, and what follows it
//! until the next.) It is the client's end of the link, and the job over it (AX.25 2.0, 2.4; FTL0 1990), over notes and
//! a disk that it doesn't hold. Frames and ticks go in, frames come out, and the notes' commands are on the disk before
//! any of them does.

mod attempt;
pub mod laws;

pub use attempt::Attempt;
