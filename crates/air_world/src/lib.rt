//! The world of the rehearsal: a server, its clients, and an air that loses, repeats and displaces frames; which events
//! may come, what each makes of the world, with power cuts, and what is true of each world then. It has no code: the
//! rehearsal is compared with its definitions and with the laws of them.
#![tactic(auto)]

pub mod attempts;
pub mod files;
pub mod laws;
