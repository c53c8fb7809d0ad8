//! Selections of files by the items of their headers.
//!
//! A station asks for files by tokens: comparisons of items with constants, and the operators and, or and not, in postfix
//! order. FTL0 1990 leaves their octets open, and these are the project's own: docs/FORMATS.md has them. [`Selection`]
//! reads them, and says of which headers they hold.
#![tactic(auto)]

mod fault;
pub mod laws;
mod meaning;
mod operands;
mod selection;
mod token;
mod truths;

pub use fault::SelFault;
pub use operands::MOST_TOKENS;
pub use selection::Selection;
