//! The working folder as a shelf: a name is a path.

mod folder_shelf;
mod keeping;
mod loading;

pub use folder_shelf::FolderShelf;
