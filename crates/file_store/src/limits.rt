//! What a store may take.

/// What a store may take. It is used when its disk is formatted.
#[derive(Clone, Copy, Debug, PartialEq, Eq)]
pub struct Limits {
    /// How many blocks of 512 octets the files may take together, 1 to 65,536.
    pub blocks: u32,
}
