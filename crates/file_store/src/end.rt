//! How the end of a file went.

/// How the end of a file of which all octets came went.
#[derive(Clone, Copy)]
pub(crate) enum End {
    /// It is sealed.
    Sealed,
    /// It broke a rule of headers, the first with this code, and is dropped.
    Dropped {
        /// 6, 7, 14, 15 or 16.
        code: u8,
    },
    /// A read failed, and it is under way and out still, with all octets held.
    Unread,
}
