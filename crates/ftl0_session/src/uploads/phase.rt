//! What a session waits for.

use file_store::OpenUpload;

/// What a session waits for. It must be spent if it has an upload.
///
/// A line of the picture is a packet, then `/` and the reply, `-` for none, and in brackets the commands of the store
/// that are on the disk before it: a Grow for each whole 512 octets, and at DATA_END for those that wait, if any do.
/// The rows are in specs/Uploads/Session.antt.
///
/// ```text
/// +---------+
/// | Command |  UPLOAD_CMD 0           / UL_GO_RESP number, 0    [Begin]      +-------------------+
/// |         |  UPLOAD_CMD number      / UL_GO_RESP number, held              | Receiving         |
/// |         |--------------------------------------------------------------->|                   |
/// |         |                                                                | DATA / -  [Grow]  |
/// |         |  DATA_END, no fault     / UL_ACK_RESP             [Grow, Seal] |                   |
/// |         |  DATA_END, a fault      / UL_NAK_RESP 6, 7, 14-16 [Grow, Drop] |                   |
/// |         |  DATA_END, a read fails / UL_NAK_RESP 3           [Grow]       |                   |
/// |         |  DATA_END, too short    / UL_NAK_RESP 16                       |                   |
/// |         |<---------------------------------------------------------------|                   |
/// |         |                                                                +-------------------+
/// |         |                                          DATA, too many         |
/// |         |                                          / UL_NAK_RESP 1        v
/// |         |                                                                +-------------------+
/// |         |  DATA_END               / -                                    | Aborting          |
/// |         |<---------------------------------------------------------------| DATA / -          |
/// +---------+                                                                +-------------------+
/// ```
///
/// In Command, which stays, UPLOAD_CMD 0 is refused by UL_ERROR_RESP 13, and UPLOAD_CMD with another number by
/// UL_ERROR_RESP 4, 2 or 12. Any other of these packets is refused by UL_ERROR_RESP 1, and the phase stays. If a write
/// or a sync of the disk fails, the session ends, by UL_ERROR_RESP 3 in Command and UL_NAK_RESP 3 in Receiving.
pub enum Phase {
    /// A command.
    Command,
    /// The octets of this upload.
    Receiving(OpenUpload),
    /// The end of a file that was refused.
    Aborting,
}
