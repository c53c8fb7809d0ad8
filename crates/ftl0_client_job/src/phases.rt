//! How far a job has come (FTL0 1990, the client's states).

use px_base::FileNumber;

/// How far an upload has come.
///
/// A line of the picture is a packet, then `/` and the reply, `-` for none, in braces what is noted before it, and
/// after `-->` the outcome, with which the link is hung up: at once, or later, once all that is queued is acknowledged.
/// Refused 3 isn't noted. UL_GO_RESP is strange if n is 0 or another number than the one that is known, or the offset
/// isn't 0 for a new file or is above the length of a known one. Any other packet is strange. The rows are in
/// specs/Upload.antt, what is sent without a packet in specs/Due.antt.
///
/// ```text
/// +-------------+
/// | Login       |
/// +-------------+
///    |             LOGIN_RESP              / UPLOAD_CMD number or 0, length
///    v
/// +-------------+
/// | Go          |  UL_ERROR_RESP 12, known / -  {Acked}                     --> Acked
/// |             |  UL_ERROR_RESP c, else   / -  {Refused c}                 --> Refused c
/// +-------------+
///    |             UL_GO_RESP n, offset    / -  {Numbered n, of a new file}
///    v
/// +-------------+
/// | Sending     |  UL_NAK_RESP c           / DATA_END  {Refused c}          --> Refused c, later
/// |             |  octets are left         sends DATA
/// +-------------+
///    |             none is left            sends DATA_END
///    v
/// +-------------+
/// | Ack         |  UL_ACK_RESP             / -  {Acked}                     --> Acked
/// |             |  UL_NAK_RESP c           / -  {Refused c}                 --> Refused c
/// +-------------+
/// ```
#[derive(Clone, Copy)]
pub(crate) enum UploadPhase {
    /// LOGIN_RESP is waited for.
    Login,
    /// UL_GO_RESP is waited for.
    Go,
    /// The file, which has this number on the server, is sent from this place on.
    Sending { number: FileNumber, place: u32 },
    /// UL_ACK_RESP or UL_NAK_RESP for the file of this number is waited for.
    Ack { number: FileNumber },
}

/// How far a list has come.
///
/// The picture is as that of [`UploadPhase`]; nothing is noted. DATA is strange if more than 74,752 octets would have
/// come; DATA_END and code 11 or 5 are strange if what came isn't short headers, one after another. The rows are in
/// specs/Directory.antt.
///
/// ```text
/// +-------------+
/// | Login       |
/// +-------------+
///    |             LOGIN_RESP              / SELECT_CMD tokens
///    v
/// +-------------+
/// | Selecting   |  SELECT_RESP 0           / -                              --> Listed
/// |             |  DL_ERROR_RESP c         / -                              --> Refused c
/// +-------------+
///    |             SELECT_RESP count       / DIR_SHORT_CMD 0
///    v
/// +-------------+
/// | Listing     |  DATA                    / -
/// |             |  DATA_END                / DIR_SHORT_CMD 0
/// |             |  DL_ERROR_RESP 11 or 5   / -                              --> Listed
/// |             |  DL_ERROR_RESP c, else   / -                              --> Refused c
/// +-------------+
/// ```
#[derive(Clone, Copy)]
pub(crate) enum DirectoryPhase {
    /// LOGIN_RESP is waited for.
    Login,
    /// SELECT_RESP is waited for.
    Selecting,
    /// Headers come.
    Listing,
}

/// How far a download has come.
///
/// The picture is as that of [`UploadPhase`]. DATA is strange if more than 4,194,304 octets would have come. At
/// DATA_END a Got notes the octets that wait, if any do. The rows are in specs/Download.antt.
///
/// ```text
/// +-------------+
/// | Login       |
/// +-------------+
///    |             LOGIN_RESP              / DOWNLOAD_CMD number, got, 0
///    v
/// +-------------+
/// | Fetching    |  DATA                    / -  {Got, of each whole 512}
/// |             |  DATA_END, a fault c     / DL_NAK_CMD  {Got, Forgot}      --> BadFile c, later
/// |             |  DL_ERROR_RESP 2         / -  {Forgot}                    --> Refused 2
/// |             |  DL_ERROR_RESP c, else   / -                              --> Refused c
/// +-------------+
///    |             DATA_END, no fault      / DL_ACK_CMD  {Got}
///    v
/// +-------------+
/// | Done        |  DL_COMPLETED_RESP       / -                              --> Fetched
/// +-------------+
/// ```
#[derive(Clone, Copy)]
pub(crate) enum DownloadPhase {
    /// LOGIN_RESP is waited for.
    Login,
    /// The file's octets come.
    Fetching,
    /// The file came whole, and DL_COMPLETED_RESP is waited for.
    Done,
}
