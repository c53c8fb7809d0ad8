//! Laws of the session's whole table, and of a session over events.

ghost use Rattle.ftl0_session.specs.DownloadLaws.{DownloadedLaw, DownloadsLaw, LongListedLaw, SentLaw, ShortListedLaw};
ghost use Rattle.ftl0_session.specs.Laws.{AcknowledgedLaw, AcknowledgedStandsLaw, DueFaultLaw, FaultCodeLaw};
ghost use Rattle.ftl0_session.specs.Laws.{GrantedLaw, ResumedLaw, UnreadLaw, UploadsLaw};
ghost use Rattle.ftl0_session.specs.Run.{CommandsLaw, UploadRunLaw};

/// Each row of uploading is a row of the whole table: what is true of the rows of `uploads` is true of it.
pub fn uploads_law()
    ensures { UploadsLaw }
{}

/// A new file that may be begun is granted.
pub fn granted_law()
    ensures { GrantedLaw }
{}

/// The caller's own file that is under way goes on after the octets that are held.
pub fn resumed_law()
    ensures { ResumedLaw }
{}

/// If no read fails, a file of which all octets came, and which has no fault, is acknowledged, and is then complete
/// with these octets, stamped: it has the client's body, and the client's items except for the server's.
pub fn acknowledged_law()
    ensures { AcknowledgedLaw }
{}

/// If a read fails, a file of which all octets came is refused by UL_NAK_RESP 3, and stays under way, with exactly
/// these octets held.
pub fn unread_law()
    ensures { UnreadLaw }
{}

/// What was acknowledged stays: once the commands before and those of the row that replies UL_ACK_RESP are done, the
/// file's entry is complete, with exactly the octets that came, stamped, in every image that stands for the store after
/// at least these commands, whatever comes after them.
pub fn acknowledged_stands_law()
    ensures { AcknowledgedStandsLaw }
{}

/// Code 3 says by DL_ERROR_RESP, or by UL_NAK_RESP at the end of a whole file, that a read of the disk failed: if none
/// does, neither a row nor what is sent next has it. By UL_ERROR_RESP it says that a write or a sync failed: no row has
/// it at all.
pub fn fault_code_law()
    ensures rows { FaultCodeLaw }
    ensures due { DueFaultLaw }
{}

/// Each row of downloading is a row of the whole table, while nothing is done of uploading: what is true of the rows of
/// `downloads` is true of it.
pub fn downloads_law()
    ensures { DownloadsLaw }
{}

/// In an event in which no read fails, the DATA that are sent from a state on have together exactly the octets that
/// are due, and then comes DATA_END.
pub fn sent_law()
    ensures { SentLaw }
{}

/// A complete file that is asked for from an offset on, up to its length, is sent exactly from there to its end, over
/// the command's event: DATA with these octets and then DATA_END, so DATA_END alone if the offset is its length.
pub fn downloaded_law()
    ensures { DownloadedLaw }
{}

/// Over the event of a directory command exactly the short forms of the complete files that it lists are sent, or
/// exactly their headers, one after another, and then DATA_END.
pub fn listed_law()
    ensures short { ShortListedLaw }
    ensures long { LongListedLaw }
{}

/// The store that a session over events ends with is the one after the commands of their rows.
pub fn commands_law()
    ensures { CommandsLaw }
{}

/// Over packets of uploading a session that does nothing of downloading says and does what uploading says and does:
/// what is true of uploading over events is true of the whole session.
pub fn upload_run_law()
    ensures { UploadRunLaw }
{}
