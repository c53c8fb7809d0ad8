//! Laws of the session's table, and of a session over events.

ghost use Rattle.ftl0_session.specs.Uploads.Continued.{ContinuedLaw};
ghost use Rattle.ftl0_session.specs.Uploads.Laws.{AcknowledgedLaw, AcknowledgedStandsLaw, FaultCodeLaw, GrantedLaw};
ghost use Rattle.ftl0_session.specs.Uploads.Laws.{ResumedLaw, RowsLaw, UnreadLaw};
ghost use Rattle.ftl0_session.specs.Uploads.Run.{CommandsOfLaw};
ghost use Rattle.ftl0_session.specs.Uploads.Uploaded.{UploadedLaw};

/// Each packet of uploading has a row in each state, and no other packet has one in any.
pub fn rows_law()
    ensures { RowsLaw }
{}

/// A new file that may be begun is granted.
pub fn granted_law()
    ensures { GrantedLaw }
{}

/// The caller's own file that is under way goes on after the octets that are held.
pub fn resumed_law()
    ensures { ResumedLaw }
{}

/// If no read fails, no row of the table replies code 3, which says that the server's disk failed.
pub fn fault_code_law()
    ensures { FaultCodeLaw }
{}

/// A file of which all octets came, and which has no fault, is acknowledged, and is then complete with these octets,
/// stamped: it has the client's body, and the client's items except for the server's.
pub fn acknowledged_law()
    ensures { AcknowledgedLaw }
{}

/// If a read fails, a file of which all octets came is refused by UL_NAK_RESP 3, and stays under way, with exactly
/// these octets held.
pub fn unread_law()
    ensures { UnreadLaw }
{}

/// What was acknowledged stays: once the commands before and those of the row that replies UL_ACK_RESP are done, the
/// file's entry is complete, with exactly the octets that came, stamped, in every image that stands for the store after
/// at least these commands, whatever comes after them. The commands before may be those of this session alone, or of
/// many.
pub fn acknowledged_stands_law()
    ensures { AcknowledgedStandsLaw }
{}

/// A new file without fault that may be begun is granted and acknowledged, in whatever DATA packets it comes, and the
/// store then keeps exactly the octets that the client sent, stamped: the client's body, and the client's items except
/// for the server's.
pub fn uploaded_law()
    ensures { UploadedLaw }
{}

/// A file that was begun before goes on and is acknowledged, in whatever DATA packets the rest comes, and the store
/// then keeps exactly the octets that it held and those that came, stamped.
pub fn continued_law()
    ensures { ContinuedLaw }
{}

/// The store after a session's events is the one after the commands of their rows, in order.
pub fn commands_law()
    ensures { CommandsOfLaw }
{}
