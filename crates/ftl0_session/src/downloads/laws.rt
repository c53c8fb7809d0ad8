//! Laws of downloads, directories and selections, each the contract of a function that does nothing.

ghost use Rattle.ftl0_session.specs.Downloads.Laws.{DownloadedLaw, DueStaysLaw, ListsStayLaw, LongListedLaw, SentLaw};
ghost use Rattle.ftl0_session.specs.Downloads.Laws.{ShortListedLaw};

/// While the store keeps its complete files, what is due stays due, octet by octet, and the files of the lists stay
/// complete.
pub fn stays_law()
    ensures due { DueStaysLaw }
    ensures lists { ListsStayLaw }
{}

/// If no read fails, the DATA that are sent have together exactly the octets that are due, and then comes DATA_END.
pub fn sent_law()
    ensures { SentLaw }
{}

/// A complete file that is asked for from an offset on, up to its length, is sent exactly from there to its end.
pub fn downloaded_law()
    ensures { DownloadedLaw }
{}

/// When files are listed, exactly their short forms are sent, or exactly their headers, one after another.
pub fn listed_law()
    ensures short { ShortListedLaw }
    ensures long { LongListedLaw }
{}
