//! Laws of headers, each the contract of a function that does nothing.

ghost use Rattle.std.specs.Prelude.{◌≡◌, List, [], ◌∷◌, map};
ghost use Rattle.pfh_items.specs.Laws.{HasNoFault, HasNoFront, IsOctetsAsBody};
ghost use Rattle.pfh_items.specs.Laws.{IsOneFault, IsOneHeader, IsOneStamp, IsOneWalk};
ghost use Rattle.pfh_items.specs.Layout.{header_start};
ghost use Rattle.pfh_items.specs.Table.{extended_items, mandatory_items, optional_ids};

use crate::HEADER_START;
use crate::ids::{
    AX25_DOWNLOADER, AX25_UPLOADER, BBS_MESSAGE_TYPE, BODY_CHECKSUM, BODY_OFFSET, BULLETIN_ID,
    COMPRESSION_DESCRIPTION, COMPRESSION_TYPE, CREATE_TIME, DESTINATION, DOWNLOAD_COUNT,
    DOWNLOAD_TIME, EXPIRE_TIME, FILE_DESCRIPTION, FILE_EXT, FILE_NAME, FILE_NUMBER, FILE_SIZE,
    FILE_TYPE, HEADER_CHECKSUM, KEYWORDS, LAST_MODIFIED_TIME, PRIORITY, SEU_FLAG, SOURCE, TITLE,
    UPLOAD_TIME, USER_FILE_NAME,
};

/// Each id is the standard's, and so are the octets that a header begins with.
pub fn ids_law()
    ensures start { HEADER_START ≡ header_start }
    ensures mandatory { (FILE_NUMBER ∷ FILE_NAME ∷ FILE_EXT ∷ FILE_SIZE ∷ CREATE_TIME ∷ LAST_MODIFIED_TIME
        ∷ SEU_FLAG ∷ FILE_TYPE ∷ BODY_CHECKSUM ∷ HEADER_CHECKSUM ∷ BODY_OFFSET ∷ [])
        ≡ map (λ rule. rule.id) mandatory_items }
    ensures extended { (SOURCE ∷ AX25_UPLOADER ∷ UPLOAD_TIME ∷ DOWNLOAD_COUNT ∷ DESTINATION ∷ AX25_DOWNLOADER ∷ DOWNLOAD_TIME
        ∷ EXPIRE_TIME ∷ PRIORITY ∷ [])
        ≡ map (λ rule. rule.id) extended_items }
    ensures optional { (COMPRESSION_TYPE ∷ BBS_MESSAGE_TYPE ∷ BULLETIN_ID ∷ TITLE ∷ KEYWORDS ∷ FILE_DESCRIPTION
        ∷ COMPRESSION_DESCRIPTION ∷ USER_FILE_NAME ∷ [])
        ≡ optional_ids }
{}

/// Octets have the items that are read from their front, and no others; a file has one header and one body.
pub fn items_law()
    ensures walk { IsOneWalk }
    ensures header { IsOneHeader }
{}

/// A file has the first fault that is computed, and no other, or keeps all rules where none is.
pub fn fault_law()
    ensures fault { IsOneFault }
    ensures none { HasNoFault }
{}

/// A file without fault is stamped to one file.
pub fn stamp_law()
    ensures { IsOneStamp }
{}

/// A front of a file without fault has a fault, unless it is the whole file; and a file is octets where its body is.
pub fn no_front_law()
    ensures front { HasNoFront }
    ensures octets { IsOctetsAsBody }
{}
