//! The items of PACSAT file headers (PFH 1990).
//!
//! A file begins with a header: the octets AA 55, items, and an end item of three octets 00. An item is two octets of id,
//! least significant first, one of the length of its data, and 0 to 255 octets of data. [`Items`] lends the items of
//! octets, [`Header`] those of a whole header, and the table of ids says what the standard fixes of an item.
#![tactic(auto)]

mod fault;
mod header;
mod ids;
mod items;
pub mod laws;
mod sums;
mod table;

pub use fault::FileFault;
pub use header::{HEADER_START, Header, begins_header};
pub use ids::{
    AX25_DOWNLOADER, AX25_UPLOADER, BBS_MESSAGE_TYPE, BODY_CHECKSUM, BODY_OFFSET, BULLETIN_ID,
    COMPRESSION_DESCRIPTION, COMPRESSION_TYPE, CREATE_TIME, DESTINATION, DOWNLOAD_COUNT,
    DOWNLOAD_TIME, EXPIRE_TIME, FILE_DESCRIPTION, FILE_EXT, FILE_NAME, FILE_NUMBER, FILE_SIZE,
    FILE_TYPE, HEADER_CHECKSUM, KEYWORDS, LAST_MODIFIED_TIME, PRIORITY, SEU_FLAG, SOURCE, TITLE,
    UPLOAD_TIME, USER_FILE_NAME,
};
pub use items::{Item, Items, Stop};
pub use sums::{Sums, sum16};
pub use table::{
    EXTENDED_ITEMS, ExtendedItem, Form, MANDATORY_ITEMS, MandatoryItem, fixed_len, is_mandatory,
    is_number, is_single,
};
