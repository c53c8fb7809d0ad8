//! The ids of items (PFH 1990, mandatory, extended and optional header).

/// file_number: the number by which a server knows the file.
pub const FILE_NUMBER: u16 = 0x01;

/// file_name: the name's first eight characters, padded with blanks.
pub const FILE_NAME: u16 = 0x02;

/// file_ext: three characters of extension, padded with blanks.
pub const FILE_EXT: u16 = 0x03;

/// file_size: the length of header and body in octets.
pub const FILE_SIZE: u16 = 0x04;

/// create_time: when the file was made, in seconds since 1 January 1970.
pub const CREATE_TIME: u16 = 0x05;

/// last_modified_time: when it was changed last.
pub const LAST_MODIFIED_TIME: u16 = 0x06;

/// seu_flag: whether a single event upset was found in it.
pub const SEU_FLAG: u16 = 0x07;

/// file_type: of what type the body is.
pub const FILE_TYPE: u16 = 0x08;

/// body_checksum: the sum of the body's octets modulo 65,536.
pub const BODY_CHECKSUM: u16 = 0x09;

/// header_checksum: the sum of the header's octets, its own two taken as zero, modulo 65,536.
pub const HEADER_CHECKSUM: u16 = 0x0A;

/// body_offset: the length of the header in octets.
pub const BODY_OFFSET: u16 = 0x0B;

/// source: who the message is from.
pub const SOURCE: u16 = 0x10;

/// ax25_uploader: the call of the station that uploaded the file.
pub const AX25_UPLOADER: u16 = 0x11;

/// upload_time: when the upload was complete.
pub const UPLOAD_TIME: u16 = 0x12;

/// download_count: how often the file was downloaded.
pub const DOWNLOAD_COUNT: u16 = 0x13;

/// destination: who the message is for.
pub const DESTINATION: u16 = 0x14;

/// ax25_downloader: the call of a station that downloaded the file.
pub const AX25_DOWNLOADER: u16 = 0x15;

/// download_time: when it did.
pub const DOWNLOAD_TIME: u16 = 0x16;

/// expire_time: when the file may be deleted.
pub const EXPIRE_TIME: u16 = 0x17;

/// priority: how urgent the file is.
pub const PRIORITY: u16 = 0x18;

/// compression_type: how the body is compressed.
pub const COMPRESSION_TYPE: u16 = 0x19;

/// bbs_message_type: the type of a bulletin board's message.
pub const BBS_MESSAGE_TYPE: u16 = 0x20;

/// bulletin id: the id of a bulletin.
pub const BULLETIN_ID: u16 = 0x21;

/// title: the title of the message.
pub const TITLE: u16 = 0x22;

/// keywords: words by which the file may be found.
pub const KEYWORDS: u16 = 0x23;

/// file_description: what is in the file.
pub const FILE_DESCRIPTION: u16 = 0x24;

/// compression_description: what the compression is.
pub const COMPRESSION_DESCRIPTION: u16 = 0x25;

/// user_file_name: the name that the user gave the file.
pub const USER_FILE_NAME: u16 = 0x26;
