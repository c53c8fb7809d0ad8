//! What the codes of a refusal mean.

use ftl0_packets::ErrorCode;

/// What a code of `refused` or of `fault` means (FTL0 1990, error codes; PFH 1990).
pub fn meaning_of_code(code: u8) -> &'static str {
    match ErrorCode::of(code) {
        Some(error) => meaning_of(error),
        None => NO_MEANING,
    }
}

/// What is shown of a code that no reply of a server has.
const NO_MEANING: &str = "a code of no known meaning";

fn meaning_of(error: ErrorCode) -> &'static str {
    match error {
        ErrorCode::IllFormedCmd => "an ill-formed packet, or one that has no place here",
        ErrorCode::BadContinue => "the file is another caller's, or has another length",
        ErrorCode::ServerFsys => "the server's disk failed",
        ErrorCode::NoSuchFileNumber => "no complete file of this number",
        ErrorCode::SelectionEmpty | ErrorCode::AlsoSelectionEmpty => {
            "nothing is left in the selection"
        }
        ErrorCode::MandatoryFieldMissing => "an item that each header has is missing",
        ErrorCode::NoPfh => "the file has no file header",
        ErrorCode::PoorlyFormedSel => "the selection is ill-formed",
        ErrorCode::AlreadyLocked => NO_MEANING,
        ErrorCode::NoSuchDestination => "no lock is granted",
        ErrorCode::FileComplete => "the file is complete already",
        ErrorCode::NoRoom => "the file is too long, or there is no room for it",
        ErrorCode::BadHeader => "the file's header is bad",
        ErrorCode::HeaderCheck => "the header's checksum is wrong",
        ErrorCode::BodyCheck => "the body's checksum is wrong, or the file is cut off",
    }
}
