//! The table of item ids (PFH 1990, mandatory and extended header), written once: the check of a header, its builder and
//! its short form all go by it.

ghost use Rattle.std.specs.Prelude.{◌≡◌, ◌==◌, ◌&&◌, not, find, option_copied};
ghost use Rattle.std.specs.List.{list_any};
ghost use Rattle.pfh_items.specs.Table.{extended_items, fixed_len as fixed_len_of, is_mandatory as is_mandatory_id, is_number as is_number_id, is_number_form, is_single as is_single_id, mandatory_items};

use crate::ids::{
    AX25_DOWNLOADER, AX25_UPLOADER, BODY_CHECKSUM, BODY_OFFSET, CREATE_TIME, DESTINATION,
    DOWNLOAD_COUNT, DOWNLOAD_TIME, EXPIRE_TIME, FILE_EXT, FILE_NAME, FILE_NUMBER, FILE_SIZE,
    FILE_TYPE, HEADER_CHECKSUM, LAST_MODIFIED_TIME, PRIORITY, SEU_FLAG, SOURCE, UPLOAD_TIME,
};

/// How the data of an item is read.
#[derive(Clone, Copy, Debug, PartialEq, Eq)]
pub enum Form {
    /// An unsigned number, least significant octet first.
    Number,
    /// Octets, most of them text.
    Text,
}

impl Form {
    /// Whether the data is a number.
    fn is_number(self) -> bool
        ensures { result ≡ is_number_form self }
    {
        matches!(self, Form::Number)
    }
}

/// An item that every header has, once and with this length.
#[derive(Clone, Copy, Debug, PartialEq, Eq)]
pub struct MandatoryItem {
    /// The item's id.
    pub id: u16,
    /// The length of its data in octets.
    pub len: u8,
    /// How its data is read.
    pub form: Form,
}

/// An item that a server and its callers add.
#[derive(Clone, Copy, Debug, PartialEq, Eq)]
pub struct ExtendedItem {
    /// The item's id.
    pub id: u16,
    /// The length of its data in octets, where it is fixed.
    pub len: Option<u8>,
    /// How its data is read.
    pub form: Form,
    /// Whether a header may have more than one.
    pub repeats: bool,
}

macro_rules! mandatory {
    ($id:expr, $len:expr, $form:ident) => {
        MandatoryItem {
            id: $id,
            len: $len,
            form: Form::$form,
        }
    };
}

macro_rules! once {
    ($id:expr, $len:expr, $form:ident) => {
        ExtendedItem {
            id: $id,
            len: $len,
            form: Form::$form,
            repeats: false,
        }
    };
}

macro_rules! repeated {
    ($id:expr, $len:expr, $form:ident) => {
        ExtendedItem {
            id: $id,
            len: $len,
            form: Form::$form,
            repeats: true,
        }
    };
}

/// The mandatory items, in ascending order.
pub static MANDATORY_ITEMS: [MandatoryItem; 11] = [
    mandatory!(FILE_NUMBER, 4, Number),
    mandatory!(FILE_NAME, 8, Text),
    mandatory!(FILE_EXT, 3, Text),
    mandatory!(FILE_SIZE, 4, Number),
    mandatory!(CREATE_TIME, 4, Number),
    mandatory!(LAST_MODIFIED_TIME, 4, Number),
    mandatory!(SEU_FLAG, 1, Number),
    mandatory!(FILE_TYPE, 1, Number),
    mandatory!(BODY_CHECKSUM, 2, Number),
    mandatory!(HEADER_CHECKSUM, 2, Number),
    mandatory!(BODY_OFFSET, 2, Number),
];

/// The extended items, in ascending order. The optional ones, and all others, have any length, are read as octets and may
/// stand more than once.
pub static EXTENDED_ITEMS: [ExtendedItem; 9] = [
    once!(SOURCE, None, Text),
    once!(AX25_UPLOADER, Some(6), Text),
    once!(UPLOAD_TIME, Some(4), Number),
    once!(DOWNLOAD_COUNT, Some(1), Number),
    repeated!(DESTINATION, None, Text),
    repeated!(AX25_DOWNLOADER, Some(6), Text),
    repeated!(DOWNLOAD_TIME, Some(4), Number),
    once!(EXPIRE_TIME, Some(4), Number),
    once!(PRIORITY, Some(1), Number),
];

/// Whether every header has an item of this id. Takes no memory.
pub fn is_mandatory(id: u16) -> bool
    ensures { result ≡ is_mandatory_id id }
{
    MANDATORY_ITEMS.iter().any(|rule| rule.id == id)
}

/// Whether the data of an item of this id is a number. Takes no memory.
pub fn is_number(id: u16) -> bool
    ensures { result ≡ is_number_id id }
{
    is_mandatory_number(id) || is_extended_number(id)
}

/// Whether it is the id of a mandatory item whose data is a number.
fn is_mandatory_number(id: u16) -> bool
    ensures { result ≡ list_any (λ rule. (rule.id == id) && is_number_form rule.form) mandatory_items }
{
    MANDATORY_ITEMS
        .iter()
        .any(|rule| rule.id == id && rule.form.is_number())
}

/// Whether it is the id of an extended item whose data is a number.
fn is_extended_number(id: u16) -> bool
    ensures { result ≡ list_any (λ rule. (rule.id == id) && is_number_form rule.form) extended_items }
{
    EXTENDED_ITEMS
        .iter()
        .any(|rule| rule.id == id && rule.form.is_number())
}

/// The length in octets of the data of an item of this id, where it is fixed. Takes no memory.
pub fn fixed_len(id: u16) -> Option<u8>
    ensures { result ≡ fixed_len_of id }
{
    match mandatory_item(id) {
        Some(rule) => Some(rule.len),
        None => match extended_item(id) {
            Some(rule) => rule.len,
            None => None,
        },
    }
}

/// The table's row of a mandatory item.
fn mandatory_item(id: u16) -> Option<&'static MandatoryItem>
    ensures { option_copied result ≡ find (λ rule. rule.id == id) mandatory_items }
{
    MANDATORY_ITEMS.iter().find(|rule| rule.id == id)
}

/// The table's row of an extended item.
fn extended_item(id: u16) -> Option<&'static ExtendedItem>
    ensures { option_copied result ≡ find (λ rule. rule.id == id) extended_items }
{
    EXTENDED_ITEMS.iter().find(|rule| rule.id == id)
}

/// Whether a header may have only one item of this id. Takes no memory.
pub fn is_single(id: u16) -> bool
    ensures { result ≡ is_single_id id }
{
    is_mandatory(id) || is_single_extended(id)
}

/// Whether it is the id of an extended item that may stand only once.
fn is_single_extended(id: u16) -> bool
    ensures { result ≡ list_any (λ rule. (rule.id == id) && not rule.repeats) extended_items }
{
    EXTENDED_ITEMS
        .iter()
        .any(|rule| rule.id == id && !rule.repeats)
}
