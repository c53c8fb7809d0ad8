//! What a file's header is made of.

ghost use Rattle.std.specs.Prelude.{◌≡◌, option_copied};
ghost use Rattle.std.specs.List.{list_all};
ghost use Rattle.header_tool.specs.Made.{fits_if_given as fits_where_given, fits_item as fits_an_item, has_short_texts as has_only_short_texts, is_ext as is_ext_text, is_name as is_name_text, is_printed as is_printed_octet, make_value, spec_refusal};

use crate::MakeRefusal;

/// The most octets of an item's data.
const MAX_TEXT: usize = 255;

/// What the header of a file is made of, beside its body (PFH 1990, mandatory, extended and optional header).
#[derive(Clone, Copy, Debug, PartialEq, Eq)]
pub struct MakeSpec<'a> {
    /// file_name: 1 to 8 characters from blank to tilde; padded with blanks in the header.
    pub name: &'a str,
    /// file_ext: 0 to 3 such characters; padded with blanks in the header.
    pub ext: &'a str,
    /// file_type: of what type the body is.
    pub file_type: u8,
    /// create_time and last_modified_time, in seconds since 1 January 1970.
    pub time: u32,
    /// source: who the message is from, at most 255 octets. It stands in the header only where there is a destination.
    pub source: &'a str,
    /// destination: who the message is for, at most 255 octets. With one, the header has the items of a message too.
    pub destination: Option<&'a str>,
    /// title: the title of the message, at most 255 octets.
    pub title: Option<&'a str>,
}

impl<'a> MakeSpec<'a> {
    /// Why no file is made of this, whatever the body: [`MakeRefusal::BadName`], [`MakeRefusal::BadExt`] or
    /// [`MakeRefusal::LongText`], looked for in this order; `None` where name, extension and texts are as they may be. Takes
    /// no memory.
    pub fn refusal(&self) -> Option<MakeRefusal>
        ensures { result ≡ spec_refusal (make_value self.now) }
    {
        if !is_name(self.name) {
            Some(MakeRefusal::BadName)
        } else if !is_ext(self.ext) {
            Some(MakeRefusal::BadExt)
        } else if !self.has_short_texts() {
            Some(MakeRefusal::LongText)
        } else {
            None
        }
    }

    /// Whether each text fits an item.
    fn has_short_texts(&self) -> bool
        ensures { result ≡ has_only_short_texts (make_value self.now) }
    {
        fits_item(self.source) && fits_if_given(self.destination) && fits_if_given(self.title)
    }
}

/// Whether a text may be a file's name.
fn is_name(text: &str) -> bool
    ensures { result ≡ is_name_text text.now }
{
    1 <= text.len() && text.len() <= 8 && are_printed(text)
}

/// Whether a text may be a file's extension.
fn is_ext(text: &str) -> bool
    ensures { result ≡ is_ext_text text.now }
{
    text.len() <= 3 && are_printed(text)
}

/// Whether all octets of a text are printed characters of ASCII, or blanks.
fn are_printed(text: &str) -> bool
    ensures { result ≡ list_all is_printed_octet text.now }
{
    text.as_bytes().iter().all(|octet| is_printed(*octet))
}

/// Whether an octet is a printed character of ASCII, or a blank.
fn is_printed(octet: u8) -> bool
    ensures { result ≡ is_printed_octet octet }
{
    matches!(octet, b' '..=b'~')
}

/// Whether a text fits an item.
fn fits_item(text: &str) -> bool
    ensures { result ≡ fits_an_item text.now }
{
    text.len() <= MAX_TEXT
}

/// The same of a text that may be left out.
fn fits_if_given(text: Option<&str>) -> bool
    ensures { result ≡ fits_where_given (option_copied text.entry) }
{
    match text {
        Some(text) => fits_item(text),
        None => true,
    }
}
