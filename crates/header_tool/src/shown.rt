//! The text that shows a file's header, and that of its check.

ghost use Rattle.std.specs.Prelude.{◌≡◌, ◌≢◌, ◌++◌, IfOk, IfSome};
ghost use Rattle.header_tool.specs.Lines.{IsCodeOf, check_text, header_lines, item_lines};
ghost use Rattle.pfh_items.specs.Faults.{fault_code};

use crate::line::{line_of_check, line_of_item};
use pfh_reader::{Header, check};
use px_base::{FileBytes, OutOfMemory};
use std::alloc::Global;

/// A text that says how a file is, and the code of its fault.
#[derive(Debug, Drop)]
pub struct Shown {
    /// The text: lines, each with its line feed.
    pub text: FileBytes,
    /// The code of the file's first fault (FTL0 1990, error codes): 6, 7, 14, 15 or 16, and 0 for none.
    pub code: u8,
}

/// Shows a file's header: a line for each item, in order, with its id as four hexadecimal digits, the length of its data in
/// decimal and the data in hexadecimal, in lower case and separated by one blank, without data only the first two; then the
/// line `ok`, or `fault` and the code of the first rule that the file breaks. A file that is no header and body gives the
/// last line alone. Takes memory for the text.
pub fn show(alloc: Global, file: &[u8]) -> Result<Shown, OutOfMemory>
    ensures text { IfOk result (λ shown. shown.text ≡ header_lines file.now) }
    ensures code { IfOk result (λ shown. IsCodeOf (fault_code file.now) shown.code) }
{
    let items = match Header::of_file(file) {
        Some(header) => text_of_items(alloc, &header)?,
        None => FileBytes::new(alloc),
    };
    with_check(items, file)
}

/// Shows what the check of a file finds: the line `ok`, or `fault` and the code of the first rule that it breaks. Takes
/// memory for the text.
pub fn check_line(alloc: Global, file: &[u8]) -> Result<Shown, OutOfMemory>
    ensures text { IfOk result (λ shown. shown.text ≡ check_text file.now) }
    ensures code { IfOk result (λ shown. IsCodeOf (fault_code file.now) shown.code) }
{
    with_check(FileBytes::new(alloc), file)
}

/// The lines of a header's items.
fn text_of_items(alloc: Global, header: &Header<'_>) -> Result<FileBytes, OutOfMemory>
    ensures { IfOk result (λ text. text ≡ item_lines header.now.items) }
{
    // The line of an item has at most three times as many octets as the item.
    let room = header.header().len().saturating_mul(3);
    let mut text = FileBytes::from_vec(Vec::with_capacity(alloc, room)?);
    for item in header.items() {
        text.append(line_of_item(&item).as_slice())?;
    }
    Ok(text)
}

/// A text and, at its end, the line that says what the check of a file finds.
fn with_check(mut text: FileBytes, file: &[u8]) -> Result<Shown, OutOfMemory>
    ensures text { IfOk result (λ shown. shown.text ≡ text ++ check_text file.now) }
    ensures code { IfOk result (λ shown. IsCodeOf (fault_code file.now) shown.code) }
{
    let code = first_code(file);
    text.append(line_of_check(code).as_slice())?;
    Ok(Shown {
        text,
        code: code.unwrap_or(0),
    })
}

/// The code of a file's first fault, if it has one.
fn first_code(file: &[u8]) -> Option<u8>
    ensures code { result ≡ fault_code file.now }
    ensures some { IfSome result (λ code. code ≢ 0) }
{
    match check(file) {
        Ok(_header) => None,
        Err(fault) => Some(fault.code),
    }
}
