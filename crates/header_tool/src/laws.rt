//! Laws of the text that shows a header, and of the body of a file, each the contract of a function that does nothing.

ghost use Rattle.header_tool.specs.Laws.{ChecksFault, IsBodyBehind, IsBodyOfMade, IsOneBody, ShowsFault, ShowsItems};

/// A file that is a header and a body is shown by a line for each of its items and by its first fault; any other file, and
/// the check of any file, by the first fault alone.
pub fn text_law()
    ensures items { ShowsItems }
    ensures fault { ShowsFault }
    ensures check { ChecksFault }
{}

/// The body of a file that keeps all rules begins where body_offset says and ends where file_size says; a file has one;
/// and one that is made of a body has that one.
pub fn body_law()
    ensures behind { IsBodyBehind }
    ensures one { IsOneBody }
    ensures made { IsBodyOfMade }
{}
