//! The lines of a text, and the words of a line.

ghost use Rattle.std.specs.Prelude.{◌≡◌, ◌<◌, [], ◌∷◌, IfSome, MatchOption, length};
ghost use Rattle.air_schedule.specs.Text.{parts_of, words_of};

/// The first line of a text, without its LF, and what comes after it; or nothing if there is no LF.
pub(crate) fn split_line(text: &[u8]) -> Option<(&[u8], &[u8])>
    ensures parts { MatchOption result (parts_of text.now ≡ text.now ∷ [])
        (λ parts. parts_of text.now ≡ parts.0.now ∷ parts_of parts.1.now) }
    ensures shorter { IfSome result (λ parts. length parts.1.now < length text.now) }
{
    match text.iter().position(|octet| *octet == b'\n') {
        Some(end) => Some((&text[..end], &text[end + 1..])),
        None => None,
    }
}

/// The first word of a line, and what comes after the blank that ends it; or nothing if there is no blank.
pub(crate) fn split_word(line: &str) -> Option<(&str, &str)>
    ensures { MatchOption result (words_of line.now ≡ line.now ∷ [])
        (λ parts. words_of line.now ≡ parts.0.now ∷ words_of parts.1.now) }
{
    line.split_once(' ')
}
