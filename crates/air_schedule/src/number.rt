//! Numbers among the words.

ghost use Rattle.std.specs.Prelude.{◌≡◌, ◌∷◌, [], ℕ, ◌≤◌, MatchOption, decimal};
ghost use Rattle.air_schedule.specs.Text.{IsNumber, words_of};

use crate::split::split_word;
use itoa::Buffer;

/// The number that a word writes in decimal, without leading zero.
pub(crate) fn read_number(word: &str) -> Option<u64>
    ensures number { MatchOption result ((number : ℕ) → IsNumber number → word.now ≡ decimal number → ⊥)
        (λ number. word.now ≡ decimal number) }
    ensures one_word { MatchOption result ((number : ℕ) → IsNumber number → words_of word.now ≡ decimal number ∷ [] → ⊥)
        (λ number. words_of word.now ≡ decimal number ∷ []) }
{
    let Ok(number) = word.parse::<u64>() else {
        return None;
    };
    // `parse` takes a plus and leading zeros too.
    if Buffer::new().format(number) != word {
        return None;
    }
    Some(number)
}

/// The number of this range that a word writes in decimal, without leading zero.
pub(crate) fn read_ranged(low: u64, high: u64, word: &str) -> Option<u64>
    ensures { MatchOption result
        ((number : ℕ) → low ≤ number → number ≤ high → words_of word.now ≡ decimal number ∷ [] → ⊥)
        (λ number. (low ≤ number) × (number ≤ high) × (words_of word.now ≡ decimal number ∷ [])) }
{
    let number = read_number(word)?;
    if number < low || high < number {
        return None;
    }
    Some(number)
}

/// The two numbers of a line's last two words.
pub(crate) fn read_numbers(words: &str) -> Option<(u64, u64)>
    ensures { MatchOption result
        ((first second : ℕ) → IsNumber first → IsNumber second
        → words_of words.now ≡ decimal first ∷ decimal second ∷ [] → ⊥)
        (λ numbers. words_of words.now ≡ decimal numbers.0 ∷ decimal numbers.1 ∷ []) }
{
    let (first, second) = split_word(words)?;
    Some((read_number(first)?, read_number(second)?))
}
