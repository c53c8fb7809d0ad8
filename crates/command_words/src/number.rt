//! Numbers among the words.

ghost use Rattle.std.specs.Prelude.{◌≡◌, ℕ, ◌+◌, ◌-◌, ◌*◌, ◌<◌, ◌≤◌, ◌^◌, Option, Some, IfNone, IfSome, SomeIff, option_copied};
ghost use Rattle.std.specs.List.{AllByRecursion};
ghost use Rattle.command_words.specs.Numbers.{GivesNumber, IsDigit, IsNumberOr, NumberText, number_after as digits_after};

/// The last moment that can be told, in seconds since 1 January 1970.
pub(crate) const LAST_MOMENT: u64 = 4_294_967_295;

/// The moment that an option's value writes, in seconds since 1 January 1970, where it is given; or nothing where a
/// value writes none.
pub(crate) fn optional_moment(value: Option<&str>) -> Option<Option<u32>>
    ensures some { IfSome result (λ moment. GivesNumber 0 4294967295 (option_copied value.entry) moment) }
    ensures none { IfNone result ((moment : Option ℕ) →
        GivesNumber 0 4294967295 (option_copied value.entry) moment → ⊥) }
{
    match value {
        Some(text) => Some(Some(read_number(0, LAST_MOMENT, text)? as u32)),
        None => Some(None),
    }
}

/// The number of this range that an option's value writes, or nothing where none is given, or the value writes none.
pub(crate) fn given_number(low: u64, high: u64, value: Option<&str>) -> Option<u64>
    ensures some { IfSome result (λ number. GivesNumber low high (option_copied value.entry) (Some number)) }
    ensures none { IfNone result ((number : ℕ) →
        GivesNumber low high (option_copied value.entry) (Some number) → ⊥) }
{
    read_number(low, high, value?)
}

/// The number of this range that an option's value writes, or the one that stands for it where none is given; or nothing
/// where a value writes none.
pub(crate) fn number_or(otherwise: u64, low: u64, high: u64, value: Option<&str>) -> Option<u64>
    requires { otherwise ≤ high }
    ensures some { IfSome result (IsNumberOr otherwise low high (option_copied value.entry)) }
    ensures most { IfSome result (λ number. number ≤ high) }
    ensures none { IfNone result ((number : ℕ) →
        IsNumberOr otherwise low high (option_copied value.entry) number → ⊥) }
{
    match value {
        Some(text) => read_number(low, high, text),
        None => Some(otherwise),
    }
}

/// The number of this range that one to twenty decimal digits write.
pub(crate) fn read_number(low: u64, high: u64, text: &str) -> Option<u64>
    ensures some { IfSome result (λ number. NumberText low high text.now number) }
    ensures none { IfNone result ((number : ℕ) → NumberText low high text.now number → ⊥) }
{
    if text.is_empty() || text.len() > 20 {
        return None;
    }
    let number = number_after(0, text.as_bytes())?;
    if number < low || high < number {
        return None;
    }
    Some(number)
}

/// The number that these digits write after those of a number before them, where it is below 2^64.
fn number_after(before: u64, digits: &[u8]) -> Option<u64>
    ensures some { IfSome result (λ number.
        AllByRecursion IsDigit digits.now × (number ≡ digits_after before digits.now)) }
    ensures none { IfNone result (AllByRecursion IsDigit digits.now → 2 ^ 64 ≤ digits_after before digits.now) }
{
    let mut number = before;
    for digit in digits {
        if !digit.is_ascii_digit() {
            return None;
        }
        let Some(more) = with_digit(number, *digit) else {
            return None;
        };
        number = more;
    }
    Some(number)
}

/// The number with one more decimal digit, where it is below 2^64.
fn with_digit(number: u64, digit: u8) -> Option<u64>
    requires { IsDigit digit }
    ensures { SomeIff result (10 * number + (digit - 48) < 2 ^ 64) (10 * number + (digit - 48)) }
{
    number.checked_mul(10)?.checked_add(u64::from(digit - b'0'))
}
