ghost use Rattle.std.specs.Prelude.{◌≡◌, ◌≤◌, ◌<◌, ◌==◌, ◌||◌, not, length, slice_index, ◌+◌, ◌*◌, ◌^◌, IfSome, IfNone, IfOk, IsTrue};
ghost use Rattle.std.specs.List.{list_all};
ghost use Rattle.std.specs.Char.{is_ascii_digit, digit_value};
ghost use Rattle.std.specs.Str.Parse.{digits_value};
ghost use Rattle.brpc_model.specs.NumberInRange.{number};
ghost use Rattle.brpc_model.specs.Text.{is_numeral, number_in};
ghost use Rattle.script_items.specs.PartReaderAnswers.{Answers};

use crate::fault::{BAD_NUMBER, LineFault};

/// Whether a word is decimal digits without a leading zero.
fn is_numeral(word: &[u8]) -> bool
    ensures { result ≡ is_numeral word.now }
{
    !word.is_empty() && has_digits(word) && !has_leading_zero(word)
}

/// Whether each byte is a digit.
fn has_digits(word: &[u8]) -> bool
    ensures { result ≡ list_all is_ascii_digit word.now }
{
    word.iter().all(|b| b.is_ascii_digit())
}

/// Whether the first digit of several is 0.
fn has_leading_zero(word: &[u8]) -> bool
    requires { 0 < length word.now }
    ensures { not result ≡ (length word.now == 1 || not (slice_index word.now 0 == 48)) }
{
    word.len() != 1 && word[0] == b'0'
}

/// The number that digits spell, where it has at most 64 bits.
fn digits_value(word: &[u8]) -> Option<u64>
    requires { IsTrue (list_all is_ascii_digit word.now) }
    ensures some { IfSome result (λ n. n ≡ digits_value 10 word.now) }
    ensures none { IfNone result (2 ^ 64 ≤ digits_value 10 word.now) }
{
    let mut value = 0u64;
    for b in word {
        value = with_digit(value, *b)?;
    }
    Some(value)
}

/// A number with one more digit behind it, where that has at most 64 bits.
fn with_digit(value: u64, digit: u8) -> Option<u64>
    requires { IsTrue (is_ascii_digit digit) }
    ensures some { IfSome result (λ n. n ≡ value * 10 + digit_value digit) }
    ensures none { IfNone result (2 ^ 64 ≤ value * 10 + digit_value digit) }
{
    value.checked_mul(10)?.checked_add(u64::from(digit - b'0'))
}

/// The number of 64 bits that a word spells, in decimal without leading zeros.
fn wide_number(word: &[u8]) -> Option<u64>
    ensures { result ≡ number 0 18446744073709551615 word.now }
{
    if !is_numeral(word) {
        return None;
    }
    digits_value(word)
}

/// The number from `low` to `high` that a word spells, in decimal without leading zeros.
pub fn number(word: &[u8], low: u32, high: u32) -> Option<u32>
    ensures number { result ≡ number low high word.now }
    ensures range { IfSome result (λ n. (low ≤ n) × (n ≤ high)) }
{
    let value = wide_number(word)?;
    if u64::from(low) <= value && value <= u64::from(high) {
        Some(value as u32)
    } else {
        None
    }
}

/// The same as a part of a line: the number of 64 bits, or a fault.
pub fn read_wide(word: &[u8]) -> Result<u64, LineFault>
    ensures { Answers (λ n. n) result (number_in 0 18446744073709551615 word.now) }
{
    wide_number(word).ok_or(BAD_NUMBER)
}

/// The same as a part of a line: the number from `low` to `high`, or a fault.
pub fn read_number(word: &[u8], low: u32, high: u32) -> Result<u32, LineFault>
    ensures number { Answers (λ n. n) result (number_in low high word.now) }
    ensures range { IfOk result (λ n. (low ≤ n) × (n ≤ high)) }
{
    number(word, low, high).ok_or(BAD_NUMBER)
}
