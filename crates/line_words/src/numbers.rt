ghost use Rattle.std.specs.Prelude.{◌≡◌, ◌≤◌, ◌<◌, ◌==◌, ◌||◌, not, length, slice_index, ◌+◌, ◌*◌, ◌^◌, IfSome, IfNone, IsTrue};
ghost use Rattle.std.specs.List.{list_all};
ghost use Rattle.std.specs.Char.{is_ascii_digit, digit_value};
ghost use Rattle.std.specs.Str.Parse.{digits_value};
ghost use Rattle.brpc_model.specs.NumberInRange.{number};
ghost use Rattle.brpc_model.specs.Text.{is_numeral};

/// Whether a word is decimal digits without a leading zero.
fn is_numeral(word: &[u8]) -> bool
    ensures { result ≡ is_numeral word.now }
{
    !word.is_empty() && has_digits(word) && !has_leading_zero(word)
}

/// Whether each byte is a digit.
fn has_digits(word: &[u8]) -> bool
    ensures { result ≡ list_all is_ascii_digit word.now }
{
    word.iter().all(|b| b.is_ascii_digit())
}

/// Whether the first digit of several is 0.
fn has_leading_zero(word: &[u8]) -> bool
    requires { 0 < length word.now }
    ensures { not result ≡ (length word.now == 1 || not (slice_index word.now 0 == 48)) }
{
    word.len() != 1 && word[0] == b'0'
}

/// The number that digits spell, where it has at most 64 bits.
fn digits_value(word: &[u8]) -> Option<u64>
    requires { IsTrue (list_all is_ascii_digit word.now) }
    ensures some { IfSome result (λ n. n ≡ digits_value 10 word.now) }
    ensures none { IfNone result (2 ^ 64 ≤ digits_value 10 word.now) }
{
    let mut value = 0u64;
    for b in word {
        value = with_digit(value, *b)?;
    }
    Some(value)
}

/// A number with one more digit behind it, where that has at most 64 bits.
fn with_digit(value: u64, digit: u8) -> Option<u64>
    requires { IsTrue (is_ascii_digit digit) }
    ensures some { IfSome result (λ n. n ≡ value * 10 + digit_value digit) }
    ensures none { IfNone result (2 ^ 64 ≤ value * 10 + digit_value digit) }
{
    value.checked_mul(10)?.checked_add(u64::from(digit - b'0'))
}

/// The number of 64 bits that a word spells, in decimal without leading zeros.
pub fn wide_number(word: &[u8]) -> Option<u64>
    ensures { result ≡ number 0 18446744073709551615 word.now }
{
    if !is_numeral(word) {
        return None;
    }
    digits_value(word)
}
