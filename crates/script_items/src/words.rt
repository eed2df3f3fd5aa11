ghost use Rattle.std.specs.Prelude.{◌≡◌, ◌<◌, ◌≤◌, ◌+◌, ◌-◌, ◌==◌, ◌∷◌, [], length, take, drop, not, position, IfSome, IfNone, IfOk, IfErr};
ghost use Rattle.std.specs.List.{slice_split, suffix_len, before_last, after_last};
ghost use Rattle.brpc_model.specs.Text.{words};
ghost use Rattle.script_items.specs.declared.fault.LineFault.TheVariants as faults;
ghost use Rattle.script_items.specs.FollowingLineWords.{HasFirst};

use crate::fault::{BAD_WORDS, LineFault};

/// The place of the first such byte.
fn find_byte(bytes: &[u8], byte: u8) -> Option<usize>
    ensures place { result ≡ position (λ b. b == byte) bytes.now }
    ensures within { IfSome result (λ at. at < length bytes.now) }
{
    bytes.iter().position(|b| *b == byte)
}

/// What stands before the first such byte and behind it, where there is one.
pub fn split_once(bytes: &[u8], byte: u8) -> Option<(&[u8], &[u8])>
    ensures some { IfSome result (λ p.
        slice_split (λ b. b == byte) bytes.now ≡ p.0.now ∷ slice_split (λ b. b == byte) p.1.now) }
    ensures more { IfSome result (λ p. HasFirst (slice_split (λ b. b == byte) p.1.now)) }
    ensures none { IfNone result (slice_split (λ b. b == byte) bytes.now ≡ bytes.now ∷ []) }
    ensures shorter { IfSome result (λ p. length p.1.now < length bytes.now) }
{
    match find_byte(bytes, byte) {
        Some(at) => Some((before(bytes, at), behind(bytes, at + 1))),
        None => None,
    }
}

/// The bytes before a place.
fn before(bytes: &[u8], at: usize) -> &[u8]
    requires { at ≤ length bytes.now }
    ensures { result.now ≡ take at bytes.now }
{
    &bytes[..at]
}

/// The bytes from a place on.
pub fn behind(bytes: &[u8], at: usize) -> &[u8]
    requires { at ≤ length bytes.now }
    ensures { result.now ≡ drop at bytes.now }
{
    &bytes[at..]
}

/// The place behind the last such byte, or 0 where there is none.
fn behind_last(bytes: &[u8], byte: u8) -> usize
    ensures place { result ≡ length bytes.now - suffix_len (λ b. not (b == byte)) bytes.now }
    ensures within { result ≤ length bytes.now }
{
    let mut at = bytes.len();
    while at > 0 && bytes[at - 1] != byte {
        at -= 1;
    }
    at
}

/// What stands before the last such byte and behind it; all stands behind it where there is none.
pub fn split_last(bytes: &[u8], byte: u8) -> (&[u8], &[u8])
    ensures before { result.0.now ≡ before_last (λ b. b == byte) bytes.now }
    ensures behind { result.1.now ≡ after_last (λ b. b == byte) bytes.now }
{
    let at = behind_last(bytes, byte);
    (before(bytes, at.saturating_sub(1)), behind(bytes, at))
}

/// The first word of a line and what follows it, where there is a word. Words are parted by one or
/// more spaces.
pub fn first_word(line: &[u8]) -> Option<(&[u8], &[u8])>
    ensures some { IfSome result (λ p. words line.now ≡ p.0.now ∷ words p.1.now) }
    ensures none { IfNone result (words line.now ≡ []) }
    ensures shorter { IfSome result (λ p. length p.1.now < length line.now) }
{
    let mut rest = line;
    while let Some((word, behind)) = split_once(rest, b' ') {
        if !word.is_empty() {
            return Some((word, behind));
        }
        rest = behind;
    }
    if rest.is_empty() {
        None
    } else {
        Some((rest, &[]))
    }
}

/// The next word of a line that must have one, and what follows it.
pub fn next_word(line: &[u8]) -> Result<(&[u8], &[u8]), LineFault>
    ensures word { IfOk result (λ p. words line.now ≡ p.0.now ∷ words p.1.now) }
    ensures none { IfErr result (λ e. (e ≡ faults.Kind 3) × (words line.now ≡ [])) }
{
    first_word(line).ok_or(BAD_WORDS)
}

/// The end of a line that must have no more words.
pub fn no_more_words(line: &[u8]) -> Result<(), LineFault>
    ensures none { IfOk result (λ _. words line.now ≡ []) }
    ensures more { IfErr result (λ e. (e ≡ faults.Kind 3) × HasFirst (words line.now)) }
{
    match first_word(line) {
        None => Ok(()),
        Some(_) => Err(BAD_WORDS),
    }
}
