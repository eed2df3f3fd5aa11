ghost use Rattle.std.specs.Prelude.{◌≡◌, ◌<◌, ◌≤◌, ◌+◌, ◌==◌, ◌∷◌, [], length, take, drop, position, IfSome, IfNone};
ghost use Rattle.std.specs.List.{slice_split};
ghost use Rattle.brpc_model.specs.Text.{words};

/// The place of the first such byte.
fn find_byte(bytes: &[u8], byte: u8) -> Option<usize>
    ensures place { result ≡ position (λ b. b == byte) bytes.now }
    ensures within { IfSome result (λ at. at < length bytes.now) }
{
    bytes.iter().position(|b| *b == byte)
}

/// What stands before the first such byte and behind it, where there is one.
fn split_once(bytes: &[u8], byte: u8) -> Option<(&[u8], &[u8])>
    ensures some { IfSome result (λ p.
        slice_split (λ b. b == byte) bytes.now ≡ p.0.now ∷ slice_split (λ b. b == byte) p.1.now) }
    ensures none { IfNone result (slice_split (λ b. b == byte) bytes.now ≡ bytes.now ∷ []) }
    ensures shorter { IfSome result (λ p. length p.1.now < length bytes.now) }
{
    match find_byte(bytes, byte) {
        Some(at) => Some((before(bytes, at), behind(bytes, at + 1))),
        None => None,
    }
}

/// The bytes before a place.
fn before(bytes: &[u8], at: usize) -> &[u8]
    requires { at ≤ length bytes.now }
    ensures { result.now ≡ take at bytes.now }
{
    &bytes[..at]
}

/// The bytes from a place on.
fn behind(bytes: &[u8], at: usize) -> &[u8]
    requires { at ≤ length bytes.now }
    ensures { result.now ≡ drop at bytes.now }
{
    &bytes[at..]
}

/// The first word of a line and what follows it, where there is a word. Words are parted by one or
/// more spaces.
pub fn first_word(line: &[u8]) -> Option<(&[u8], &[u8])>
    ensures some { IfSome result (λ p. words line.now ≡ p.0.now ∷ words p.1.now) }
    ensures none { IfNone result (words line.now ≡ []) }
    ensures shorter { IfSome result (λ p. length p.1.now < length line.now) }
{
    let mut rest = line;
    while let Some((word, behind)) = split_once(rest, b' ') {
        if !word.is_empty() {
            return Some((word, behind));
        }
        rest = behind;
    }
    if rest.is_empty() {
        None
    } else {
        Some((rest, &[]))
    }
}
