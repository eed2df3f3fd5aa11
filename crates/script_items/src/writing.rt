ghost use Rattle.std.specs.Prelude.{◌≡◌, ◌++◌, decimal, OnOk};
ghost use Rattle.sock_words.specs.PrintedWords.{word, hex_text};

use itoa::Buffer;
use std::alloc::{AllocError, Global};

/// Appends a number in decimal.
pub fn push_number(text: &mut Vec<u8>, number: u64) -> Result<(), AllocError>
    ensures { OnOk result (text.new.items ≡ text.old.items ++ decimal number) }
{
    let mut buffer = Buffer::new();
    text.extend_from_slice(buffer.format(number).as_bytes())
}

/// Appends bytes in lower-case hexadecimal, `-` for none.
pub fn push_hex(alloc: Global, text: &mut Vec<u8>, bytes: &[u8]) -> Result<(), AllocError>
    ensures { OnOk result (text.new.items ≡ text.old.items ++ hex_text bytes.now) }
{
    if bytes.is_empty() {
        return text.extend_from_slice(b"-");
    }
    let digits = hex::encode(alloc, bytes)?;
    text.extend_from_slice(digits.as_bytes())
}

/// Appends a space and then the word.
pub fn push_word(text: &mut Vec<u8>, bytes: &[u8]) -> Result<(), AllocError>
    ensures { OnOk result (text.new.items ≡ text.old.items ++ word bytes.now) }
{
    text.extend_from_slice(b" ")?;
    text.extend_from_slice(bytes)
}

/// Appends a space and then the number.
pub fn push_number_word(text: &mut Vec<u8>, number: u64) -> Result<(), AllocError>
    ensures { OnOk result (text.new.items ≡ text.old.items ++ word (decimal number)) }
{
    text.extend_from_slice(b" ")?;
    push_number(text, number)
}

/// Appends a space and then the bytes in hexadecimal.
pub fn push_hex_word(alloc: Global, text: &mut Vec<u8>, bytes: &[u8]) -> Result<(), AllocError>
    ensures { OnOk result (text.new.items ≡ text.old.items ++ word (hex_text bytes.now)) }
{
    text.extend_from_slice(b" ")?;
    push_hex(alloc, text, bytes)
}
