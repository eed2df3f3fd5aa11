ghost use Rattle.std.specs.Prelude.{◌≡◌, length};
ghost use Rattle.std.specs.Str.Lines.{lines};
ghost use Rattle.brpc_model.specs.Text.{words};
ghost use Rattle.script_reasons.specs.ScriptFaultWords.{numbered, opened_name, opens, word_of};

use line_words::{first_line, first_word};

/// The line of this number, from 1 on; nothing where there are fewer.
pub fn line_at(text: &[u8], number: u32) -> &[u8]
    ensures { result.now ≡ numbered number (lines text.now) }
{
    let mut rest = text;
    let mut left = number;
    while !rest.is_empty() {
        let (line, behind) = first_line(rest);
        if left <= 1 {
            return line;
        }
        left -= 1;
        rest = behind;
    }
    &[]
}

/// The word of this number in a line, from 1 on; nothing where there are fewer.
pub fn word_at(line: &[u8], number: u32) -> &[u8]
    ensures { result.now ≡ word_of number line.now }
{
    let mut rest = line;
    let mut left = number;
    while let Some((word, behind)) = first_word(rest) {
        if left <= 1 {
            return word;
        }
        left -= 1;
        rest = behind;
    }
    &[]
}

/// Whether a line opens a link.
fn opens(line: &[u8]) -> bool
    ensures { result ≡ opens line.now }
{
    word_at(line, 1) == b"open".as_slice()
}

/// The name in the line that opens the link of this number, from 0 on; nothing where there are fewer.
pub fn opened_name(text: &[u8], number: u32) -> &[u8]
    ensures { result.now ≡ opened_name number (lines text.now) }
{
    let mut rest = text;
    let mut left = number;
    while !rest.is_empty() {
        let (line, behind) = first_line(rest);
        if opens(line) {
            if left == 0 {
                return word_at(line, 2);
            }
            left -= 1;
        }
        rest = behind;
    }
    &[]
}
