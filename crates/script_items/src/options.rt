ghost use Rattle.std.specs.Prelude.{◌≡◌, ◌∷◌, ◌<◌, [], true, false, None, Some, Ok, codes, filter, bytes_eq, IfSome, IfNone, IfOk, IfErr, Option};
ghost use Rattle.brpc_model.specs.Text.{words, number_in, hex_in};
ghost use Rattle.brpc_model.specs.LinePartReads.{are_known, values_of, option_in};
ghost use Rattle.script_items.specs.declared.fault.LineFault.TheVariants as faults;
ghost use Rattle.script_items.specs.PartReaderAnswers.{Answers};
ghost use Rattle.script_items.specs.Options.{keys_of, plain_of, IsRepeated, end_in};

use crate::fault::{BAD_WORDS, LineFault};
use crate::numbers::read_number;
use crate::parts::read_hex;
use crate::words::{behind, first_word};
use sock_words::OwnedBytes;
use std::alloc::Global;

/// A line that has options.
#[derive(Clone, Copy)]
pub enum Command {
    Open,
    Call,
}

impl Command {
    /// Whether the line has this option.
    fn knows(self, option: &[u8]) -> bool
        ensures { result ≡ are_known (keys_of self) (plain_of self) (option.now ∷ []) }
    {
        match self {
            Command::Open => {
                option == b"serve".as_slice()
                    || option.starts_with(b"piece=")
                    || option.starts_with(b"again=")
                    || option.starts_with(b"fail=")
                    || option.starts_with(b"end=")
            }
            Command::Call => option.starts_with(b"att=") || option.starts_with(b"retry="),
        }
    }

    /// Whether the line has each of these options.
    pub fn knows_all(self, options: &[u8]) -> bool
        ensures { result ≡ are_known (keys_of self) (plain_of self) (words options.now) }
    {
        let mut rest = options;
        while let Some((option, more)) = first_word(rest) {
            if !self.knows(option) {
                return false;
            }
            rest = more;
        }
        true
    }
}

/// What stands behind a key in the first option that begins with it, and the options behind that
/// one.
fn find_value<'a>(options: &'a [u8], key: &[u8]) -> Option<(&'a [u8], &'a [u8])>
    ensures some { IfSome result (λ p.
        values_of key.now (words options.now) ≡ p.0.now ∷ values_of key.now (words p.1.now)) }
    ensures none { IfNone result (values_of key.now (words options.now) ≡ []) }
{
    let mut rest = options;
    while let Some((option, more)) = first_word(rest) {
        if option.starts_with(key) {
            return Some((behind(option, key.len()), more));
        }
        rest = more;
    }
    None
}

/// The options behind the first one that is this word.
fn find_word<'a>(options: &'a [u8], word: &[u8]) -> Option<&'a [u8]>
    ensures some { IfSome result (λ more.
        filter (bytes_eq word.now) (words options.now) ≡ word.now ∷ filter (bytes_eq word.now) (words more.now)) }
    ensures none { IfNone result (filter (bytes_eq word.now) (words options.now) ≡ []) }
{
    let mut rest = options;
    while let Some((option, more)) = first_word(rest) {
        if word == option {
            return Some(more);
        }
        rest = more;
    }
    None
}

/// What is given for a key, which may stand once.
fn value_of<'a>(options: &'a [u8], key: &[u8]) -> Result<Option<&'a [u8]>, LineFault>
    ensures once { IfOk result (λ o. IfSome o (λ v. values_of key.now (words options.now) ≡ v.now ∷ [])) }
    ensures absent { IfOk result (λ o. IfNone o (values_of key.now (words options.now) ≡ [])) }
    ensures again { IfErr result (λ e.
        (e ≡ faults.Kind 3) × IsRepeated (values_of key.now (words options.now))) }
{
    match find_value(options, key) {
        None => Ok(None),
        Some((value, more)) => match find_value(more, key) {
            None => Ok(Some(value)),
            Some(_) => Err(BAD_WORDS),
        },
    }
}

/// The number from `low` to `high` that is given for a key, or the other one where none is.
pub fn read_number_option(
    options: &[u8],
    key: &[u8],
    low: u32,
    high: u32,
    other: u32,
) -> Result<u32, LineFault>
    ensures { Answers (λ n. n) result (option_in (number_in low high) other (values_of key.now (words options.now))) }
{
    match value_of(options, key)? {
        None => Ok(other),
        Some(value) => read_number(value, low, high),
    }
}

/// How often a call is tried again, `retry=N` from 0 to 6.
pub fn read_retry(options: &[u8]) -> Result<u8, LineFault>
    ensures { Answers (λ n. n) result (option_in (number_in 0 6) 0 (values_of (codes "retry=") (words options.now))) }
{
    match value_of(options, b"retry=")? {
        None => Ok(0),
        Some(value) => Ok(read_number(value, 0, 6)? as u8),
    }
}

/// After how many responses the server gives its end, `end=N` from 0 to 65,536.
pub fn read_end(options: &[u8]) -> Result<Option<u32>, LineFault>
    ensures { Answers (λ o. o) result (option_in end_in None (values_of (codes "end=") (words options.now))) }
{
    match value_of(options, b"end=")? {
        None => Ok(None),
        Some(value) => Ok(Some(read_number(value, 0, 65536)?)),
    }
}

/// Whether `serve` is given, which may stand once.
pub fn read_serve(options: &[u8]) -> Result<bool, LineFault>
    ensures { Answers (λ b. b) result (option_in (λ w. Ok true) false (filter (bytes_eq (codes "serve")) (words options.now))) }
{
    match find_word(options, b"serve") {
        None => Ok(false),
        Some(more) => match find_word(more, b"serve") {
            None => Ok(true),
            Some(_) => Err(BAD_WORDS),
        },
    }
}

/// The attachment of a call, `att=HEX`; none where the option is missing. `BAD_HEX` where its value spells no bytes,
/// `BAD_WORDS` where it is given twice. How long it may be is judged with the call.
pub fn read_attachment(alloc: Global, options: &[u8]) -> Result<OwnedBytes, LineFault>
    ensures { Answers (λ b. b) result (option_in hex_in [] (values_of (codes "att=") (words options.now))) }
{
    match value_of(options, b"att=")? {
        None => Ok(OwnedBytes::new(Vec::new(alloc))),
        Some(value) => read_hex(alloc, value),
    }
}
