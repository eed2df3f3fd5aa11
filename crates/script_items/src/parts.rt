ghost use Rattle.std.specs.Prelude.{◌≡◌, ◌&&◌, ◌||◌, ◌==◌, if◌then◌else◌, nat_le, length, Ok, Err};
ghost use Rattle.std.specs.List.{list_all};
ghost use Rattle.brpc_model.specs.Text.{has_bytes, is_name_byte, name_in, method_in, service_in, hex_in};
ghost use Rattle.brpc_model.specs.ScriptLineFaults.{kind_in, seat_in};
ghost use Rattle.sock_words.specs.KindText.{kind_text};
ghost use Rattle.script_items.specs.PartReaderAnswers.{Answers, Behind};
ghost use Rattle.script_items.specs.LineMeaning.{seat_of};
ghost use Rattle.script_items.specs.LineParts.{message_in, reader_in, client_in};

use crate::fault::{BAD_HEX, BAD_LENGTH, BAD_NAME, BAD_NUMBER, LineFault};
use crate::line::{Name, Seat};
use crate::numbers::read_number;
use hex::FromHexError;
use sock_words::{Kind, OwnedBytes};
use std::alloc::Global;

/// A letter, a digit or `_`.
fn is_name_byte(b: u8) -> bool
    ensures { result ≡ is_name_byte b }
{
    b.is_ascii_digit() || (b'A' <= b && b <= b'Z') || (b'a' <= b && b <= b'z') || b == b'_'
}

/// Whether each byte may stand in a name.
fn has_name_bytes(word: &[u8]) -> bool
    ensures { result ≡ list_all is_name_byte word.now }
{
    word.iter().all(|b| is_name_byte(*b))
}

/// Whether each byte may stand in the name of a service, which may have dots.
fn has_service_bytes(word: &[u8]) -> bool
    ensures { result ≡ list_all (λ b. is_name_byte b || b == 46) word.now }
{
    word.iter().all(|b| is_name_byte(*b) || *b == b'.')
}

/// Whether a word has 1 to so many bytes.
fn is_sized(word: &[u8], most: usize) -> bool
    ensures { result ≡ (has_bytes word.now && nat_le (length word.now) most) }
{
    !word.is_empty() && word.len() <= most
}

/// A word of 1 to so many bytes, where each of them is allowed.
fn read_spelled(
    alloc: Global,
    word: &[u8],
    most: usize,
    are_all_allowed: bool,
) -> Result<OwnedBytes, LineFault>
    ensures { Answers (λ n. n) result (
        if has_bytes word.now && nat_le (length word.now) most && are_all_allowed then Ok word.now else Err 7) }
{
    if !(is_sized(word, most) && are_all_allowed) {
        return Err(BAD_NAME);
    }
    Ok(OwnedBytes::new(Vec::from_slice(alloc, word)?))
}

/// A name: 1 to 16 letters, digits or `_`.
pub fn read_name(alloc: Global, word: &[u8]) -> Result<Name, LineFault>
    ensures { Answers (λ n. n) result (name_in word.now) }
{
    read_spelled(alloc, word, 16, has_name_bytes(word))
}

/// A method: 1 to 64 letters, digits or `_`.
pub fn read_method(alloc: Global, word: &[u8]) -> Result<OwnedBytes, LineFault>
    ensures { Answers (λ n. n) result (method_in word.now) }
{
    read_spelled(alloc, word, 64, has_name_bytes(word))
}

/// A service: 1 to 64 letters, digits, `_` or dots.
pub fn read_service(alloc: Global, word: &[u8]) -> Result<OwnedBytes, LineFault>
    ensures { Answers (λ n. n) result (service_in word.now) }
{
    read_spelled(alloc, word, 64, has_service_bytes(word))
}

/// The bytes that pairs of hexadecimal digits spell, of either case; `-` spells none.
pub fn read_hex(alloc: Global, word: &[u8]) -> Result<OwnedBytes, LineFault>
    ensures { Answers (λ b. b) result (hex_in word.now) }
{
    if word.is_empty() {
        return Err(BAD_HEX);
    }
    if word == b"-".as_slice() {
        return Ok(OwnedBytes::new(Vec::new(alloc)));
    }
    match hex::decode(alloc, word) {
        Ok(bytes) => Ok(OwnedBytes::new(bytes)),
        Err(FromHexError::OutOfMemory) => Err(LineFault::NoMemory),
        Err(_) => Err(BAD_HEX),
    }
}

/// The bytes of a message, 1 to 65,536 in hexadecimal.
pub fn read_message(alloc: Global, word: &[u8]) -> Result<OwnedBytes, LineFault>
    ensures { Answers (λ b. b) result (message_in word.now) }
{
    let bytes = read_hex(alloc, word)?;
    let length = bytes.as_slice().len();
    if 1 <= length && length <= 65536 {
        Ok(bytes)
    } else {
        Err(BAD_LENGTH)
    }
}

/// A seat: the number of a client from 1 on, or `r` and the number of a link from 0 on, of those
/// that the script has so far.
pub fn read_seat(clients: u32, links: u32, word: &[u8]) -> Result<Seat, LineFault>
    ensures { Behind clients links (λ before. Answers seat_of result (seat_in before word.now)) }
{
    match word {
        [b'r', link @ ..] => read_reader(links, link),
        _ => read_client(clients, word),
    }
}

/// The reader of a link that the script has so far.
fn read_reader(links: u32, word: &[u8]) -> Result<Seat, LineFault>
    ensures { Answers seat_of result (reader_in links word.now) }
{
    let link = read_number(word, 0, 30)?;
    if link < links {
        Ok(Seat::Reader(link as u16))
    } else {
        Err(BAD_NUMBER)
    }
}

/// A client that the script has so far.
fn read_client(clients: u32, word: &[u8]) -> Result<Seat, LineFault>
    ensures { Answers seat_of result (client_in clients word.now) }
{
    let client = read_number(word, 1, 31)?;
    if client <= clients {
        Ok(Seat::Client(client as u16))
    } else {
        Err(BAD_NUMBER)
    }
}

/// A kind of step, by its name.
pub fn read_kind(word: &[u8]) -> Result<Kind, LineFault>
    ensures { Answers kind_text result (kind_in word.now) }
{
    match Kind::from_text(word) {
        Some(kind) => Ok(kind),
        None => Err(BAD_NAME),
    }
}
