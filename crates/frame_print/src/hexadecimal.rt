ghost use Rattle.std.specs.Prelude.{◌≡◌, ◌*◌, ◌<◌, ◌≤◌, length, slice_index};
ghost use Rattle.hex.specs.Hex.{encode_lower, lower_digits};
ghost use Rattle.sock_words.specs.PrintedWords.{hex_text};
ghost use Rattle.frame_print.specs.FrameLineView.{bytes_viewed};
ghost use Rattle.frame_print.specs.TextWrittenToSink.{Writes};

use crate::output::{from_place, write_all};
use crate::view::BytesView;
use io_buf::IoBuf;
use sock_io::{Failed, Sink};

/// As many bytes are turned into digits at once.
const CHUNK: usize = 2048;

/// So few bytes get a smaller room, which is made faster.
const SHORT: usize = 32;

/// Writes bytes in hexadecimal, `-` for none.
pub fn print_hex<K: Sink>(out: &mut K, bytes: &[u8]) -> Result<(), Failed>
    ensures { Writes (K.state out.old) (K.state out.new) (hex_text bytes.now) result }
{
    if bytes.is_empty() {
        return write_all(out, b"-");
    }
    print_digits(out, bytes)
}

/// Writes bytes in hexadecimal wherever they lie, `-` for none.
#[inline(always)]
pub fn print_bytes<K: Sink>(out: &mut K, bytes: BytesView) -> Result<(), Failed>
    ensures { Writes (K.state out.old) (K.state out.new) (hex_text (bytes_viewed bytes.entry)) result }
{
    match bytes {
        BytesView::Slice(bytes) => print_hex(out, bytes),
        BytesView::Blocks(buf) => print_buffer(out, buf),
    }
}

// Writes the bytes of a buffer in hexadecimal, `-` for none.
fn print_buffer<K: Sink>(out: &mut K, buf: &IoBuf) -> Result<(), Failed>
    ensures { Writes (K.state out.old) (K.state out.new) (hex_text buf.now.items) result }
{
    if buf.is_empty() {
        return write_all(out, b"-");
    }
    print_blocks(out, buf)
}

// Writes two digits a byte, block by block.
fn print_blocks<K: Sink>(out: &mut K, buf: &IoBuf) -> Result<(), Failed>
    ensures { Writes (K.state out.old) (K.state out.new) (encode_lower buf.now.items) result }
{
    for place in 0..buf.refs() {
        print_digits(out, buf.piece(place))?;
    }
    Ok(())
}

// Writes two digits a byte.
fn print_digits<K: Sink>(out: &mut K, bytes: &[u8]) -> Result<(), Failed>
    ensures { Writes (K.state out.old) (K.state out.new) (encode_lower bytes.now) result }
{
    if bytes.len() <= SHORT {
        return print_short(out, bytes);
    }
    print_chunks(out, bytes)
}

// The same, chunk by chunk. It stands apart for the size of its room.
#[inline(never)]
fn print_chunks<K: Sink>(out: &mut K, bytes: &[u8]) -> Result<(), Failed>
    ensures { Writes (K.state out.old) (K.state out.new) (encode_lower bytes.now) result }
{
    let mut rest = bytes;
    while !rest.is_empty() {
        let count = rest.len().min(CHUNK);
        print_chunk(out, &rest[..count])?;
        rest = from_place(rest, count);
    }
    Ok(())
}

// Writes two digits a byte of at most a chunk.
fn print_chunk<K: Sink>(out: &mut K, bytes: &[u8]) -> Result<(), Failed>
    requires { length bytes.now ≤ CHUNK }
    ensures { Writes (K.state out.old) (K.state out.new) (encode_lower bytes.now) result }
{
    if bytes.len() <= SHORT {
        return print_short(out, bytes);
    }
    let mut room = [0; 2 * CHUNK];
    let digits = &mut room[..2 * bytes.len()];
    put_digits(bytes, digits);
    write_all(out, digits)
}

// The same of a few bytes.
fn print_short<K: Sink>(out: &mut K, bytes: &[u8]) -> Result<(), Failed>
    requires { length bytes.now ≤ SHORT }
    ensures { Writes (K.state out.old) (K.state out.new) (encode_lower bytes.now) result }
{
    let mut room = [0; 2 * SHORT];
    let digits = &mut room[..2 * bytes.len()];
    put_digits(bytes, digits);
    write_all(out, digits)
}

// Two digits a byte. They are worked out and not looked up, so that the compiler works many out at once.
fn put_digits(bytes: &[u8], digits: &mut [u8])
    requires { length digits.old ≡ 2 * length bytes.now }
    ensures { digits.new ≡ encode_lower bytes.now }
{
    'bytes: for i in 0..bytes.len() {
        let byte = bytes[i];
        digits[2 * i] = digit(byte >> 4);
        digits[2 * i + 1] = digit(byte & 15);
    }
}

// The digit of a value below 16.
fn digit(value: u8) -> u8
    requires { value < 16 }
    ensures { result ≡ slice_index lower_digits value }
{
    if value < 10 {
        b'0' + value
    } else {
        b'a' + (value - 10)
    }
}
