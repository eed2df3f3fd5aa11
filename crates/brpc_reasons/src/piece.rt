ghost use Rattle.brpc_reasons.specs.declared.piece.TheConstants.{SHOWN};
ghost use Rattle.std.specs.Prelude.{◌≡◌, ◌≤◌, decimal, length, map, take};
ghost use Rattle.frame_print.specs.TextWrittenToSink.{Writes};
ghost use Rattle.brpc_reasons.specs.SentencePieces.{closing, piece_text, pieces_text, shown, shown_byte};

use crate::forms::{Form, Parameter, form_text, name, range_text};
use itoa::Buffer;
use sock_io::{Failed, Sink};

/// So many bytes of what came from outside are shown.
pub const SHOWN: usize = 72;

/// A piece of a sentence.
#[derive(Clone, Copy)]
pub enum Piece<'a> {
    /// This text.
    Text(&'a [u8]),
    /// A number in decimal.
    Number(u32),
    /// How a word behind a command's name is called.
    Name(Parameter),
    /// The numbers that it may be.
    Range(Parameter),
    /// The form of a command.
    Form(Form),
    /// What came from outside, in quotes.
    Shown(&'a [u8]),
}

/// Writes pieces one after another. It takes no memory.
pub fn print_pieces<K: Sink>(out: &mut K, pieces: &[Piece]) -> Result<(), Failed>
    ensures { Writes (K.state out.old) (K.state out.new) (pieces_text pieces.now) result }
{
    for piece in pieces {
        print_piece(out, *piece)?;
    }
    Ok(())
}

fn print_piece<K: Sink>(out: &mut K, piece: Piece) -> Result<(), Failed>
    ensures { Writes (K.state out.old) (K.state out.new) (piece_text piece.entry) result }
{
    match piece {
        Piece::Text(text) => print_text(out, text),
        Piece::Number(number) => print_number(out, number),
        Piece::Name(parameter) => print_text(out, name(parameter)),
        Piece::Range(parameter) => print_text(out, range_text(parameter)),
        Piece::Form(form) => print_text(out, form_text(form)),
        Piece::Shown(bytes) => print_shown(out, bytes),
    }
}

fn print_text<K: Sink>(out: &mut K, text: &[u8]) -> Result<(), Failed>
    ensures { Writes (K.state out.old) (K.state out.new) text.now result }
{
    sock_io::write_all(out, text)
}

fn print_number<K: Sink>(out: &mut K, number: u32) -> Result<(), Failed>
    ensures { Writes (K.state out.old) (K.state out.new) (decimal number) result }
{
    let mut buffer = Buffer::new();
    print_text(out, buffer.format(number).as_bytes())
}

/// The first bytes, in quotes, and dots inside them where there are more.
fn print_shown<K: Sink>(out: &mut K, bytes: &[u8]) -> Result<(), Failed>
    ensures { Writes (K.state out.old) (K.state out.new) (shown bytes.now) result }
{
    print_text(out, b"\"")?;
    print_front(out, bytes)?;
    print_closing(out, bytes.len())
}

fn print_front<K: Sink>(out: &mut K, bytes: &[u8]) -> Result<(), Failed>
    ensures { Writes (K.state out.old) (K.state out.new) (map shown_byte (take 72 bytes.now)) result }
{
    print_first(out, front(bytes))
}

/// As many bytes as are shown.
fn front(bytes: &[u8]) -> &[u8]
    ensures front { result.now ≡ take 72 bytes.now }
    ensures few { length result.now ≤ SHOWN }
{
    if bytes.len() <= SHOWN {
        bytes
    } else {
        &bytes[..SHOWN]
    }
}

fn print_closing<K: Sink>(out: &mut K, count: usize) -> Result<(), Failed>
    ensures { Writes (K.state out.old) (K.state out.new) (closing count) result }
{
    print_text(out, closing(count))
}

/// What closes the quotes round so many bytes.
fn closing(count: usize) -> &'static [u8]
    ensures { result.now ≡ closing count }
{
    if count > SHOWN { b"...\"" } else { b"\"" }
}

fn print_first<K: Sink>(out: &mut K, bytes: &[u8]) -> Result<(), Failed>
    requires { length bytes.now ≤ SHOWN }
    ensures { Writes (K.state out.old) (K.state out.new) (map shown_byte bytes.now) result }
{
    let mut room = [0; SHOWN];
    let shown = &mut room[..bytes.len()];
    put_shown(bytes, shown);
    print_text(out, shown)
}

fn put_shown(bytes: &[u8], room: &mut [u8])
    requires { length room.old ≡ length bytes.now }
    ensures { room.new ≡ map shown_byte bytes.now }
{
    'bytes: for i in 0..bytes.len() {
        room[i] = shown_byte(bytes[i]);
    }
}

/// The byte where it can be printed, else a question mark.
fn shown_byte(byte: u8) -> u8
    ensures { result ≡ shown_byte byte }
{
    if 32 <= byte && byte <= 126 {
        byte
    } else {
        b'?'
    }
}
