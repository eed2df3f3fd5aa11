ghost use Rattle.std.specs.Prelude.{decimal};
ghost use Rattle.std.specs.Fmt.{signed_decimal};
ghost use Rattle.frame_print.specs.TextWrittenToSink.{Writes};
ghost use Rattle.frame_print.specs.LinePieceTexts.{piece_text, pieces_text};

use crate::hexadecimal::{print_bytes, print_hex};
use crate::output::write_all;
use crate::view::BytesView;
use itoa::Buffer;
use sock_io::{Failed, Sink};

/// A piece of a line.
#[derive(Clone, Copy)]
pub enum Piece<'a> {
    /// This text.
    Text(&'a [u8]),
    /// A number in decimal.
    Number(u64),
    /// A signed number in decimal.
    Signed(i32),
    /// Bytes in hexadecimal, `-` for none.
    Hex(&'a [u8]),
    /// Bytes wherever they lie, likewise.
    Bytes(BytesView<'a>),
}

/// Writes pieces one after another. It takes no memory.
#[inline(always)]
pub fn print_pieces<K: Sink>(out: &mut K, pieces: &[Piece]) -> Result<(), Failed>
    ensures { Writes (K.state out.old) (K.state out.new) (pieces_text pieces.now) result }
{
    for piece in pieces {
        print_piece(out, *piece)?;
    }
    Ok(())
}

#[inline(always)]
fn print_piece<K: Sink>(out: &mut K, piece: Piece) -> Result<(), Failed>
    ensures { Writes (K.state out.old) (K.state out.new) (piece_text piece.entry) result }
{
    match piece {
        Piece::Text(text) => write_all(out, text),
        Piece::Number(number) => print_number(out, number),
        Piece::Signed(number) => print_signed(out, number),
        Piece::Hex(bytes) => print_hex(out, bytes),
        Piece::Bytes(bytes) => print_bytes(out, bytes),
    }
}

fn print_number<K: Sink>(out: &mut K, number: u64) -> Result<(), Failed>
    ensures { Writes (K.state out.old) (K.state out.new) (decimal number) result }
{
    let mut buffer = Buffer::new();
    write_all(out, buffer.format(number).as_bytes())
}

fn print_signed<K: Sink>(out: &mut K, number: i32) -> Result<(), Failed>
    ensures { Writes (K.state out.old) (K.state out.new) (signed_decimal number) result }
{
    let mut buffer = Buffer::new();
    write_all(out, buffer.format(number).as_bytes())
}
