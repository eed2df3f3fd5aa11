ghost use Rattle.std.specs.Prelude.{◌≡◌, ◌≤◌, true, length, map, take};
ghost use Rattle.ring_link.specs.Cells.{byte_in, bytes_of, ending_of};
ghost use Rattle.ring_link.specs.declared.cell.Cell.TheVariants.{Byte};

use crate::cell::Cell;
use sock_io::Ending;

/// How many cells are moved at a time.
pub(crate) const CHUNK: usize = 1_024;

/// How many cells are made ready for few bytes.
pub(crate) const FEW: usize = 64;

/// Writes bytes into the front of the cells.
pub(crate) fn pack(piece: &[u8], cells: &mut [Cell])
    requires { length piece.now ≤ length cells.old }
    ensures { take (length piece.now) cells.new ≡ map Byte piece.now }
{
    for i in 0..piece.len() {
        cells[i] = Cell::Byte(piece[i]);
    }
}

/// Writes the bytes in front of the mark into the front of the room: how many they are, and the mark.
pub(crate) fn unpack(cells: &[Cell], room: &mut [u8]) -> (usize, Ending)
    requires { length cells.now ≤ length room.old }
    ensures count { result.0 ≡ length (bytes_of cells.now) }
    ensures within { result.0 ≤ length cells.now }
    ensures bytes { take result.0 room.new ≡ bytes_of cells.now }
    ensures ending { result.1 ≡ ending_of cells.now }
{
    if unpack_bytes(cells, room) {
        return (cells.len(), Ending::Open);
    }
    unpack_marked(cells, room)
}

// Writes the cells into the front of the room, and answers whether each is a byte: without a way out of the loop, so that the
// compiler works many cells out at once.
fn unpack_bytes(cells: &[Cell], room: &mut [u8]) -> bool
    requires { length cells.now ≤ length room.old }
    ensures { result ≡ true → cells.now ≡ map Byte (take (length cells.now) room.new) }
{
    let mut all = true;
    for i in 0..cells.len() {
        let cell = cells[i];
        room[i] = byte_or_zero(cell);
        all &= is_byte(cell);
    }
    all
}

#[inline(always)]
fn is_byte(cell: Cell) -> bool
    ensures { result ≡ true → cell ≡ Byte (byte_in cell) }
{
    match cell {
        Cell::Byte(_) => true,
        Cell::Ended | Cell::Closed => false,
    }
}

#[inline(always)]
fn byte_or_zero(cell: Cell) -> u8
    ensures { result ≡ byte_in cell }
{
    match cell {
        Cell::Byte(byte) => byte,
        Cell::Ended | Cell::Closed => 0,
    }
}

// The same as `unpack`, where a mark may stand.
fn unpack_marked(cells: &[Cell], room: &mut [u8]) -> (usize, Ending)
    requires { length cells.now ≤ length room.old }
    ensures count { result.0 ≡ length (bytes_of cells.now) }
    ensures within { result.0 ≤ length cells.now }
    ensures bytes { take result.0 room.new ≡ bytes_of cells.now }
    ensures ending { result.1 ≡ ending_of cells.now }
{
    for i in 0..cells.len() {
        match cells[i] {
            Cell::Byte(byte) => room[i] = byte,
            Cell::Ended => return (i, Ending::Ended),
            Cell::Closed => return (i, Ending::Closed),
        }
    }
    (cells.len(), Ending::Open)
}
