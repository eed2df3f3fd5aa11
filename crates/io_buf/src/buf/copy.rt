ghost use Rattle.std.specs.Prelude.{◌≡◌, ◌+◌, ◌≤◌, length, take, drop, All};
ghost use Rattle.std.specs.List.{concat};
ghost use Rattle.io_buf.specs.Buffer.{IsPiece};

use super::IoBuf;
use crate::refs::Refs;

impl IoBuf {
    /// Copies all bytes to the room, which is as long as the buffer. They stay in the buffer.
    pub fn copy_to(&self, room: &mut [u8])
        requires { length room.old ≡ length self.now.items }
        ensures { room.new ≡ self.now.items }
    {
        copy_from(&self.pieces, 0, room);
    }

    /// Copies as many bytes as the room has, from a place on. They stay in the buffer.
    pub fn copy_at(&self, start: usize, room: &mut [u8])
        requires { start + length room.old ≤ length self.now.items }
        ensures { room.new ≡ take (length room.old) (drop start self.now.items) }
    {
        copy_from(&self.pieces, start, room);
    }
}

// Fills the room with the bytes of the pieces, from a place on.
fn copy_from(pieces: &Refs, start: usize, room: &mut [u8])
    requires pieces { All IsPiece pieces.now.items }
    requires bytes { start + length room.old ≤ length (concat pieces.now.items) }
    ensures { room.new ≡ take (length room.old) (drop start (concat pieces.now.items)) }
{
    let mut skip = start;
    let mut done = 0;
    let mut place = 0;
    while done < room.len() {
        let piece = pieces.get(place).as_slice();
        let from = skip.min(piece.len());
        let taken = (piece.len() - from).min(room.len() - done);
        room[done..done + taken].copy_from_slice(&piece[from..from + taken]);
        skip -= from;
        done += taken;
        place += 1;
    }
}
