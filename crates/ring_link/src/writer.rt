ghost use Rattle.std.specs.Prelude.{◌≡◌, ◌-◌, ◌<◌, ◌≤◌, ◌↔◌, ◌+◌, ◌∷◌, ◌++◌, [], length, map, take, IsTrue};
ghost use Rattle.sock_io.specs.LinkHalves.{IsTakeCount, given_of};
ghost use Rattle.sock_io.specs.Peer.{has_ended};
ghost use Rattle.ring_link.specs.Cells.{IsOpen, ending_of, mark_cells};
ghost use Rattle.ring_link.specs.RingHalves.{mark_at};
ghost use Rattle.ring_link.specs.declared.cell.Cell.TheVariants.{Byte};
ghost use Rattle.ring_link.specs.declared.packing.TheConstants.{CHUNK, FEW};

use crate::cell::{Cell, MarkLast};
use crate::packing::{CHUNK, FEW, pack};
use rtrb::Producer;
use sock_io::{Ending, Take};
use std::alloc::Global;
use std::marker::Model;

/// The end of a ring that puts bytes, and behind them one mark. It keeps a place free for the mark, so that this needs
/// no waiting.
#[derive(Drop)]
pub(crate) struct RingWriter {
    pub(crate) cells: Producer<Cell, Global, MarkLast>,
}

impl Model for RingWriter {
    ghost use Rattle.std.specs.Prelude.{◌≡◌, ◌-◌, ◌<◌};
    ghost use Rattle.rtrb.specs.Ring.{sent, known_free};
    ghost use Rattle.ring_link.specs.Cells.{IsOpen, bytes_of, ending_of, cells_of};
    ghost use Rattle.ring_link.specs.RingHalves.{WriterState, ring_of};

    ghost Value = { WriterState };

    ghost view = { λ w. record { ring = ring_of w.cells.end; bytes = bytes_of (sent w.cells); ending = ending_of (sent w.cells); places = known_free w.cells - 1 } };

    ghost invariant = { λ w. (sent w.cells ≡ cells_of (bytes_of (sent w.cells)) (ending_of (sent w.cells))) × (IsOpen (ending_of (sent w.cells)) → 0 < known_free w.cells) };
}

impl RingWriter {
    ghost use Rattle.std.specs.Prelude.{◌≡◌, ◌<◌, []};
    ghost use Rattle.rtrb.specs.Ring.{sent, known_free};
    ghost use Rattle.ring_link.specs.RingHalves.{ring_of};

    /// The end of a ring to which nothing was put.
    pub(crate) fn new(cells: Producer<Cell, Global, MarkLast>) -> RingWriter
        requires { (sent cells ≡ []) × (0 < known_free cells) }
        ensures { result ≡ record { ring = ring_of cells.end; bytes = []; ending = Ending.Open; places = known_free cells - 1 } }
    {
        RingWriter { cells }
    }

    /// How many of so many places are free. Where it knows of fewer, it looks again.
    pub(crate) fn places_up_to(&mut self, wanted: usize) -> usize
        requires { IsOpen self.old.ending }
        ensures same { self.new ≡ record self.old { places = self.new.places } }
        ensures more { self.old.places ≤ self.new.places }
        ensures within { (result ≤ wanted) × (result ≤ self.new.places) }
        ensures looked { result < wanted → result ≡ self.new.places }
    {
        if self.cells.cached_slots() <= wanted {
            wanted.min(self.cells.slots() - 1)
        } else {
            wanted
        }
    }

    /// Whether a place for a byte is free. Where it knows of none, it looks again.
    pub(crate) fn has_place(&mut self) -> bool
        requires { IsOpen self.old.ending }
        ensures same { self.new ≡ record self.old { places = self.new.places } }
        ensures more { self.old.places ≤ self.new.places }
        ensures value { IsTrue result ↔ (0 < self.new.places) }
    {
        self.places_up_to(1) == 1
    }

    /// Puts a front part of the piece, and answers how many bytes that is: none only where no place was free.
    pub(crate) fn put(&mut self, piece: &[u8]) -> usize
        requires { (0 < length piece.now) × (IsOpen self.old.ending) }
        ensures ring { self.new.ring ≡ self.old.ring }
        ensures within { result ≤ length piece.now }
        ensures bytes { self.new.bytes ≡ self.old.bytes ++ take result piece.now }
        ensures ending { IsOpen self.new.ending }
        ensures full { result ≡ 0 → (self.new.places ≡ 0) × (self.old.places ≡ 0) }
    {
        let count = self.places_up_to(piece.len().min(CHUNK));
        if count > 0 {
            self.put_all(&piece[..count]);
        }
        count
    }

    /// Puts the piece, for which places are known to be free.
    pub(crate) fn put_all(&mut self, piece: &[u8])
        requires open { IsOpen self.old.ending }
        requires room { (length piece.now ≤ self.old.places) × (length piece.now ≤ CHUNK) }
        ensures ring { self.new.ring ≡ self.old.ring }
        ensures bytes { self.new.bytes ≡ self.old.bytes ++ piece.now }
        ensures ending { IsOpen self.new.ending }
    {
        if piece.len() <= FEW {
            self.put_few(piece);
        } else {
            let mut cells = [Cell::Ended; CHUNK];
            pack(piece, &mut cells);
            self.push(&cells[..piece.len()], piece);
        }
    }

    // The same of few bytes, for which fewer cells are made ready.
    fn put_few(&mut self, piece: &[u8])
        requires open { IsOpen self.old.ending }
        requires room { (length piece.now ≤ self.old.places) × (length piece.now ≤ FEW) }
        ensures ring { self.new.ring ≡ self.old.ring }
        ensures bytes { self.new.bytes ≡ self.old.bytes ++ piece.now }
        ensures ending { IsOpen self.new.ending }
    {
        let mut cells = [Cell::Ended; FEW];
        pack(piece, &mut cells);
        self.push(&cells[..piece.len()], piece);
    }

    // Puts these bytes, which stand in the cells, where there are places for all.
    fn push(&mut self, cells: &[Cell], bytes: &[u8])
        requires open { IsOpen self.old.ending }
        requires cells { cells.now ≡ map Byte bytes.now }
        requires room { length bytes.now ≤ self.old.places }
        ensures ring { self.new.ring ≡ self.old.ring }
        ensures bytes { self.new.bytes ≡ self.old.bytes ++ bytes.now }
        ensures ending { IsOpen self.new.ending }
        ensures places { self.old.places ≤ self.new.places + length bytes.now }
    {
        let _ = bytes;
        match self.cells.push_entire_slice(cells) {
            Ok(()) => {}
            Err(_) => unreachable!(),
        }
    }

    /// Puts what a take gave, or the mark that it answered, and answers whether that was a mark.
    pub(crate) fn hand_on(&mut self, answer: Take, room: &[u8]) -> bool
        requires open { IsOpen self.old.ending }
        requires count { IsTakeCount room.now answer }
        requires room { (length room.now ≤ self.old.places) × (length room.now ≤ CHUNK) }
        ensures ring { self.new.ring ≡ self.old.ring }
        ensures bytes { self.new.bytes ≡ self.old.bytes ++ given_of room.now answer }
        ensures ending { self.new.ending ≡ mark_at answer }
        ensures ended { result ≡ has_ended (mark_at answer) }
    {
        match answer {
            Take::Took(count) => {
                self.put_all(&room[..count]);
                false
            }
            Take::End => {
                self.end();
                true
            }
            Take::Closed => {
                self.close();
                true
            }
            Take::Empty | Take::Failed => false,
        }
    }

    /// Puts the mark that ends the direction.
    pub(crate) fn end(&mut self)
        requires { IsOpen self.old.ending }
        ensures { (self.new.ring ≡ self.old.ring) × (self.new.bytes ≡ self.old.bytes) × (self.new.ending ≡ Ending.Ended) }
    {
        self.mark(Cell::Ended);
    }

    /// Puts the mark that closes it.
    pub(crate) fn close(&mut self)
        requires { IsOpen self.old.ending }
        ensures { (self.new.ring ≡ self.old.ring) × (self.new.bytes ≡ self.old.bytes) × (self.new.ending ≡ Ending.Closed) }
    {
        self.mark(Cell::Closed);
    }

    // Puts this mark.
    fn mark(&mut self, mark: Cell)
        requires unmarked { IsOpen self.old.ending }
        requires mark { mark_cells (ending_of (mark ∷ [])) ≡ mark ∷ [] }
        ensures { (self.new.ring ≡ self.old.ring) × (self.new.bytes ≡ self.old.bytes) × (self.new.ending ≡ ending_of (mark ∷ [])) }
    {
        self.cells.push_reserved(mark);
    }
}
