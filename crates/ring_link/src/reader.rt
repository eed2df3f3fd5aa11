ghost use Rattle.std.specs.Prelude.{◌≡◌, ◌≢◌, ◌<◌, ◌≤◌, ◌++◌, ◌⊎◌, [], false, length, take, true, IfNone, IfSome};
ghost use Rattle.sock_io.specs.LinkHalves.{IsTakeCount};
ghost use Rattle.sock_io.specs.Peer.{has_ended};
ghost use Rattle.ring_link.specs.Cells.{IsOpen};
ghost use Rattle.ring_link.specs.RingHalves.{IsTakenOf, TakesCells};
ghost use Rattle.ring_link.specs.InsideRingLink.{answer_behind};

use crate::cell::{Cell, MarkLast};
use crate::packing::{CHUNK, unpack};
use crate::writer::RingWriter;
use rtrb::Consumer;
use sock_io::{Ending, Take};
use std::alloc::Global;
use std::marker::Model;

/// The end of a ring that takes its bytes, and then the mark behind them.
#[derive(Drop)]
pub(crate) struct RingReader {
    cells: Consumer<Cell, Global, MarkLast>,
    ending: Ending,
}

impl Model for RingReader {
    ghost use Rattle.std.specs.Prelude.{◌≡◌};
    ghost use Rattle.rtrb.specs.Ring.{received, known_items};
    ghost use Rattle.ring_link.specs.Cells.{bytes_of, ending_of};
    ghost use Rattle.ring_link.specs.RingHalves.{ReaderState, ring_of};

    ghost Value = { ReaderState };

    ghost view = { λ r. record { ring = ring_of r.cells.end; bytes = bytes_of (received r.cells); ending = ending_of (received r.cells); seen = known_items r.cells } };

    ghost invariant = { λ r. r.ending ≡ ending_of (received r.cells) };
}

impl RingReader {
    ghost use Rattle.std.specs.Prelude.{◌≡◌, []};
    ghost use Rattle.rtrb.specs.Ring.{received, known_items};
    ghost use Rattle.ring_link.specs.RingHalves.{ring_of};

    /// The end of a ring from which nothing was taken.
    pub(crate) fn new(cells: Consumer<Cell, Global, MarkLast>) -> RingReader
        requires { (received cells ≡ []) × (known_items cells ≡ []) }
        ensures { result ≡ record { ring = ring_of cells.end; bytes = []; ending = Ending.Open; seen = [] } }
    {
        RingReader {
            cells,
            ending: Ending::Open,
        }
    }

    /// Whether the mark was taken.
    pub(crate) fn is_ended(&self) -> bool
        ensures { result ≡ has_ended self.now.ending }
    {
        match self.ending {
            Ending::Open => false,
            Ending::Ended | Ending::Closed => true,
        }
    }

    /// Takes bytes into the front of the room, and behind the last the mark.
    pub(crate) fn take(&mut self, room: &mut [u8]) -> Take
        requires { 0 < length room.old }
        ensures count { IsTakeCount room.new result }
        ensures cells { TakesCells self.old self.new room.new result }
        ensures marked { (¬ IsOpen self.old.ending) → (self.new ≡ self.old) × (result ≡ answer_behind self.old.ending) }
        ensures never { result ≢ Take.Failed }
    {
        match self.ending {
            Ending::Open => self.take_open(room),
            Ending::Ended => Take::End,
            Ending::Closed => Take::Closed,
        }
    }

    /// Takes bytes or the mark, and answers how many bytes it took; nothing where neither was seen.
    pub(crate) fn fetch(&mut self, room: &mut [u8]) -> Option<usize>
        requires { (0 < length room.old) × (has_ended self.old.ending ≡ false) }
        ensures ring { self.new.ring ≡ self.old.ring }
        ensures none { IfNone result ((self.new.bytes ≡ self.old.bytes) × (has_ended self.new.ending ≡ false)) }
        ensures unseen { IfNone result (self.new.seen ≡ []) }
        ensures within { IfSome result (λ count. count ≤ length room.new) }
        ensures bytes { IfSome result (λ count. self.new.bytes ≡ self.old.bytes ++ take count room.new) }
        ensures some { IfSome result (λ count. (0 < count) ⊎ (has_ended self.new.ending ≡ true)) }
    {
        match self.take(room) {
            Take::Took(count) => Some(count),
            Take::Empty => None,
            Take::End | Take::Closed => Some(0),
            Take::Failed => unreachable!(),
        }
    }

    // The same, where no mark was taken.
    fn take_open(&mut self, room: &mut [u8]) -> Take
        requires { (0 < length room.old) × (IsOpen self.old.ending) }
        ensures count { IsTakeCount room.new result }
        ensures cells { TakesCells self.old self.new room.new result }
        ensures never { result ≢ Take.Failed }
    {
        let mut cells = [Cell::Ended; CHUNK];
        let most = room.len().min(CHUNK);
        let (bytes, ending) = self.take_by(&mut cells[..most], room);
        if bytes > 0 {
            return Take::Took(bytes);
        }
        match ending {
            Ending::Open => Take::Empty,
            Ending::Ended => Take::End,
            Ending::Closed => Take::Closed,
        }
    }

    // Takes as many cells as there are, up to these: how many bytes they are, and the mark behind them.
    fn take_by(&mut self, cells: &mut [Cell], room: &mut [u8]) -> (usize, Ending)
        requires { (0 < length cells.old) × (length cells.old ≤ length room.old) × IsOpen self.old.ending }
        ensures ring { self.new.ring ≡ self.old.ring }
        ensures within { result.0 ≤ length room.new }
        ensures bytes { self.new.bytes ≡ self.old.bytes ++ take result.0 room.new }
        ensures ending { self.new.ending ≡ result.1 }
        ensures none { result.0 ≡ 0 → IsOpen result.1 → self.new.seen ≡ [] }
    {
        let count = self.cells.pop_partial_slice(cells);
        let (bytes, ending) = unpack(&cells[..count], room);
        self.ending = ending;
        (bytes, ending)
    }

    /// On one thread with the other end of its ring: what was taken stands first in what was put; and where the mark was
    /// taken, all was.
    pub(crate) fn meet(&mut self, writer: &mut RingWriter)
        requires { writer.old.ring ≡ self.old.ring }
        ensures reader { self.new ≡ record self.old { seen = self.new.seen } }
        ensures writer { writer.new ≡ record writer.old { places = writer.new.places } }
        ensures taken { IsTakenOf self.new writer.new }
    {
        self.cells.slots_beside(&mut writer.cells);
    }
}
