ghost use Rattle.std.specs.Prelude.{◌≡◌, ◌≢◌, ◌<◌, ◌≤◌, ◌++◌, ◌⊎◌, [], true, false, length, None, Ok};
ghost use Rattle.sock_io.specs.LinkHalves.{IsTakeCount, given_of};
ghost use Rattle.sock_io.specs.Peer.{ServeStep, has_ended, is_done};
ghost use Rattle.ring_link.specs.Cells.{IsOpen};
ghost use Rattle.sock_io.specs.MeetingOnOneThread.{MeetStep};
ghost use Rattle.ring_link.specs.RingHalves.{IsTakenOf, Repeats, SameRings, mark_at, ring_in, ring_peer, told_out};
ghost use Rattle.ring_link.specs.declared.packing.TheConstants.{CHUNK};

use crate::inner::Inner;
use crate::packing::CHUNK;
use crate::reader::RingReader;
use crate::ring_in::RingIn;
use crate::ring_out::RingOut;
use crate::writer::RingWriter;
use sock_io::{NoMemory, Peer, Served, Take};
use std::marker::Model;

/// The other end of a link over rings: it hands what it takes from the one ring to a link in memory, and what that gives
/// to the other ring. It reads no more of the link while what it has to give finds no place.
#[derive(Drop)]
pub struct RingPeer {
    pub(crate) reader: RingReader,
    pub(crate) writer: RingWriter,
    inner: Inner,
    ended: bool,
    /// Whether memory was wanting.
    starved: bool,
}

impl Model for RingPeer {
    ghost use Rattle.std.specs.Prelude.{◌≡◌, false, true};
    ghost use Rattle.sock_io.specs.Peer.{has_ended};
    ghost use Rattle.ring_link.specs.Cells.{IsClosed};
    ghost use Rattle.ring_link.specs.RingHalves.{Repeats, RingPeerState};

    ghost Value = { RingPeerState };

    ghost view = { λ p. record { reader = p.reader; writer = p.writer; inner = p.inner; starved = p.starved } };

    ghost invariant = { λ p. (p.ended ≡ has_ended p.writer.ending) × (p.ended ≡ false → p.inner.finished ≡ has_ended p.reader.ending) × (IsClosed p.writer.ending → has_ended p.reader.ending ≡ true) × (p.starved ≡ false → Repeats p.inner p.reader p.writer) };
}

impl RingPeer {
    /// An other end that took and gave nothing.
    pub(crate) fn new(reader: RingReader, writer: RingWriter, inner: Inner) -> RingPeer
        requires { IsOpen reader.ending × IsOpen writer.ending × (inner.finished ≡ false) × Repeats inner reader writer }
        ensures { result ≡ record { reader = reader; writer = writer; inner = inner; starved = false } }
    {
        RingPeer {
            reader,
            writer,
            inner,
            ended: false,
            starved: false,
        }
    }

    /// On one thread with both halves of its link: what this end took stands first in what the link took, and what the link
    /// gave stands first in what this end gave; and where a mark was taken, all was. Where the link took all that this end
    /// gave and memory wasn't wanting, it learns what it was offered.
    pub fn meet(&mut self, out: &mut RingOut, inn: &mut RingIn)
        requires there { out.old.writer.ring ≡ self.old.reader.ring }
        requires back { self.old.writer.ring ≡ inn.old.reader.ring }
        ensures peer { ring_peer self.new ≡ ring_peer self.old }
        ensures starved { self.new.starved ≡ self.old.starved }
        ensures out { out.new ≡ record out.old { writer = record out.old.writer { places = out.new.writer.places } } }
        ensures inn { MeetStep (told_out out.old) (ring_peer self.old) (ring_in inn.old) (ring_in inn.new) }
        ensures took { IsTakenOf self.new.reader out.new.writer }
        ensures gave { IsTakenOf inn.new.reader self.new.writer }
        ensures known { self.old.starved ≡ false → has_ended inn.old.reader.ending ≡ true → (ring_in inn.new).offer ≢ None }
        ensures repeats { self.old.starved ≡ false → Repeats self.new.inner self.new.reader self.new.writer }
    {
        self.reader.meet(&mut out.writer);
        inn.reader.meet(&mut self.writer);
        inn.learn(&self.inner, !self.starved);
    }

    // Behind its end: takes from the link, and throws it away.
    fn throw_away(&mut self) -> Served
        requires { has_ended self.old.writer.ending ≡ true }
        ensures step { ServeStep (ring_peer self.old) (Ok result) (ring_peer self.new) }
        ensures rings { SameRings self.old self.new }
        ensures waits { result ≡ Served.Waiting → self.new.reader.seen ≡ [] }
    {
        if self.reader.is_ended() {
            return Served::Done;
        }
        let mut room = [0; CHUNK];
        match self.reader.fetch(&mut room) {
            Some(_) => self.moved(),
            None => Served::Waiting,
        }
    }

    // What it answers where something moved.
    fn moved(&self) -> Served
        ensures { ((result ≡ Served.Done) × (is_done (ring_peer self.now) ≡ true)) ⊎ ((result ≡ Served.Moved) × (is_done (ring_peer self.now) ≡ false)) }
    {
        if self.ended && self.reader.is_ended() {
            Served::Done
        } else {
            Served::Moved
        }
    }

    // Gives what the link behind gives.
    fn give(&mut self, room: &mut [u8]) -> Take
        requires open { IsOpen self.old.writer.ending }
        requires room { (0 < length room.old) × (length room.old ≤ self.old.writer.places) × (length room.old ≤ CHUNK) }
        ensures reader { self.new.reader ≡ self.old.reader }
        ensures starved { self.new.starved ≡ self.old.starved }
        ensures rings { SameRings self.old self.new }
        ensures count { IsTakeCount room.new result }
        ensures bytes { self.new.writer.bytes ≡ self.old.writer.bytes ++ given_of room.new result }
        ensures ending { self.new.writer.ending ≡ mark_at result }
        ensures closed { result ≡ Take.Closed → has_ended self.old.reader.ending ≡ true }
        ensures never { result ≢ Take.Failed }
    {
        let answer = self.inner.take(room);
        self.ended = self.writer.hand_on(answer, room);
        answer
    }

    // Takes from the link, and hands it to the link behind.
    fn feed(&mut self, room: &mut [u8]) -> Result<Served, NoMemory>
        requires { (0 < length room.old) × IsOpen self.old.writer.ending }
        ensures step { ServeStep (ring_peer self.old) result (ring_peer self.new) }
        ensures rings { SameRings self.old self.new }
        ensures waits { result ≡ Ok Served.Waiting → (self.new.reader.seen ≡ []) ⊎ (has_ended self.new.reader.ending ≡ true) }
    {
        if self.reader.is_ended() {
            return Ok(Served::Waiting);
        }
        let Some(count) = self.reader.fetch(room) else {
            return Ok(Served::Waiting);
        };
        match self.inner.feed(&room[..count], self.reader.is_ended()) {
            Ok(()) => Ok(Served::Moved),
            Err(fault) => {
                self.writer.end();
                self.ended = true;
                self.starved = true;
                Err(fault)
            }
        }
    }
}

impl Peer for RingPeer {
    ghost state = { ring_peer };

    /// It waits only where it saw nothing of what comes next, or no place for what it has to give; or where the link was read to
    /// its end, and what is behind gives nothing now.
    fn serve(&mut self) -> Result<Served, NoMemory>
        ensures step { ServeStep (ring_peer self.old) result (ring_peer self.new) }
        ensures rings { SameRings self.old self.new }
        ensures waits { result ≡ Ok Served.Waiting → (self.new.writer.places ≡ 0) ⊎ (self.new.reader.seen ≡ []) ⊎ (has_ended self.new.reader.ending ≡ true) }
    {
        if self.ended {
            return Ok(self.throw_away());
        }
        let free = self.writer.places_up_to(CHUNK);
        if free == 0 {
            return Ok(Served::Waiting);
        }
        let mut room = [0; CHUNK];
        match self.give(&mut room[..free]) {
            Take::Empty => self.feed(&mut room),
            _ => Ok(self.moved()),
        }
    }
}
