ghost use Rattle.std.specs.Prelude.{◌≡◌, ◌++◌, ◌∷◌, ◌<◌, [], false, length};
ghost use Rattle.sock_io.specs.LinkHalves.{TakeStep, of_take};
ghost use Rattle.ring_link.specs.RingHalves.{TakesCells, ring_in};
ghost use Rattle.ring_link.specs.InsideRingLink.{met_after};

use crate::inner::Inner;
use crate::reader::RingReader;
use ghosts::Ghosts;
use loop_link::LoopIn;
use sock_io::{In, Take, noted};
use std::marker::Model;

/// The reading half of a link over a ring. It tells all that it gave and answered. `Empty` comes only where the ring has
/// neither a byte nor a mark that this end sees.
#[derive(Drop)]
pub struct RingIn {
    pub(crate) reader: RingReader,
    gave_end: bool,
    closed: bool,
    /// Whether it knows what its other end offered, and all that it answered and knows, for the proofs.
    learnt: bool,
    takes: Ghosts<Take>,
    met: Ghosts<LoopIn>,
}

impl Model for RingIn {
    ghost use Rattle.std.specs.Prelude.{◌≡◌, map, true};
    ghost use Rattle.sock_io.specs.declared.ending.Ending.TheVariants.{Closed, Ended};
    ghost use Rattle.sock_io.specs.LinkHalves.{of_take};
    ghost use Rattle.sock_io.specs.Peer.{has_ended};
    ghost use Rattle.ring_link.specs.InsideRingLink.{is_met};
    ghost use Rattle.ring_link.specs.RingHalves.{RingInState};

    ghost Value = { RingInState };

    ghost view = { λ i. record { reader = i.reader; gave_end = i.gave_end; closed = i.closed; takes = map of_take i.takes.list; met = i.met.list } };

    ghost invariant = { λ i. (i.gave_end ≡ true → i.reader.ending ≡ Ended) × (i.closed ≡ true → i.reader.ending ≡ Closed) × (i.learnt ≡ is_met i.met.list) × (i.learnt ≡ true → has_ended i.reader.ending ≡ true) };
}

impl RingIn {
    /// A half from which nothing was taken.
    pub(crate) fn new(reader: RingReader) -> RingIn
        ensures { result ≡ record { reader = reader; gave_end = false; closed = false; takes = []; met = [] } }
    {
        RingIn {
            reader,
            gave_end: false,
            closed: false,
            learnt: false,
            takes: Ghosts::of(&0u8),
            met: Ghosts::of(&0u8),
        }
    }

    // Takes, and leaves it to the caller to note what it answers.
    fn answer_take(&mut self, room: &mut [u8]) -> Take
        requires { 0 < length room.old }
        ensures step { TakeStep (ring_in self.old) (ring_in (record self.new { takes = self.old.takes ++ of_take result ∷ [] })) room.new result }
        ensures cells { TakesCells self.old.reader self.new.reader room.new result }
        ensures takes { self.new.takes ≡ self.old.takes }
        ensures met { self.new.met ≡ self.old.met }
    {
        let answer = self.reader.take(room);
        match answer {
            Take::End => self.gave_end = true,
            Take::Closed => self.closed = true,
            Take::Took(_) | Take::Empty | Take::Failed => {}
        }
        answer
    }

    // Notes an answer.
    fn note(&mut self, answer: Take)
        ensures { self.new ≡ record self.old { takes = self.old.takes ++ of_take answer ∷ [] } }
    {
        self.takes = noted(&self.takes, answer);
    }

    /// What its other end handed on is what this link in memory gave, where memory wasn't wanting. It learns that once the
    /// mark was taken, and keeps what it knows.
    pub(crate) fn learn(&mut self, inner: &Inner, whole: bool)
        ensures { self.new ≡ record self.old { met = met_after whole self.old.reader.ending self.old.met inner.now.inn } }
    {
        if !self.learnt && (self.reader.is_ended() && whole) {
            self.met = Ghosts::of(inner);
            self.learnt = true;
        }
    }
}

impl In for RingIn {
    ghost state = { ring_in };

    fn take(&mut self, room: &mut [u8]) -> Take
        requires { 0 < length room.old }
        ensures step { TakeStep (ring_in self.old) (ring_in self.new) room.new result }
        ensures cells { TakesCells self.old.reader self.new.reader room.new result }
        ensures met { self.new.met ≡ self.old.met }
    {
        let answer = self.answer_take(room);
        self.note(answer);
        answer
    }
}
