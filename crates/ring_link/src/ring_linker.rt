ghost use Rattle.std.specs.Prelude.{◌≡◌, ◌≢◌, ◌+◌, ◌<◌, ◌∷◌, ◌++◌, false, true, None, Ok, [], length, IfOk, IsErrOf, OnErr, OnOk};
ghost use Rattle.sock_io.specs.LinkHalves.{IsFresh, IsSettled, IsUnused, MayOpen, end_of};
ghost use Rattle.sock_io.specs.MeetingOnOneThread.{AreEnds, IsAskedPeer, MeetOut, MeetStep};
ghost use Rattle.sock_io.specs.Peer.{IsNewPeer, has_ended};
ghost use Rattle.sock_io.specs.ShapeOfPuts.{shaped_out};
ghost use Rattle.ring_link.specs.RingHalves.{ring_in, ring_peer};

use crate::open::{open_connection, open_ring};
use crate::ring_in::RingIn;
use crate::ring_out::RingOut;
use crate::ring_peer::RingPeer;
use sock_io::{Ends, LinkSpec, Linker, NoMemory, NotedLinks, OpenFault, Shape, Shaped};
use std::marker::Model;

type Link = Ends<Shaped<RingOut>, RingIn, RingPeer>;

/// Links over two rings, whatever the mode: each end may go to a thread of its own. The other end is `Ends::peer`, which
/// whoever has it serves: the built-in server, where it is asked for, or one that gives nothing. The reading half of a
/// connection gives its end at once.
///
/// `open` and `accept` fail for want of memory alone. A link or connection is let go as it is given back. What was told of
/// it is kept for the proofs alone, so that giving back takes no memory.
#[derive(Drop)]
pub struct RingLinker<R: AllocGlobal + Drop> {
    rt: R,
    opened: u16,
    accepted: u16,
    /// What was asked of each link, and what was given back.
    notes: NotedLinks<Shaped<RingOut>, RingIn, RingPeer>,
}

impl<R: AllocGlobal + Drop> Model for RingLinker<R> {
    ghost use Rattle.std.specs.Prelude.{◌≡◌, length};
    ghost use Rattle.ring_link.specs.RingLinker.{RingLinkerState};

    ghost Value = { RingLinkerState };

    ghost view = { λ l. record { asked = l.notes.asked; accepted = l.accepted; back = l.notes.back; done = l.notes.done } };

    ghost invariant = { λ l. length l.notes.asked ≡ l.opened };
}

impl<R: AllocGlobal + Drop> RingLinker<R> {
    /// A linker that opened and accepted nothing yet, over the memory of this runtime. It takes none.
    pub fn new(rt: R) -> Self
        ensures { result ≡ record { asked = []; accepted = 0; back = []; done = [] } }
    {
        RingLinker {
            rt,
            opened: 0,
            accepted: 0,
            notes: NotedLinks::new(),
        }
    }

    /// Counts the link that is opened, and notes what was asked.
    fn note(&mut self, spec: &LinkSpec)
        requires { length self.old.asked < 256 }
        ensures { self.new ≡ record self.old { asked = self.old.asked ++ spec.now ∷ [] } }
    {
        self.opened += 1;
        self.notes.ask(spec);
    }
}

impl<R: AllocGlobal + Drop> Linker for RingLinker<R> {
    ghost state = { λ l. record { asked = l.asked; accepted = l.accepted; back = l.back; done = l.done; faults = 0; always_ready = false } };

    type O = Shaped<RingOut>;

    type I = RingIn;

    type P = RingPeer;

    ghost tells_in = { λ _. true };

    fn open(&mut self, spec: &LinkSpec) -> Result<Link, OpenFault>
        requires { MayOpen self.old.asked spec.now }
        ensures fresh { IfOk result (λ ends. IsFresh (shaped_out ends.out) (ring_in ends.inn) (length self.old.asked)) }
        ensures peer { IfOk result (λ ends. IsNewPeer (ring_peer ends.peer)) }
        ensures other { IfOk result (λ ends. IsAskedPeer spec.now (ring_peer ends.peer)) }
        ensures one { IfOk result (λ ends. AreEnds (shaped_out ends.out) (ring_peer ends.peer) (ring_in ends.inn)) }
        ensures unknown { IfOk result (λ ends. (ring_in ends.inn).offer ≡ None) }
        ensures shape { IfOk result (λ ends. ends.out.shape ≡ spec.now.shape) }
        ensures linker { IfOk result (λ _. self.new ≡ record self.old { asked = self.old.asked ++ spec.now ∷ [] }) }
        ensures refused { OnErr result (self.new ≡ self.old) }
        ensures never { ¬ IsErrOf result OpenFault.Failed }
    {
        let Ok(ends) = open_ring(self.rt.alloc(), spec, self.opened) else {
            return Err(OpenFault::NoMemory);
        };
        let Ends { out, inn, peer } = ends;
        match Shaped::new(self.rt.alloc(), out, spec.shape) {
            Ok(out) => {
                self.note(spec);
                Ok(Ends { out, inn, peer })
            }
            Err(_) => {
                drop(inn);
                drop(peer);
                Err(OpenFault::NoMemory)
            }
        }
    }

    fn settle(&mut self, _ends: &mut Link) -> Result<(), NoMemory>
        ensures ends { _ends.new ≡ _ends.old }
        ensures settled { OnOk result (IsSettled (shaped_out _ends.old.out) (ring_in _ends.old.inn) (ring_in _ends.new.inn)) }
        ensures linker { self.new ≡ self.old }
        ensures never { result ≡ Ok tt }
    {
        Ok(())
    }

    fn meet(&mut self, ends: &mut Link)
        requires { AreEnds (shaped_out ends.old.out) (ring_peer ends.old.peer) (ring_in ends.old.inn) }
        ensures out { MeetOut (shaped_out ends.old.out) (shaped_out ends.new.out) }
        ensures peer { ring_peer ends.new.peer ≡ ring_peer ends.old.peer }
        ensures inn { MeetStep (shaped_out ends.old.out) (ring_peer ends.old.peer) (ring_in ends.old.inn) (ring_in ends.new.inn) }
        ensures known { ends.old.peer.starved ≡ false → has_ended ends.old.inn.reader.ending ≡ true → (ring_in ends.new.inn).offer ≢ None }
        ensures linker { self.new ≡ self.old }
    {
        ends.peer.meet(&mut ends.out.inner, &mut ends.inn);
    }

    fn accept(&mut self, _port: u16) -> Result<(Shaped<RingOut>, RingIn), OpenFault>
        requires { self.old.accepted < 256 }
        ensures fresh { IfOk result (λ halves. IsUnused (shaped_out halves.0) (ring_in halves.1)) }
        ensures linker { IfOk result (λ _. self.new ≡ record self.old { accepted = self.old.accepted + 1 }) }
        ensures refused { OnErr result (self.new ≡ self.old) }
        ensures never { ¬ IsErrOf result OpenFault.Failed }
    {
        let Ok((out, inn)) = open_connection(self.rt.alloc()) else {
            return Err(OpenFault::NoMemory);
        };
        match Shaped::new(self.rt.alloc(), out, Shape::plain()) {
            Ok(out) => {
                self.accepted += 1;
                Ok((out, inn))
            }
            Err(_) => {
                drop(inn);
                Err(OpenFault::NoMemory)
            }
        }
    }

    fn done(&mut self, out: Shaped<RingOut>, inn: RingIn)
        ensures { self.new ≡ record self.old { done = self.old.done ++ end_of (shaped_out out) (ring_in inn) ∷ [] } }
    {
        self.notes.done(out, inn);
    }

    fn back(&mut self, _link: u16, ends: Link)
        ensures { self.new ≡ record self.old { back = self.old.back ++ end_of (shaped_out ends.out) (ring_in ends.inn) ∷ [] } }
    {
        self.notes.back(ends);
    }
}
