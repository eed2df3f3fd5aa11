// Links that tell when their reading gave bytes, and a gate where a client waits for that between two operations.
ghost use Rattle.std.specs.Prelude.{◌≡◌, ◌<◌, ◌++◌, ◌∷◌, [], false, length};
ghost use Rattle.sock_io.specs.LinkHalves.{end_of};
ghost use Rattle.sock_io.specs.ShapeOfPuts.{shaped_out};
ghost use Rattle.ring_link.specs.RingHalves.{ring_in};

use crate::waits::Shared;
use ring_link::{RingIn, RingLinker, RingOut, RingPeer};
use sock_io::{Ends, Gate, In, LinkSpec, Linker, NoMemory, OpenFault, Shaped, Take};
use std::sync::{Arc, Wait};

/// Holds the second operation of client 1 until the reading of a link gave bytes.
#[derive(Drop)]
pub struct BetweenGate {
    pub given: Shared,
}

impl Gate for BetweenGate {
    fn pass<R: Wait>(&self, _rt: &R, client: u16, operation: u16) {
        if client == 1 && operation == 2 {
            self.given.wait(1);
        }
    }
}

/// A reading half that notes when it gave bytes.
#[derive(Drop)]
pub struct NotedIn {
    half: RingIn,
    given: Shared,
}

impl In for NotedIn {
    ghost state = { λ i. ring_in i.half };

    fn take(&mut self, room: &mut [u8]) -> Take {
        let took = self.half.take(room);
        if matches!(took, Take::Took(_)) {
            let _ = self.given.note();
        }
        took
    }
}

type Link = Ends<Shaped<RingOut>, NotedIn, RingPeer>;

/// Opens such links over rings. It accepts no connections.
#[derive(Drop)]
pub struct NotedLinker<R: AllocGlobal + Drop> {
    inner: RingLinker<R>,
    given: Shared,
}

impl<R: AllocGlobal + Drop> NotedLinker<R> {
    pub fn new(rt: R, given: Shared) -> Self
        ensures asked { result.inner.asked ≡ [] }
        ensures back { result.inner.back ≡ [] }
        ensures accepted { result.inner.accepted ≡ 0 }
        ensures done { result.inner.done ≡ [] }
    {
        NotedLinker {
            inner: RingLinker::new(rt),
            given,
        }
    }
}

impl<R: AllocGlobal + Drop> Linker for NotedLinker<R> {
    ghost state = { λ l. record { asked = l.inner.asked; accepted = l.inner.accepted; back = l.inner.back; done = l.inner.done; faults = 0; always_ready = false } };

    type O = Shaped<RingOut>;

    type I = NotedIn;

    type P = RingPeer;

    fn open(&mut self, spec: &LinkSpec) -> Result<Link, OpenFault> {
        let Ok(given) = Arc::try_clone(&self.given) else {
            return Err(OpenFault::NoMemory);
        };
        match self.inner.open(spec) {
            Ok(Ends { out, inn, peer }) => Ok(Ends {
                out,
                inn: NotedIn { half: inn, given },
                peer,
            }),
            Err(fault) => Err(fault),
        }
    }

    fn settle(&mut self, _ends: &mut Link) -> Result<(), NoMemory> {
        Ok(())
    }

    fn meet(&mut self, ends: &mut Link) {
        ends.peer.meet(&mut ends.out.inner, &mut ends.inn.half);
    }

    fn accept(&mut self, _port: u16) -> Result<(Shaped<RingOut>, NotedIn), OpenFault> {
        Err(OpenFault::NoMemory)
    }

    fn done(&mut self, out: Shaped<RingOut>, inn: NotedIn) {
        let NotedIn { half, given: _ } = inn;
        self.inner.done(out, half);
    }

    fn back(&mut self, link: u16, ends: Link)
        requires { length self.old.inner.back < length self.old.inner.asked }
        ensures { self.new.inner ≡ record self.old.inner { back = self.old.inner.back ++ end_of (shaped_out ends.out) (ring_in ends.inn.half) ∷ [] } }
    {
        let Ends { out, inn, peer } = ends;
        let NotedIn { half, given: _ } = inn;
        self.inner.back(
            link,
            Ends {
                out,
                inn: half,
                peer,
            },
        );
    }
}
