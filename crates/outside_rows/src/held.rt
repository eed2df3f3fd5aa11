// A link whose first put waits for a client, and a gate where this client waits for the put.
ghost use Rattle.std.specs.Prelude.{◌≡◌, ◌<◌, ◌++◌, ◌∷◌, [], false, length};
ghost use Rattle.sock_io.specs.LinkHalves.{end_of};
ghost use Rattle.sock_io.specs.ShapeOfPuts.{shaped_out};
ghost use Rattle.ring_link.specs.RingHalves.{ring_in};

use crate::waits::Shared;
use ring_link::{RingIn, RingLinker, RingOut, RingPeer};
use sock_io::{Ends, Gate, LinkSpec, Linker, NoMemory, OpenFault, Out, Put, Ready, Shaped};
use std::sync::{Arc, Wait};

/// Holds the first operation of client 2 until the first put has begun.
#[derive(Drop)]
pub struct HeldGate {
    pub begun: Shared,
    pub asked: Shared,
}

impl Gate for HeldGate {
    fn pass<R: Wait>(&self, _rt: &R, client: u16, operation: u16) {
        if client == 2 && operation == 1 {
            self.begun.wait(1);
        }
        if client == 2 && operation == 2 {
            let _ = self.asked.note();
        }
    }
}

/// A writing half whose first put waits until the gate was asked for the second operation of client 2.
#[derive(Drop)]
pub struct HeldOut {
    half: Shaped<RingOut>,
    begun: Shared,
    asked: Shared,
}

impl Out for HeldOut {
    ghost state = { λ o. shaped_out o.half };

    fn put(&mut self, piece: &[u8]) -> Put {
        if self.begun.note() == 0 {
            self.asked.wait(1);
        }
        self.half.put(piece)
    }

    fn ready(&mut self) -> Ready {
        self.half.ready()
    }

    fn finish(&mut self) {
        self.half.finish();
    }

    fn taken(&self) -> &[u8] {
        self.half.taken()
    }
}

type Link = Ends<HeldOut, RingIn, RingPeer>;

/// Opens such links over rings. It accepts no connections.
#[derive(Drop)]
pub struct HeldLinker<R: AllocGlobal + Drop> {
    inner: RingLinker<R>,
    begun: Shared,
    asked: Shared,
}

impl<R: AllocGlobal + Drop> HeldLinker<R> {
    pub fn new(rt: R, begun: Shared, asked: Shared) -> Self
        ensures asked { result.inner.asked ≡ [] }
        ensures back { result.inner.back ≡ [] }
        ensures accepted { result.inner.accepted ≡ 0 }
        ensures done { result.inner.done ≡ [] }
    {
        HeldLinker {
            inner: RingLinker::new(rt),
            begun,
            asked,
        }
    }
}

impl<R: AllocGlobal + Drop> Linker for HeldLinker<R> {
    ghost state = { λ l. record { asked = l.inner.asked; accepted = l.inner.accepted; back = l.inner.back; done = l.inner.done; faults = 0; always_ready = false } };

    type O = HeldOut;

    type I = RingIn;

    type P = RingPeer;

    fn open(&mut self, spec: &LinkSpec) -> Result<Link, OpenFault> {
        let (Ok(begun), Ok(asked)) = (Arc::try_clone(&self.begun), Arc::try_clone(&self.asked))
        else {
            return Err(OpenFault::NoMemory);
        };
        match self.inner.open(spec) {
            Ok(Ends { out, inn, peer }) => Ok(Ends {
                out: HeldOut {
                    half: out,
                    begun,
                    asked,
                },
                inn,
                peer,
            }),
            Err(fault) => Err(fault),
        }
    }

    fn settle(&mut self, _ends: &mut Link) -> Result<(), NoMemory> {
        Ok(())
    }

    fn meet(&mut self, ends: &mut Link) {
        ends.peer.meet(&mut ends.out.half.inner, &mut ends.inn);
    }

    fn accept(&mut self, _port: u16) -> Result<(HeldOut, RingIn), OpenFault> {
        Err(OpenFault::NoMemory)
    }

    fn done(&mut self, out: HeldOut, inn: RingIn) {
        let HeldOut {
            half,
            begun: _,
            asked: _,
        } = out;
        self.inner.done(half, inn);
    }

    fn back(&mut self, link: u16, ends: Link)
        requires { length self.old.inner.back < length self.old.inner.asked }
        ensures { self.new.inner ≡ record self.old.inner { back = self.old.inner.back ++ end_of (shaped_out ends.out.half) (ring_in ends.inn) ∷ [] } }
    {
        let Ends { out, inn, peer } = ends;
        let HeldOut {
            half,
            begun: _,
            asked: _,
        } = out;
        self.inner.back(
            link,
            Ends {
                out: half,
                inn,
                peer,
            },
        );
    }
}
