ghost use Rattle.std.specs.Prelude.{◌≡◌, ◌↔◌, ◌+◌, ◌<◌, ◌∷◌, ◌++◌, [], true, Ok, length, Contains, IfOk, IsErrOf, OnErr, OnOk};
ghost use Rattle.sock_io.specs.FaultCauses.{OpenCause, next_number};
ghost use Rattle.sock_io.specs.GivingLinker.{before_bytes, bytes_and_end, give_in, settled_in};
ghost use Rattle.sock_io.specs.LinkHalves.{MayOpen, SettleStep, end_of};
ghost use Rattle.sock_io.specs.MemoryLinker.{new_half, shape_of};
ghost use Rattle.sock_io.specs.ShapeOfPuts.{shaped_out};
ghost use Rattle.sock_words.specs.PlainShape.{plain_shape};

use crate::give_in::GiveIn;
use crate::link::{Ends, LinkSpec, Linker, OpenFault, Out};
use crate::mem_link::{MemOut, NoPeer};
use crate::mem_links::MemLinks;
use crate::shaped::Shaped;
use sock_words::{NoMemory, Shape};
use std::alloc::Global;
use std::marker::Model;

type Link = Ends<Shaped<MemOut>, GiveIn, NoPeer>;

/// Links in memory that take everything and give stated bytes, or none, whatever they took: for tests of what becomes of
/// bytes that nobody would send. A link gives its bytes by the first `settle` behind which it took `after` bytes or more,
/// and closes its half by the first one behind which it was finished. The reading half of a connection gives the bytes at
/// once, and then its end.
///
/// Its `open` calls with the numbers in `fail_opens`, counted from 1, answer `Failed`. A `fail_put` other than 0
/// stands in for a spec's `fail` of 0.
#[derive(Drop)]
pub struct GiveLinker {
    alloc: Global,
    links: MemLinks<GiveIn>,
    fail_put: u32,
    after: u32,
    bytes: Vec<u8>,
}

impl Model for GiveLinker {
    ghost use Rattle.sock_io.specs.GivingLinker.{GiveLinkerState};

    ghost Value = { GiveLinkerState };

    ghost view = { λ l. record { links = l.links; fail_put = l.fail_put; after = l.after; bytes = l.bytes.items } };
}

impl GiveLinker {
    /// A linker that opened nothing yet, whose links give these bytes after so many that they took. It takes no memory.
    pub fn new(alloc: Global, after: u32, bytes: Vec<u8>) -> Self
        ensures { result ≡ record { links = record { asked = []; accepted = 0; back = []; done = []; fail_opens = []; calls = 0; faults = 0 }; fail_put = 0; after = after; bytes = bytes.items } }
    {
        GiveLinker {
            alloc,
            links: MemLinks::new(alloc, Vec::new(alloc)),
            fail_put: 0,
            after,
            bytes,
        }
    }

    /// The same, whose links give nothing. These `open` calls fail, and its links from this put on where it isn't asked for
    /// otherwise.
    pub fn failing(alloc: Global, fail_opens: Vec<u32>, fail_put: u32) -> Self
        ensures { result ≡ record { links = record { asked = []; accepted = 0; back = []; done = []; fail_opens = fail_opens.items; calls = 0; faults = 0 }; fail_put = fail_put; after = 0; bytes = [] } }
    {
        GiveLinker {
            alloc,
            links: MemLinks::new(alloc, fail_opens),
            fail_put,
            after: 0,
            bytes: Vec::new(alloc),
        }
    }
}

impl Linker for GiveLinker {
    ghost state = { λ l. record { asked = l.links.asked; accepted = l.links.accepted; back = l.links.back; done = l.links.done; faults = l.links.faults; always_ready = true } };

    type O = Shaped<MemOut>;

    type I = GiveIn;

    type P = NoPeer;

    fn open(&mut self, spec: &LinkSpec) -> Result<Link, OpenFault>
        requires { MayOpen self.old.links.asked spec.now }
        ensures out { IfOk result (λ ends. ends.out ≡ new_half (length self.old.links.asked) (shape_of spec.now self.old.fail_put)) }
        ensures inn { IfOk result (λ ends. ends.inn ≡ before_bytes) }
        ensures linker { IfOk result (λ _. self.new ≡ record self.old { links = record self.old.links { asked = self.old.links.asked ++ spec.now ∷ []; calls = next_number self.old.links.calls } }) }
        ensures refused { OnErr result (self.new ≡ record self.old { links = record self.old.links { calls = next_number self.old.links.calls; faults = self.new.links.faults } }) }
        ensures cause { OpenCause self.old.links.faults self.new.links.faults result }
        ensures failed_at { IsErrOf result OpenFault.Failed ↔ Contains self.old.links.fail_opens (next_number self.old.links.calls) }
    {
        let fail = if spec.shape.fail == 0 {
            self.fail_put
        } else {
            spec.shape.fail
        };
        let shape = Shape { fail, ..spec.shape };
        let out = self.links.open(spec, shape)?;
        Ok(Ends {
            out,
            inn: GiveIn::new(self.alloc),
            peer: NoPeer,
        })
    }

    fn settle(&mut self, ends: &mut Link) -> Result<(), NoMemory>
        ensures out { ends.new.out ≡ ends.old.out }
        ensures step { SettleStep (shaped_out ends.old.out) (give_in ends.old.inn) (give_in ends.new.inn) }
        ensures inn { OnOk result (ends.new.inn ≡ settled_in self.old.after self.old.bytes ends.old.out.taken ends.old.out.inner.finished ends.old.inn) }
        ensures err { OnErr result (ends.new ≡ ends.old) }
        ensures linker { self.new ≡ self.old }
        ensures never { self.old.bytes ≡ [] → result ≡ Ok tt }
    {
        let due = ends.out.taken().len() >= self.after as usize;
        let finished = ends.out.is_finished();
        ends.inn.hand(due, &self.bytes)?;
        ends.inn.close_where(finished);
        Ok(())
    }

    #[tactic(auto, using(crate::proofs::HalvesKeepOffers::met_nothing))]
    fn meet(&mut self, _ends: &mut Link) {}

    fn accept(&mut self, _port: u16) -> Result<(Shaped<MemOut>, GiveIn), OpenFault>
        requires { self.old.links.accepted < 256 }
        ensures out { IfOk result (λ halves. halves.0 ≡ new_half 0 plain_shape) }
        ensures inn { IfOk result (λ halves. halves.1 ≡ bytes_and_end self.old.bytes) }
        ensures linker { IfOk result (λ _. self.new ≡ record self.old { links = record self.old.links { accepted = self.old.links.accepted + 1 } }) }
        ensures refused { OnErr result (self.new ≡ self.old) }
        ensures never { ¬ IsErrOf result OpenFault.Failed }
    {
        let Ok(inn) = GiveIn::ended(self.alloc, &self.bytes) else {
            return Err(OpenFault::NoMemory);
        };
        let out = self.links.accept()?;
        Ok((out, inn))
    }

    fn done(&mut self, out: Shaped<MemOut>, inn: GiveIn)
        requires { length self.old.links.done < self.old.links.accepted }
        ensures { self.new ≡ record self.old { links = record self.old.links { done = self.old.links.done ++ end_of (shaped_out out) (give_in inn) ∷ [] } } }
    {
        self.links.done(out, inn);
    }

    fn back(&mut self, _link: u16, ends: Link)
        requires { length self.old.links.back < length self.old.links.asked }
        ensures { self.new ≡ record self.old { links = record self.old.links { back = self.old.links.back ++ end_of (shaped_out ends.out) (give_in ends.inn) ∷ [] } } }
    {
        self.links.back(ends);
    }
}
