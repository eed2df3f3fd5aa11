ghost use Rattle.std.specs.Prelude.{◌≡◌, ◌↔◌, ◌+◌, ◌<◌, ◌∷◌, ◌++◌, true, false, Some, [], length, Contains, IfOk, IsErrOf, OnErr, OnOk};
ghost use Rattle.sock_io.specs.FaultCauses.{OpenCause, next_number};
ghost use Rattle.sock_io.specs.LinkHalves.{IsFresh, IsNewOffer, IsServed, IsSettled, MayOpen, SettleStep, end_of};
ghost use Rattle.sock_io.specs.MemoryLinker.{new_half};
ghost use Rattle.sock_io.specs.LinksInMemory.{closing};
ghost use Rattle.sock_io.specs.ShapeOfPuts.{shaped_out};
ghost use Rattle.sock_io.specs.sock_words.specs.PlainShape.{plain_shape};
ghost use Rattle.loop_link.specs.ServingFedBytes.{Settled, loop_in, new_in, offer_of};

use crate::loop_in::LoopIn;
use io_buf::BlockPool;
use sock_io::{Ends, LinkSpec, Linker, MemLinks, MemOut, NoMemory, NoPeer, OpenFault, Out, Shaped};
use std::alloc::Global;
use std::marker::Model;

type Link = Ends<Shaped<MemOut>, LoopIn, NoPeer>;

/// Links in memory whose other end is called by `settle`: the built-in server, where it is asked for, and otherwise one
/// that takes everything, gives nothing, and closes its half once the link was finished. The reading half of a connection
/// gives its end at once.
///
/// Its `open` calls with the numbers in `fail_opens`, counted from 1, answer `Failed`.
/// What the server reads and answers are frames of baidu_std.md.
#[derive(Drop)]
pub struct LoopLinker {
    alloc: Global,
    pool: BlockPool,
    links: MemLinks<LoopIn>,
}

impl Model for LoopLinker {
    ghost use Rattle.sock_io.specs.MemoryLinker.{MemLinksState};

    ghost Value = { MemLinksState };

    ghost view = { λ l. l.links };
}

impl LoopLinker {
    /// A linker that opened nothing yet. It takes no memory.
    pub fn new(alloc: Global, fail_opens: Vec<u32>) -> Self
        ensures { result ≡ record { asked = []; accepted = 0; back = []; done = []; fail_opens = fail_opens.items; calls = 0; faults = 0 } }
    {
        LoopLinker {
            alloc,
            pool: BlockPool::new(alloc),
            links: MemLinks::new(alloc, fail_opens),
        }
    }
}

impl Linker for LoopLinker {
    ghost state = { λ l. record { asked = l.asked; accepted = l.accepted; back = l.back; done = l.done; faults = l.faults; always_ready = true } };

    type O = Shaped<MemOut>;

    type I = LoopIn;

    type P = NoPeer;

    ghost goes_by_shape = { λ _. true };

    fn open(&mut self, spec: &LinkSpec) -> Result<Link, OpenFault>
        requires { MayOpen self.old.asked spec.now }
        ensures out { IfOk result (λ ends. ends.out ≡ new_half (length self.old.asked) spec.now.shape) }
        ensures inn { IfOk result (λ ends. ends.inn ≡ new_in spec.now.shape.serve spec.now.shape.end) }
        ensures fresh { IfOk result (λ ends. IsFresh (shaped_out ends.out) (loop_in ends.inn) (length self.old.asked)) }
        ensures served { IfOk result (λ ends. IsNewOffer spec.now (offer_of ends.inn)) }
        ensures linker { IfOk result (λ _. self.new ≡ record self.old { asked = self.old.asked ++ spec.now ∷ []; calls = next_number self.old.calls }) }
        ensures refused { OnErr result (self.new ≡ record self.old { calls = next_number self.old.calls; faults = self.new.faults }) }
        ensures cause { OpenCause self.old.faults self.new.faults result }
        ensures failed_at { IsErrOf result OpenFault.Failed ↔ Contains self.old.fail_opens (next_number self.old.calls) }
    {
        let out = self.links.open(spec, spec.shape)?;
        Ok(Ends {
            out,
            inn: LoopIn::new(self.alloc, spec.shape.serve, spec.shape.end),
            peer: NoPeer,
        })
    }

    fn settle(&mut self, ends: &mut Link) -> Result<(), NoMemory>
        ensures out { ends.new.out ≡ ends.old.out }
        ensures step { SettleStep (shaped_out ends.old.out) (loop_in ends.old.inn) (loop_in ends.new.inn) }
        ensures linker { self.new ≡ self.old }
        ensures err { OnErr result (ends.new ≡ ends.old) }
        ensures open { OnOk result (ends.old.inn.peer.serve ≡ false → ends.old.out.inner.finished ≡ false → ends.new.inn.half ≡ ends.old.inn.half) }
        ensures closes { OnOk result (ends.old.inn.peer.serve ≡ false → ends.old.out.inner.finished ≡ true → ends.new.inn.half ≡ record ends.old.inn.half { ending = closing ends.old.inn.half.ending }) }
        ensures settled { OnOk result (IsServed ends.old.out.taken ends.old.out.inner.finished ends.old.inn.half.given (offer_of ends.old.inn) → Settled ends.old.out.taken ends.old.out.inner.finished ends.new.inn) }
        ensures served { OnOk result (IsSettled (shaped_out ends.old.out) (loop_in ends.old.inn) (loop_in ends.new.inn)) }
    {
        let finished = ends.out.is_finished();
        ends.inn
            .settle(self.alloc, &mut self.pool, ends.out.taken(), finished)
    }

    #[tactic(auto, using(crate::proofs::MemoryLinkMeets::met_nothing))]
    fn meet(&mut self, _ends: &mut Link) {}

    fn accept(&mut self, _port: u16) -> Result<(Shaped<MemOut>, LoopIn), OpenFault>
        requires { self.old.accepted < 256 }
        ensures out { IfOk result (λ halves. halves.0 ≡ new_half 0 plain_shape) }
        ensures inn { IfOk result (λ halves. halves.1 ≡ new_in true (Some 0)) }
        ensures linker { IfOk result (λ _. self.new ≡ record self.old { accepted = self.old.accepted + 1 }) }
        ensures refused { OnErr result (self.new ≡ self.old) }
        ensures never { ¬ IsErrOf result OpenFault.Failed }
    {
        let out = self.links.accept()?;
        Ok((out, LoopIn::new(self.alloc, true, Some(0))))
    }

    fn done(&mut self, out: Shaped<MemOut>, inn: LoopIn)
        requires { length self.old.done < self.old.accepted }
        ensures { self.new ≡ record self.old { done = self.old.done ++ end_of (shaped_out out) (loop_in inn) ∷ [] } }
    {
        self.links.done(out, inn);
    }

    fn back(&mut self, _link: u16, ends: Link)
        requires { length self.old.back < length self.old.asked }
        ensures { self.new ≡ record self.old { back = self.old.back ++ end_of (shaped_out ends.out) (loop_in ends.inn) ∷ [] } }
    {
        self.links.back(ends);
    }
}
