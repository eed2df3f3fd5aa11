ghost use Rattle.std.specs.Prelude.{◌≡◌, ◌≢◌, ◌<◌, ◌++◌, true, false, length, IfOk, IsTrue, OnOk};
ghost use Rattle.sock_io.specs.LinkHalves.{IsTakeCount, OfferTaken, given_of};
ghost use Rattle.ring_link.specs.InsideRingLink.{IsNewInner, IsServing, SameAsked, inner_gave, inner_offer};

use loop_link::{LoopIn, LoopLinker};
use sock_io::{
    Ends, In, LinkSpec, Linker, MemOut, Mode, NoMemory, NoPeer, Out, Put, Shape, Shaped, Take,
};
use std::alloc::Global;
use std::marker::Model;

/// A link in memory with the server at its other end.
#[derive(Drop)]
pub(crate) struct Inner {
    links: LoopLinker,
    ends: Ends<Shaped<MemOut>, LoopIn, NoPeer>,
}

impl Model for Inner {
    ghost use Rattle.sock_io.specs.LinkHalves.{IsServed};
    ghost use Rattle.loop_link.specs.ServingFedBytes.{offer_of};
    ghost use Rattle.ring_link.specs.InsideRingLink.{InnerState};

    ghost Value = { InnerState };

    ghost view = { λ l. record { finished = l.ends.out.inner.finished; took = l.ends.out.taken; inn = l.ends.inn } };

    ghost invariant = { λ l. IsServed l.ends.out.taken l.ends.out.inner.finished l.ends.inn.half.given (offer_of l.ends.inn) };
}

impl Inner {
    /// A link that took and gave nothing.
    pub(crate) fn new(alloc: Global, serve: bool, end: Option<u32>) -> Result<Inner, NoMemory>
        ensures { IfOk result (λ l. IsNewInner serve end l) }
    {
        let mut links = LoopLinker::new(alloc, Vec::new(alloc));
        let asked = LinkSpec {
            mode: Mode::Loop,
            shape: Shape {
                piece: 65_536,
                again: 0,
                fail: 0,
                serve,
                end,
            },
        };
        match links.open(&asked) {
            Ok(ends) => Ok(Inner { links, ends }),
            Err(_) => Err(NoMemory),
        }
    }

    /// Takes what the other end gave.
    pub(crate) fn take(&mut self, room: &mut [u8]) -> Take
        requires { 0 < length room.old }
        ensures took { (self.new.took ≡ self.old.took) × (self.new.finished ≡ self.old.finished) }
        ensures gave { inner_gave self.new ≡ inner_gave self.old ++ given_of room.new result }
        ensures offer { OfferTaken (inner_offer self.old) (inner_offer self.new) (given_of room.new result) result }
        ensures count { IsTakeCount room.new result }
        ensures closed { result ≡ Take.Closed → self.old.finished ≡ true }
        ensures never { result ≢ Take.Failed }
        ensures served { IsServing self.new }
    {
        self.ends.inn.take(room)
    }

    /// Has the other end answer a piece more, and finishes the link where that is to come.
    pub(crate) fn feed(&mut self, piece: &[u8], finished: bool) -> Result<(), NoMemory>
        requires { self.old.finished ≡ false }
        ensures took { OnOk result ((self.new.took ≡ self.old.took ++ piece.now) × (self.new.finished ≡ finished)) }
        ensures gave { OnOk result (inner_gave self.new ≡ inner_gave self.old) }
        ensures asked { SameAsked self.old self.new }
        ensures served { OnOk result (IsServing self.new) }
    {
        if !self.takes(piece) {
            return Err(NoMemory);
        }
        self.finish_where(finished);
        self.settle()
    }

    // Puts the piece, and answers whether all was taken.
    fn takes(&mut self, piece: &[u8]) -> bool
        requires { self.old.finished ≡ false }
        ensures same { self.new ≡ record self.old { took = self.new.took } }
        ensures all { IsTrue result → self.new.took ≡ self.old.took ++ piece.now }
    {
        if piece.is_empty() {
            return true;
        }
        self.ends.out.put(piece) == Put::Took(piece.len())
    }

    // Finishes the link where that is to come.
    fn finish_where(&mut self, finished: bool)
        requires { self.old.finished ≡ false }
        ensures { self.new ≡ record self.old { finished = finished } }
    {
        if finished {
            self.ends.out.finish();
        }
    }

    // Has the other end answer what the link took.
    fn settle(&mut self) -> Result<(), NoMemory>
        ensures took { (self.new.took ≡ self.old.took) × (self.new.finished ≡ self.old.finished) }
        ensures gave { inner_gave self.new ≡ inner_gave self.old }
        ensures asked { SameAsked self.old self.new }
        ensures served { IsServing self.new }
    {
        self.links.settle(&mut self.ends)
    }
}
