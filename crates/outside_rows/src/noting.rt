ghost use Rattle.std.specs.Prelude.{◌≡◌, ◌≢◌, ◌+◌, ◌<◌, ◌++◌, ◌∷◌, [], length};
ghost use Rattle.std.specs.List.{AllByRecursion};
ghost use Rattle.brpc_model.specs.ReturnedLink.{LinkEnd};
ghost use Rattle.sock_io.specs.LinkHalves.{end_of};

use sock_io::{Ends, LinkSpec, Linker, NoMemory, OpenFault, Out};
use std::alloc::Global;

/// A linker that notes each link that is given back, and how many bytes it took; and what links and connections took that are
/// given back, one behind another, as far as there is memory. Its `open` calls fail from the one with a stated number on.
#[derive(Drop)]
pub struct Noting<L: Linker + Drop> {
    pub inner: L,
    /// The number of the `open` that fails, counted from the next one, 1; 0 where none does.
    fail: u32,
    failed: u64,
    noted: Vec<(u16, usize)>,
    taken: Vec<u8>,
}

impl<L: Linker + Drop> Noting<L> {
    /// It fails no `open` of its own.
    pub fn new(alloc: Global, inner: L) -> Self
        ensures { result.inner ≡ inner }
    {
        Noting::failing(alloc, inner, 0)
    }

    /// It fails the `open` with this number, counted from 1, and those behind it; with 0 none.
    pub fn failing(alloc: Global, inner: L, fail: u32) -> Self
        ensures { result.inner ≡ inner }
    {
        Noting {
            inner,
            fail,
            failed: 0,
            noted: Vec::new(alloc),
            taken: Vec::new(alloc),
        }
    }

    pub fn noted(&self) -> &[(u16, usize)] {
        &self.noted
    }

    pub fn taken(&self) -> &[u8] {
        &self.taken
    }
}

impl<L: Linker + Drop> Linker for Noting<L> {
    ghost state = { λ l. record (L.state l.inner) { faults = (L.state l.inner).faults + l.failed } };

    type O = L::O;

    type I = L::I;

    type P = L::P;

    ghost tells_in = { L.tells_in };

    ghost goes_by_shape = { L.goes_by_shape };

    fn open(&mut self, spec: &LinkSpec) -> Result<Ends<L::O, L::I, L::P>, OpenFault> {
        if self.fail == 1 {
            self.failed = self.failed.saturating_add(1);
            return Err(OpenFault::Failed);
        }
        self.fail = self.fail.saturating_sub(1);
        self.inner.open(spec)
    }

    fn settle(&mut self, ends: &mut Ends<L::O, L::I, L::P>) -> Result<(), NoMemory> {
        self.inner.settle(ends)
    }

    fn meet(&mut self, ends: &mut Ends<L::O, L::I, L::P>) {
        self.inner.meet(ends);
    }

    fn accept(&mut self, port: u16) -> Result<(L::O, L::I), OpenFault> {
        self.inner.accept(port)
    }

    fn done(&mut self, out: L::O, inn: L::I) {
        let _ = self.taken.extend_from_slice(out.taken());
        self.inner.done(out, inn);
    }

    fn back(&mut self, link: u16, ends: Ends<L::O, L::I, L::P>)
        requires opened { link < length (L.state self.old.inner).asked }
        requires own { (L.O.state ends.out).link ≡ link }
        requires once { AllByRecursion (λ (e : LinkEnd). e.link ≢ link) (L.state self.old.inner).back }
        requires fewer { length (L.state self.old.inner).back < length (L.state self.old.inner).asked }
        ensures back { L.state self.new.inner ≡ record (L.state self.old.inner) { back = (L.state self.old.inner).back ++ end_of (L.O.state ends.out) (L.I.state ends.inn) ∷ [] } }
        ensures failed { self.new.failed ≡ self.old.failed }
    {
        let _ = self.noted.push((link, ends.out.taken().len()));
        let _ = self.taken.extend_from_slice(ends.out.taken());
        self.inner.back(link, ends);
    }
}
