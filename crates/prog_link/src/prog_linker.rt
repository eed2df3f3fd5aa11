ghost use Rattle.std.specs.Prelude.{◌≡◌, ◌≢◌, ◌+◌, ◌≤◌, ◌<◌, ◌∷◌, ◌++◌, [], true, false, if◌then◌else◌, length, IfOk, IsErrOf, OnErr};
ghost use Rattle.sock_io.specs.FaultCauses.{OpenCause, Rose};
ghost use Rattle.sock_io.specs.LinkHalves.{MayOpen, end_of};
ghost use Rattle.prog_link.specs.AnyLinkHalves.{prog_in, prog_out};
ghost use Rattle.prog_link.specs.AnyKindLinker.{are_kind, is_kind, IsOpened, InMemory, OverRings, OverTcp, goes_by_shape_in_mode, kind_asked, tells_in_mode};

use crate::prog_in::ProgIn;
use crate::prog_out::ProgOut;
use crate::prog_peer::ProgPeer;
use io_buf::BlockPool;
use loop_link::LoopLinker;
use net_link::TcpLinker;
use ring_link::open_ring;
use sock_io::{Ends, LinkSpec, Linker, Mode, NoMemory, NotedLinks, OpenFault, Out, Shaped, risen};
use std::alloc::Global;
use std::marker::Model;
use std::net::{Net, TcpListener, TcpStream};

type Link = Ends<ProgOut, ProgIn, ProgPeer>;

/// Links of the kind that is asked for: in memory as `LoopLinker` makes them, over rings as `RingLinker` does, and over TCP
/// as `TcpLinker` does. Connections are accepted over TCP.
///
/// All its links are of one kind, since each kind is numbered by itself: the first link that is opened settles it, and an
/// `open` of another kind fails.
///
/// What was asked and given back is kept for the proofs alone, so that giving back takes no memory.
#[derive(Drop)]
pub struct ProgLinker<N: Net<Stream = TcpStream, Listener = TcpListener> + Drop> {
    alloc: Global,
    /// For the servers of links in memory.
    pool: BlockPool,
    loops: LoopLinker,
    streams: TcpLinker<N>,
    /// How many links were opened, and in which mode the last one.
    opened: u16,
    mode: Mode,
    faults: u64,
    /// What was asked of each link, and what was given back.
    notes: NotedLinks<ProgOut, ProgIn, ProgPeer>,
}

impl<N: Net<Stream = TcpStream, Listener = TcpListener> + Drop> Model for ProgLinker<N> {
    ghost use Rattle.std.specs.Prelude.{◌≡◌, true, [], length};
    ghost use Rattle.sock_io.specs.LinkHalves.{LinkerState};
    ghost use Rattle.prog_link.specs.AnyKindLinker.{InMemory, OverTcp, are_kind, count_kind, kind_asked};

    ghost Value = { LinkerState };

    ghost view = { λ l. record { asked = l.notes.asked; accepted = l.streams.accepted; back = l.notes.back; done = l.notes.done; faults = l.faults; always_ready = true } };

    ghost invariant = { λ l. (length l.notes.asked ≡ l.opened) × (are_kind (kind_asked l.mode) l.notes.asked ≡ true) × (length l.loops.asked ≡ count_kind InMemory l.notes.asked) × (length l.streams.asked ≡ count_kind OverTcp l.notes.asked) × (l.loops.fail_opens ≡ []) };
}

/// Whether these are modes of one kind.
fn is_same_kind(one: Mode, other: Mode) -> bool
    ensures { result ≡ is_kind (kind_asked one) (kind_asked other) }
{
    match one {
        Mode::Loop => matches!(other, Mode::Loop),
        Mode::Ring => matches!(other, Mode::Ring),
        Mode::Tcp(_) => matches!(other, Mode::Tcp(_)),
    }
}

/// A link over rings, which has this number.
fn open_rings(alloc: Global, spec: &LinkSpec, number: u16) -> Result<Link, OpenFault>
    requires piece { 0 < spec.now.shape.piece }
    requires mode { kind_asked spec.now.mode ≡ OverRings }
    ensures opened { IfOk result (λ ends. IsOpened number spec.now ends.out ends.peer ends.inn) }
    ensures never { ¬ IsErrOf result OpenFault.Failed }
{
    let Ok(ends) = open_ring(alloc, spec, number) else {
        return Err(OpenFault::NoMemory);
    };
    let Ends { out, inn, peer } = ends;
    match Shaped::new(alloc, out, spec.shape) {
        Ok(out) => Ok(Ends {
            out: ProgOut::Ring(out),
            inn: ProgIn::Ring(inn),
            peer: ProgPeer::Ring(peer),
        }),
        Err(_) => {
            drop(inn);
            drop(peer);
            Err(OpenFault::NoMemory)
        }
    }
}

/// A link of the kind that is asked for, which has this number among those of its kind.
fn open_ends<N: Net<Stream = TcpStream, Listener = TcpListener> + Drop>(
    alloc: Global,
    spec: &LinkSpec,
    number: u16,
    loops: &mut LoopLinker,
    streams: &mut TcpLinker<N>,
) -> Result<Link, OpenFault>
    requires asked { (0 < spec.now.shape.piece) × (number < 256) }
    requires loops { kind_asked spec.now.mode ≡ InMemory → length loops.old.asked ≡ number }
    requires streams { kind_asked spec.now.mode ≡ OverTcp → length streams.old.asked ≡ number }
    requires opens { loops.old.fail_opens ≡ [] }
    ensures opened { IfOk result (λ ends. IsOpened number spec.now ends.out ends.peer ends.inn) }
    ensures loops { IfOk result (λ _. length loops.new.asked ≡ length loops.old.asked + (if is_kind InMemory (kind_asked spec.now.mode) then 1 else 0)) }
    ensures streams { IfOk result (λ _. length streams.new.asked ≡ length streams.old.asked + (if is_kind OverTcp (kind_asked spec.now.mode) then 1 else 0)) }
    ensures refused { OnErr result ((loops.new.asked ≡ loops.old.asked) × (streams.new.asked ≡ streams.old.asked)) }
    ensures opens { loops.new.fail_opens ≡ [] }
    ensures accepted { streams.new.accepted ≡ streams.old.accepted }
    ensures failed { IsErrOf result OpenFault.Failed → kind_asked spec.now.mode ≡ OverTcp }
{
    match spec.mode {
        Mode::Loop => {
            let Ends { out, inn, peer } = loops.open(spec)?;
            Ok(Ends {
                out: ProgOut::Loop(out),
                inn: ProgIn::Loop(inn),
                peer: ProgPeer::Absent(peer),
            })
        }
        Mode::Ring => open_rings(alloc, spec, number),
        Mode::Tcp(_) => {
            let Ends { out, inn, peer } = streams.open(spec)?;
            Ok(Ends {
                out: ProgOut::Tcp(out),
                inn: ProgIn::Tcp(inn),
                peer: ProgPeer::Absent(peer),
            })
        }
    }
}

impl<N: Net<Stream = TcpStream, Listener = TcpListener> + Drop> ProgLinker<N> {
    /// A linker that opened and accepted nothing yet, over this network. It takes no memory.
    #[tactic(auto, using(crate::proofs::LinksOfOneKind::none_counted, crate::proofs::LinksOfOneKind::none_other))]
    pub fn new(net: N, alloc: Global) -> Self
        ensures { result ≡ record { asked = []; accepted = 0; back = []; done = []; faults = 0; always_ready = true } }
    {
        ProgLinker {
            alloc,
            pool: BlockPool::new(alloc),
            loops: LoopLinker::new(alloc, Vec::new(alloc)),
            streams: TcpLinker::new(net, alloc),
            opened: 0,
            mode: Mode::Loop,
            faults: 0,
            notes: NotedLinks::new(),
        }
    }

    /// Whether all links are of the kind of this mode.
    fn is_alike(&self, mode: Mode) -> bool
        ensures { result ≡ are_kind (kind_asked mode) self.now.asked }
    {
        if self.opened == 0 {
            return true;
        }
        is_same_kind(self.mode, mode)
    }

    /// Opens a link of the kind of all others.
    fn open_next(&mut self, spec: &LinkSpec) -> Result<Link, OpenFault>
        requires asked { MayOpen self.old.asked spec.now }
        requires alike { are_kind (kind_asked spec.now.mode) self.old.asked ≡ true }
        ensures opened { IfOk result (λ ends. IsOpened (length self.old.asked) spec.now ends.out ends.peer ends.inn) }
        ensures linker { IfOk result (λ _. self.new ≡ record self.old { asked = self.old.asked ++ spec.now ∷ [] }) }
        ensures refused { OnErr result (self.new ≡ self.old) }
        ensures failed { IsErrOf result OpenFault.Failed → kind_asked spec.now.mode ≡ OverTcp }
    {
        let number = self.opened;
        let ends = open_ends(self.alloc, spec, number, &mut self.loops, &mut self.streams)?;
        self.opened += 1;
        self.mode = spec.mode;
        self.notes.ask(spec);
        Ok(ends)
    }

    /// Opens a link, where all others are of its kind.
    fn open_alike(&mut self, spec: &LinkSpec) -> Result<Link, OpenFault>
        requires { MayOpen self.old.asked spec.now }
        ensures opened { IfOk result (λ ends. IsOpened (length self.old.asked) spec.now ends.out ends.peer ends.inn) }
        ensures linker { IfOk result (λ _. self.new ≡ record self.old { asked = self.old.asked ++ spec.now ∷ [] }) }
        ensures refused { OnErr result (self.new ≡ self.old) }
        ensures others { are_kind (kind_asked spec.now.mode) self.old.asked ≡ false → IsErrOf result OpenFault.Failed }
        ensures only_others { IsErrOf result OpenFault.Failed → kind_asked spec.now.mode ≢ OverTcp → are_kind (kind_asked spec.now.mode) self.old.asked ≡ false }
    {
        if self.is_alike(spec.mode) {
            return self.open_next(spec);
        }
        Err(OpenFault::Failed)
    }

    /// Raises the count where a call failed.
    fn count(&mut self, fault: OpenFault)
        ensures linker { self.new ≡ record self.old { faults = self.new.faults } }
        ensures later { self.old.faults ≤ self.new.faults }
        ensures failed { fault ≡ OpenFault.Failed → Rose self.old.faults self.new.faults }
        ensures kept { fault ≡ OpenFault.NoMemory → self.new.faults ≡ self.old.faults }
    {
        match fault {
            OpenFault::Failed => self.faults = risen(self.faults),
            OpenFault::NoMemory => {}
        }
    }
}

impl<N: Net<Stream = TcpStream, Listener = TcpListener> + Drop> Linker for ProgLinker<N> {
    // A value of `LinkerState` by itself may say otherwise.
    ghost state = { λ l. record l { always_ready = true } };

    type O = ProgOut;

    type I = ProgIn;

    type P = ProgPeer;

    ghost tells_in = { tells_in_mode };

    ghost goes_by_shape = { goes_by_shape_in_mode };

    fn open(&mut self, spec: &LinkSpec) -> Result<Link, OpenFault>
        requires { MayOpen self.old.asked spec.now }
        ensures opened { IfOk result (λ ends. IsOpened (length self.old.asked) spec.now ends.out ends.peer ends.inn) }
        ensures linker { IfOk result (λ _. self.new ≡ record self.old { asked = self.old.asked ++ spec.now ∷ [] }) }
        ensures refused { OnErr result (self.new ≡ record self.old { faults = self.new.faults }) }
        ensures others { are_kind (kind_asked spec.now.mode) self.old.asked ≡ false → IsErrOf result OpenFault.Failed }
        ensures only_others { IsErrOf result OpenFault.Failed → kind_asked spec.now.mode ≢ OverTcp → are_kind (kind_asked spec.now.mode) self.old.asked ≡ false }
        ensures cause { OpenCause self.old.faults self.new.faults result }
    {
        match self.open_alike(spec) {
            Ok(ends) => Ok(ends),
            Err(fault) => {
                self.count(fault);
                Err(fault)
            }
        }
    }

    fn settle(&mut self, ends: &mut Link) -> Result<(), NoMemory> {
        let ProgIn::Loop(inn) = &mut ends.inn else {
            return Ok(());
        };
        let finished = ends.out.is_finished();
        inn.settle(self.alloc, &mut self.pool, ends.out.taken(), finished)
    }

    fn meet(&mut self, ends: &mut Link) {
        ends.out.hides_its_way();
        if let ProgOut::Ring(out) = &mut ends.out
            && let ProgIn::Ring(inn) = &mut ends.inn
            && let ProgPeer::Ring(peer) = &mut ends.peer
        {
            peer.meet(&mut out.inner, inn);
        }
    }

    fn accept(&mut self, port: u16) -> Result<(ProgOut, ProgIn), OpenFault> {
        match self.streams.accept(port) {
            Ok((out, inn)) => Ok((ProgOut::Tcp(out), ProgIn::Tcp(inn))),
            Err(fault) => {
                self.count(fault);
                Err(fault)
            }
        }
    }

    fn done(&mut self, out: ProgOut, inn: ProgIn)
        ensures { self.new ≡ record self.old { done = self.old.done ++ end_of (prog_out out) (prog_in inn) ∷ [] } }
    {
        self.notes.done(out, inn);
    }

    fn back(&mut self, _link: u16, ends: Link)
        ensures { self.new ≡ record self.old { back = self.old.back ++ end_of (prog_out ends.out) (prog_in ends.inn) ∷ [] } }
    {
        self.notes.back(ends);
    }
}
