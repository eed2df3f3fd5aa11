ghost use Rattle.std.specs.Prelude.{◌≡◌, ◌+◌, ◌≤◌, ◌<◌, ◌∷◌, ◌++◌, true, false, [], length, IfOk, IsErrOf, OnErr, Ok};
ghost use Rattle.sock_io.specs.FaultCauses.{OpenCause, Rose};
ghost use Rattle.sock_io.specs.LinkHalves.{MayOpen, end_of};
ghost use Rattle.net_link.specs.NetworkLinkHalves.{new_in, new_out, tcp_in};
ghost use Rattle.net_link.specs.NetworkLinker.{is_tcp, new_half};
ghost use Rattle.net_link.specs.NetworkWritingHalf.{tcp_half};

use crate::streams::{accept, connect};
use crate::tcp_half::TcpHalf;
use crate::tcp_in::TcpIn;
use sock_io::{
    Ends, LinkSpec, Linker, Mode, NoMemory, NoPeer, NotedLinks, OpenFault, Shaped, risen,
};
use std::alloc::Global;
use std::marker::Model;
use std::net::{Net, TcpListener, TcpStream};

type Link = Ends<TcpHalf, TcpIn, NoPeer>;

/// Links over TCP to a port of 127.0.0.1, and connections that are accepted at one. What is at the other end is another
/// process's, so that of a link that is asked for its server and its end aren't used.
///
/// An `open` fails where the link isn't to go over TCP, and where nobody listens at the port; an `accept` where the port
/// can't be listened at. Both fail where the system has no more room for a stream. An `accept` waits for a connection, and
/// takes no memory. Behind the last one that is to be accepted nobody listens any more, so that a further client is refused.
///
/// A link or connection is closed as it is given back. What was told of it is kept for the proofs alone, so that giving
/// back takes no memory.
#[derive(Drop)]
pub struct TcpLinker<N: Net<Stream = TcpStream, Listener = TcpListener> + Drop> {
    net: N,
    alloc: Global,
    listener: Option<TcpListener>,
    opened: u16,
    accepted: u16,
    /// How many are to be accepted.
    most: u16,
    faults: u64,
    /// What was asked of each link, and what was given back.
    notes: NotedLinks<TcpHalf, TcpIn, NoPeer>,
}

impl<N: Net<Stream = TcpStream, Listener = TcpListener> + Drop> Model for TcpLinker<N> {
    ghost use Rattle.std.specs.Prelude.{◌≡◌, true, length};
    ghost use Rattle.sock_io.specs.LinkHalves.{LinkerState};

    ghost Value = { LinkerState };

    ghost view = { λ l. record { asked = l.notes.asked; accepted = l.accepted; back = l.notes.back; done = l.notes.done; faults = l.faults; always_ready = true } };

    ghost invariant = { λ l. length l.notes.asked ≡ l.opened };
}

impl<N: Net<Stream = TcpStream, Listener = TcpListener> + Drop> TcpLinker<N> {
    /// A linker that opened and accepted nothing yet, over this network. It takes no memory.
    pub fn new(net: N, alloc: Global) -> Self
        ensures { result ≡ record { asked = []; accepted = 0; back = []; done = []; faults = 0; always_ready = true } }
    {
        TcpLinker::accepting(net, alloc, 256)
    }

    /// The same, which listens until it accepted so many connections.
    pub fn accepting(net: N, alloc: Global, connections: u16) -> Self
        ensures { result ≡ record { asked = []; accepted = 0; back = []; done = []; faults = 0; always_ready = true } }
    {
        TcpLinker {
            net,
            alloc,
            listener: None,
            opened: 0,
            accepted: 0,
            most: connections,
            faults: 0,
            notes: NotedLinks::new(),
        }
    }

    /// Raises the count.
    fn fault(&mut self) -> OpenFault
        ensures fault { result ≡ OpenFault.Failed }
        ensures linker { self.new ≡ record self.old { faults = self.new.faults } }
        ensures later { self.old.faults ≤ self.new.faults }
        ensures rose { Rose self.old.faults self.new.faults }
    {
        self.faults = risen(self.faults);
        OpenFault::Failed
    }

    /// Counts the link that is opened, and notes what was asked.
    fn note(&mut self, spec: &LinkSpec)
        requires { length self.old.asked < 256 }
        ensures { self.new ≡ record self.old { asked = self.old.asked ++ spec.now ∷ [] } }
    {
        self.opened += 1;
        self.notes.ask(spec);
    }
}

impl<N: Net<Stream = TcpStream, Listener = TcpListener> + Drop> Linker for TcpLinker<N> {
    // A value of `LinkerState` by itself may say otherwise.
    ghost state = { λ l. record l { always_ready = true } };

    type O = TcpHalf;

    type I = TcpIn;

    type P = NoPeer;

    fn open(&mut self, spec: &LinkSpec) -> Result<Link, OpenFault>
        requires { MayOpen self.old.asked spec.now }
        ensures mode { is_tcp spec.now.mode ≡ false → IsErrOf result OpenFault.Failed }
        ensures out { IfOk result (λ ends. ends.out ≡ TcpHalf.Opened (new_half (length self.old.asked) spec.now.shape)) }
        ensures inn { IfOk result (λ ends. ends.inn ≡ new_in) }
        ensures linker { IfOk result (λ _. self.new ≡ record self.old { asked = self.old.asked ++ spec.now ∷ [] }) }
        ensures refused { OnErr result (self.new ≡ record self.old { faults = self.new.faults }) }
        ensures cause { OpenCause self.old.faults self.new.faults result }
    {
        let port = match spec.mode {
            Mode::Tcp(port) => port,
            Mode::Loop | Mode::Ring => return Err(self.fault()),
        };
        let (out, inn) = match connect(&self.net, port, self.opened) {
            Ok(halves) => halves,
            Err(_) => return Err(self.fault()),
        };
        match Shaped::new(self.alloc, out, spec.shape) {
            Ok(out) => {
                self.note(spec);
                Ok(Ends {
                    out: TcpHalf::Opened(out),
                    inn,
                    peer: NoPeer,
                })
            }
            Err(_) => Err(OpenFault::NoMemory),
        }
    }

    fn settle(&mut self, _ends: &mut Link) -> Result<(), NoMemory>
        ensures ends { _ends.new ≡ _ends.old }
        ensures linker { self.new ≡ self.old }
        ensures never { result ≡ Ok tt }
    {
        Ok(())
    }

    #[tactic(auto, using(crate::proofs::NetworkLinkMeets::met_nothing))]
    fn meet(&mut self, _ends: &mut Link) {}

    fn accept(&mut self, port: u16) -> Result<(TcpHalf, TcpIn), OpenFault>
        requires { self.old.accepted < 256 }
        ensures out { IfOk result (λ halves. halves.0 ≡ TcpHalf.Accepted (new_out 0)) }
        ensures inn { IfOk result (λ halves. halves.1 ≡ new_in) }
        ensures linker { IfOk result (λ _. self.new ≡ record self.old { accepted = self.old.accepted + 1 }) }
        ensures refused { OnErr result (self.new ≡ record self.old { faults = self.new.faults }) }
        ensures cause { OpenCause self.old.faults self.new.faults result }
    {
        match accept(&self.net, &mut self.listener, port) {
            Ok((out, inn)) => {
                self.accepted += 1;
                if self.accepted >= self.most {
                    self.listener = None;
                }
                Ok((TcpHalf::Accepted(out), inn))
            }
            Err(_) => Err(self.fault()),
        }
    }

    fn done(&mut self, out: TcpHalf, inn: TcpIn)
        ensures { self.new ≡ record self.old { done = self.old.done ++ end_of (tcp_half out) (tcp_in inn) ∷ [] } }
    {
        self.notes.done(out, inn);
    }

    fn back(&mut self, _link: u16, ends: Link)
        ensures { self.new ≡ record self.old { back = self.old.back ++ end_of (tcp_half ends.out) (tcp_in ends.inn) ∷ [] } }
    {
        self.notes.back(ends);
    }
}
