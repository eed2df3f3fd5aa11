ghost use Rattle.std.specs.Prelude.{◌≡◌, ◌≢◌, ◌<◌, [], true, length, IfSome};
ghost use Rattle.sock_io.specs.LinkHalves.{FinishStep, PutStep, ReadyStep};
ghost use Rattle.prog_link.specs.AnyLinkHalves.{prog_out};
ghost use Rattle.prog_link.specs.AnyKindLinker.{OverRings, kind_out};

use net_link::TcpHalf;
use ring_link::RingOut;
use sock_io::{MemOut, Out, Put, Ready, Shaped};

/// The writing half of a link of any kind, or of a connection over TCP.
#[derive(Drop)]
pub enum ProgOut {
    Loop(Shaped<MemOut>),
    Ring(Shaped<RingOut>),
    Tcp(TcpHalf),
}

impl ProgOut {
    /// Whether a link was finished. Of a connection, which keeps nothing of what it took, it says no.
    pub(crate) fn is_finished(&self) -> bool
        ensures told { IfSome (prog_out self.now).took (λ _. result ≡ (prog_out self.now).finished) }
        ensures only { result ≡ true → (prog_out self.now).finished ≡ true }
    {
        match self {
            ProgOut::Loop(out) => out.is_finished(),
            ProgOut::Ring(out) => out.is_finished(),
            ProgOut::Tcp(TcpHalf::Opened(out)) => out.is_finished(),
            ProgOut::Tcp(TcpHalf::Accepted(_)) => false,
        }
    }
}

impl ProgOut {
    /// Which way its bytes go is known over a ring alone. It does nothing: for the proof of a comparison.
    pub(crate) fn hides_its_way(&self)
        ensures { kind_out self.now ≢ OverRings → (prog_out self.now).way ≡ [] }
    {
        match self {
            ProgOut::Loop(out) => {
                let _half = &out.inner;
            }
            ProgOut::Tcp(TcpHalf::Opened(out)) => {
                let _half = &out.inner;
            }
            ProgOut::Ring(_) | ProgOut::Tcp(TcpHalf::Accepted(_)) => {}
        }
    }
}

impl Out for ProgOut {
    ghost state = { prog_out };

    fn put(&mut self, piece: &[u8]) -> Put
        requires { 0 < length piece.now }
        ensures { PutStep (prog_out self.old) (prog_out self.new) piece.now result }
    {
        match self {
            ProgOut::Loop(out) => out.put(piece),
            ProgOut::Ring(out) => out.put(piece),
            ProgOut::Tcp(out) => out.put(piece),
        }
    }

    fn ready(&mut self) -> Ready
        ensures { ReadyStep (prog_out self.old) (prog_out self.new) result }
    {
        match self {
            ProgOut::Loop(out) => out.ready(),
            ProgOut::Ring(out) => out.ready(),
            ProgOut::Tcp(out) => out.ready(),
        }
    }

    fn finish(&mut self)
        ensures { FinishStep (prog_out self.old) (prog_out self.new) }
    {
        match self {
            ProgOut::Loop(out) => out.finish(),
            ProgOut::Ring(out) => out.finish(),
            ProgOut::Tcp(out) => out.finish(),
        }
    }

    fn taken(&self) -> &[u8] {
        match self {
            ProgOut::Loop(out) => out.taken(),
            ProgOut::Ring(out) => out.taken(),
            ProgOut::Tcp(out) => out.taken(),
        }
    }
}
