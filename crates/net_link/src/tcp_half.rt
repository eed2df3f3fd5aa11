ghost use Rattle.std.specs.Prelude.{◌<◌, length};
ghost use Rattle.sock_io.specs.LinkHalves.{FinishStep, PutStep, ReadyStep};
ghost use Rattle.net_link.specs.NetworkWritingHalf.{tcp_half};

use crate::tcp_out::TcpOut;
use sock_io::{Out, Put, Ready, Shaped};

/// The writing half of a link that was opened, or of a connection that was accepted. A link keeps what it took, in a room
/// that ends; a connection keeps nothing, and so may take any number of bytes.
#[derive(Drop)]
pub enum TcpHalf {
    Opened(Shaped<TcpOut>),
    Accepted(TcpOut),
}

impl Out for TcpHalf {
    ghost state = { tcp_half };

    fn put(&mut self, piece: &[u8]) -> Put
        requires { 0 < length piece.now }
        ensures { PutStep (tcp_half self.old) (tcp_half self.new) piece.now result }
    {
        match self {
            TcpHalf::Opened(out) => out.put(piece),
            TcpHalf::Accepted(out) => out.put(piece),
        }
    }

    fn ready(&mut self) -> Ready
        ensures { ReadyStep (tcp_half self.old) (tcp_half self.new) result }
    {
        match self {
            TcpHalf::Opened(out) => out.ready(),
            TcpHalf::Accepted(out) => out.ready(),
        }
    }

    fn finish(&mut self)
        ensures { FinishStep (tcp_half self.old) (tcp_half self.new) }
    {
        match self {
            TcpHalf::Opened(out) => out.finish(),
            TcpHalf::Accepted(out) => out.finish(),
        }
    }

    fn taken(&self) -> &[u8] {
        match self {
            TcpHalf::Opened(out) => out.taken(),
            TcpHalf::Accepted(out) => out.taken(),
        }
    }
}
