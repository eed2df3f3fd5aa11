ghost use Rattle.std.specs.Prelude.{◌≡◌, ◌<◌, true, length};
ghost use Rattle.sock_io.specs.LinkHalves.{FinishStep, PutStep, ReadyStep};
ghost use Rattle.net_link.specs.NetworkLinkHalves.{new_out, tcp_out};

use crate::moving::write_some;
use sock_io::{Out, Put, Ready, risen};
use std::marker::Model;
use std::net::{Shutdown, TcpStream};

/// The writing half of a link over TCP. It waits inside `put`, so that no call answers `Again` or `NotYet`. It keeps none
/// of what it took, and so tells nothing: the wrapper that gives a link its shape keeps that.
#[derive(Drop)]
pub struct TcpOut {
    stream: TcpStream,
    link: u16,
    faults: u64,
    finished: bool,
}

impl Model for TcpOut {
    ghost use Rattle.net_link.specs.NetworkLinkHalves.{TcpOutState};

    ghost Value = { TcpOutState };

    ghost view = { λ o. record { link = o.link; faults = o.faults; finished = o.finished } };
}

impl TcpOut {
    /// The writing half of the link of this number.
    pub(crate) fn new(link: u16, stream: TcpStream) -> TcpOut
        ensures { result ≡ new_out link }
    {
        TcpOut {
            stream,
            link,
            faults: 0,
            finished: false,
        }
    }
}

impl Out for TcpOut {
    ghost state = { tcp_out };

    fn put(&mut self, piece: &[u8]) -> Put
        requires { 0 < length piece.now }
        ensures { PutStep (tcp_out self.old) (tcp_out self.new) piece.now result }
    {
        if self.finished {
            return Put::Failed;
        }
        match write_some(&mut self.stream, piece) {
            Ok(count) => Put::Took(count),
            Err(_) => {
                self.faults = risen(self.faults);
                Put::Failed
            }
        }
    }

    fn ready(&mut self) -> Ready
        ensures step { ReadyStep (tcp_out self.old) (tcp_out self.new) result }
        ensures same { self.new ≡ self.old }
    {
        if self.finished {
            Ready::Failed
        } else {
            Ready::Now
        }
    }

    /// Ends the writing half: the other end reads its end behind all that was put. Where the connection is lost already,
    /// there is nothing left to end.
    fn finish(&mut self)
        ensures step { FinishStep (tcp_out self.old) (tcp_out self.new) }
        ensures finished { self.new ≡ record self.old { finished = true } }
    {
        let _ = self.stream.shutdown(Shutdown::Write);
        self.finished = true;
    }

    fn taken(&self) -> &[u8] {
        &[]
    }
}
