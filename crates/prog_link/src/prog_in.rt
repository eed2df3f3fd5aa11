ghost use Rattle.std.specs.Prelude.{◌<◌, length};
ghost use Rattle.sock_io.specs.LinkHalves.{TakeStep};
ghost use Rattle.prog_link.specs.AnyLinkHalves.{prog_in};

use loop_link::LoopIn;
use net_link::TcpIn;
use ring_link::RingIn;
use sock_io::{In, Take};

/// The reading half of a link of any kind, or of a connection over TCP.
#[derive(Drop)]
pub enum ProgIn {
    Loop(LoopIn),
    Ring(RingIn),
    Tcp(TcpIn),
}

impl In for ProgIn {
    ghost state = { prog_in };

    fn take(&mut self, room: &mut [u8]) -> Take
        requires { 0 < length room.old }
        ensures { TakeStep (prog_in self.old) (prog_in self.new) room.new result }
    {
        match self {
            ProgIn::Loop(inn) => inn.take(room),
            ProgIn::Ring(inn) => inn.take(room),
            ProgIn::Tcp(inn) => inn.take(room),
        }
    }
}
