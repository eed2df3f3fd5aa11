ghost use Rattle.sock_io.specs.Peer.{ServeStep};
ghost use Rattle.prog_link.specs.AnyLinkHalves.{prog_peer};

use ring_link::RingPeer;
use sock_io::{NoMemory, NoPeer, Peer, Served};

/// The other end of a link over rings; a link of another kind has none to be served.
#[derive(Drop)]
pub enum ProgPeer {
    Absent(NoPeer),
    Ring(RingPeer),
}

impl Peer for ProgPeer {
    ghost state = { prog_peer };

    fn serve(&mut self) -> Result<Served, NoMemory>
        ensures { ServeStep (prog_peer self.old) result (prog_peer self.new) }
    {
        match self {
            ProgPeer::Absent(peer) => peer.serve(),
            ProgPeer::Ring(peer) => peer.serve(),
        }
    }
}
