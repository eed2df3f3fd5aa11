// Where connections are accepted, and kept once they were served.
ghost use Rattle.std.specs.Prelude.{◌≡◌, ◌+◌, ◌<◌, ◌++◌, ◌∷◌, [], length, IfOk, OnErr, IsErrOf, vec_capacity};
ghost use Rattle.sock_io.specs.FaultCauses.{Rose};
ghost use Rattle.sock_io.specs.LinkHalves.{IsUnused, LinkerState};

use crate::connection::Connection;
use crate::guest::Guest;
use sock_io::{Linker, OpenFault};

/// Where guests come in, and stay once they were served.
pub trait Door {
    ghost use Rattle.std.specs.Prelude.{ℕ, List};
    ghost use Rattle.sock_io.specs.LinkHalves.{LinkerState};

    type G: Guest + Send;

    /// What is told of the linker.
    ghost links: { Self → LinkerState };

    /// Those that are kept, and for how many there is room.
    ghost kept: { Self → List Self.G };

    ghost room: { Self → ℕ };

    /// Which linker it is.
    ghost name: { Self → ℕ };

    /// Lets the next one in.
    fn accept(&mut self, port: u16) -> Result<Self::G, OpenFault>
        requires { (links self.old).accepted < 256 }
        ensures waits { IfOk result (λ guest. Self.G.waits guest) }
        ensures accepted { IfOk result (λ _. links self.new ≡ record (links self.old) { accepted = (links self.old).accepted + 1 }) }
        ensures refused { OnErr result (links self.new ≡ record (links self.old) { faults = (links self.new).faults }) }
        ensures failed { IsErrOf result OpenFault.Failed → Rose (links self.old).faults (links self.new).faults }
        ensures short { IsErrOf result OpenFault.NoMemory → (links self.new).faults ≡ (links self.old).faults }
        ensures kept { kept self.new ≡ kept self.old }
        ensures room { room self.new ≡ room self.old }
        ensures name { name self.new ≡ name self.old };

    /// Keeps it.
    fn keep(&mut self, guest: Self::G)
        requires { length (kept self.old) < room self.old }
        ensures kept { kept self.new ≡ kept self.old ++ guest ∷ [] }
        ensures links { links self.new ≡ links self.old }
        ensures room { room self.new ≡ room self.old }
        ensures name { name self.new ≡ name self.old };
}

/// A linker, and room for its connections.
pub struct Hall<'a, L: Linker> {
    pub kept: Vec<Connection<L::O, L::I>>,
    pub links: &'a mut L,
}

impl<'a, L: Linker> Door for Hall<'a, L> {
    ghost use Rattle.std.specs.Prelude.{vec_capacity};

    type G = Connection<L::O, L::I>;

    ghost links = { λ h. L.state h.links.now };

    ghost kept = { λ h. h.kept.items };

    ghost room = { λ h. vec_capacity h.kept };

    ghost name = { λ h. h.links.ghost_name };

    fn accept(&mut self, port: u16) -> Result<Connection<L::O, L::I>, OpenFault>
        requires { (L.state self.old.links.now).accepted < 256 }
        ensures waits { IfOk result (λ c. IsUnused (L.O.state c.out) (L.I.state c.inn)) }
        ensures accepted { IfOk result (λ _. L.state self.new.links.now ≡ record (L.state self.old.links.now) { accepted = (L.state self.old.links.now).accepted + 1 }) }
        ensures refused { OnErr result (L.state self.new.links.now ≡ record (L.state self.old.links.now) { faults = (L.state self.new.links.now).faults }) }
        ensures failed { IsErrOf result OpenFault.Failed → Rose (L.state self.old.links.now).faults (L.state self.new.links.now).faults }
        ensures short { IsErrOf result OpenFault.NoMemory → (L.state self.new.links.now).faults ≡ (L.state self.old.links.now).faults }
        ensures kept { self.new.kept ≡ self.old.kept }
        ensures name { self.new.links.ghost_name ≡ self.old.links.ghost_name }
    {
        match self.links.accept(port) {
            Ok((out, inn)) => Ok(Connection::new(out, inn)),
            Err(fault) => Err(fault),
        }
    }

    fn keep(&mut self, guest: Connection<L::O, L::I>)
        requires { length self.old.kept.items < vec_capacity self.old.kept }
        ensures kept { self.new.kept.items ≡ self.old.kept.items ++ guest ∷ [] }
        ensures links { self.new.links.now ≡ self.old.links.now }
        ensures room { vec_capacity self.new.kept ≡ vec_capacity self.old.kept }
        ensures name { self.new.links.ghost_name ≡ self.old.links.ghost_name }
    {
        self.kept.push_reserved(guest);
    }
}
