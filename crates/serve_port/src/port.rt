// A port at which connections are served.
ghost use Rattle.std.specs.Prelude.{◌≡◌, ◌+◌, ◌≤◌, ◌++◌, All, length, map};
ghost use Rattle.serve_port.specs.ServingConnections.{GivesBackFinished, ServesConnections};
ghost use Rattle.serve_port.specs.ServiceSteps.{IsFinished, IsTally, as_served};

use crate::accepting::serve_rest;
use crate::connection::Connection;
use crate::hall::Hall;
use crate::service::ServeFault;
use crate::tally::Tally;
use sock_io::Linker;
use std::alloc::Global;
use std::sync::Wait;
use std::thread::Threads;

/// Gives the connections back, in order.
fn give_back<L: Linker>(links: &mut L, kept: Vec<Connection<L::O, L::I>>) -> Tally
    requires few { length (L.state links.old).done + length kept.items ≤ (L.state links.old).accepted }
    requires finished { All (IsFinished L.O.state) kept.items }
    ensures links { L.state links.new ≡ record (L.state links.old) { done = (L.state links.old).done ++ map (λ s. s.connection) (map (λ c. as_served L.O.state L.I.state c) kept.items) } }
    ensures tally { IsTally (map (λ c. as_served L.O.state L.I.state c) kept.items) result }
{
    let mut tally = Tally::new();
    'gives: for connection in kept {
        let Connection { out, inn, service } = connection;
        links.done(out, inn);
        tally = tally.with(service);
    }
    tally
}

/// Accepts so many connections at a port, serves each on a thread of its own once it was accepted, and gives all back in the
/// order in which they were accepted: how many replies were made in all. Where an accept fails, those accepted before are
/// served to their end all the same. Where memory is wanting for them, none is accepted.
pub fn serve_all<R: Threads + Wait + Sync, L: Linker>(
    rt: &R,
    alloc: Global,
    links: &mut L,
    port: u16,
    count: u16,
) -> Result<u64, ServeFault>
    requires few { (L.state links.old).accepted + count ≤ 256 }
    requires done { length (L.state links.old).done ≤ (L.state links.old).accepted }
    ensures serves { ServesConnections count (L.state links.old) (L.state links.new) result }
    ensures finished { GivesBackFinished L.O.state L.I.state (L.state links.old) (L.state links.new) }
{
    let count = usize::from(count);
    let Ok(kept) = Vec::with_capacity(alloc, count) else {
        return Err(ServeFault::NoMemory);
    };
    let mut hall = Hall { kept, links };
    let accepted = serve_rest(rt, alloc, port, count, &mut hall);
    let Hall { mut kept, links } = hall;
    kept.reverse();
    let tally = give_back(links, kept);
    tally.answer(accepted)
}
