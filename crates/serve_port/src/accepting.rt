// Connections are accepted and served, each on a thread of its own.
ghost use Rattle.std.specs.Prelude.{◌≡◌, ◌+◌, ◌≤◌, length};
ghost use Rattle.std.specs.Thread.{IsSync};
ghost use Rattle.serve_port.specs.ServiceSteps.{AcceptsBeside, AcceptsRest};

use crate::guest::Guest;
use crate::hall::Door;
use sock_io::OpenFault;
use std::alloc::Global;
use std::sync::Wait;
use std::thread::{Threads, join_mut};

/// Accepts so many, each of which is served once it was accepted, and keeps them, the last one first.
#[cycle(accepting)]
pub fn serve_rest<R: Threads + Wait + Sync, D: Door>(
    rt: &R,
    alloc: Global,
    port: u16,
    count: usize,
    door: &mut D,
) -> Result<(), OpenFault>
    requires room { length (D.kept door.old) + count ≤ D.room door.old }
    requires few { (D.links door.old).accepted + count ≤ 256 }
    ensures accepts { AcceptsRest D.G.served count (D.links door.old) (D.links door.new) (D.kept door.old) (D.kept door.new) result }
    ensures room { D.room door.new ≡ D.room door.old }
    ensures name { D.name door.new ≡ D.name door.old }
{
    if count == 0 {
        return Ok(());
    }
    match door.accept(port) {
        Ok(guest) => serve_beside(rt, alloc, port, count - 1, guest, door),
        Err(fault) => Err(fault),
    }
}

/// Serves one while so many more are accepted, and keeps it behind them.
#[cycle(accepting)]
fn serve_beside<R: Threads + Wait + Sync, D: Door>(
    rt: &R,
    alloc: Global,
    port: u16,
    count: usize,
    guest: D::G,
    door: &mut D,
) -> Result<(), OpenFault>
    requires waits { D.G.waits guest }
    requires room { length (D.kept door.old) + (count + 1) ≤ D.room door.old }
    requires few { (D.links door.old).accepted + count ≤ 256 }
    ensures accepts { AcceptsBeside D.G.served count (D.links door.old) (D.links door.new) (D.kept door.old) (D.kept door.new) result }
    ensures room { D.room door.new ≡ D.room door.old }
    ensures name { D.name door.new ≡ D.name door.old }
{
    let mut guest = guest;
    let accepted = serve_both(rt, alloc, port, count, &mut guest, door);
    door.keep(guest);
    accepted
}

/// Serves one on a thread of its own, and the others here. Where no thread can be started, it is served here, behind them.
#[cycle(accepting)]
fn serve_both<R: Threads + Wait + Sync, D: Door>(
    rt: &R,
    alloc: Global,
    port: u16,
    count: usize,
    guest: &mut D::G,
    door: &mut D,
) -> Result<(), OpenFault>
    requires waits { D.G.waits guest.old }
    requires room { length (D.kept door.old) + count ≤ D.room door.old }
    requires few { (D.links door.old).accepted + count ≤ 256 }
    ensures served { D.G.served guest.new }
    ensures accepts { AcceptsRest D.G.served count (D.links door.old) (D.links door.new) (D.kept door.old) (D.kept door.new) result }
    ensures room { D.room door.new ≡ D.room door.old }
    ensures name { D.name door.new ≡ D.name door.old }
{
    let ((), accepted) = join_mut(
        rt,
        &mut ||
            requires { D.G.waits guest.now }
            ensures { D.G.served guest.exit.now }
        { guest.serve(rt, alloc) },
        &mut || -> Result<(), OpenFault>
            requires { IsSync R.row × (length (D.kept door.now) + count ≤ D.room door.now) × ((D.links door.now).accepted + count ≤ 256) }
            ensures { AcceptsRest D.G.served count (D.links door.entry.now) (D.links door.exit.now) (D.kept door.entry.now) (D.kept door.exit.now) result × (D.room door.exit.now ≡ D.room door.entry.now) × (D.name door.exit.now ≡ D.name door.entry.now) }
        { serve_rest(rt, alloc, port, count, door) },
    );
    accepted
}
