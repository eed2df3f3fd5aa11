// What clients leave is handed in.
ghost use Rattle.std.specs.Prelude.{◌≡◌, ◌∷◌, ◌||◌, [], IfOk, length};
ghost use Rattle.call_run.specs.CrewOfRun.{IsRoomFor, HasMore, HandedIn};

use crate::worker::Worker;
use call_client::{CallSeat, Caller, Told};
use corr_id::IdSeat;
use sock_io::Out;
use sock_message::Call;
use sock_rule::SockSeat;
use std::alloc::{AllocError, Global};

/// What clients leave: their seats of both tables, the outcomes of their operations, and those of the calls that they ended, one
/// of each for a client; and whether memory was wanting for any of them.
#[derive(Drop)]
pub struct Left<O: Out> {
    pub seats: Vec<SockSeat<O>>,
    pub ids: Vec<IdSeat<Call>>,
    pub told: Vec<Vec<Told>>,
    pub ended: Vec<Vec<Told>>,
    pub short: bool,
}

/// Room for what so many leave.
pub fn room_to_leave<O: Out>(alloc: Global, count: usize) -> Result<Left<O>, AllocError>
    ensures { IfOk result (IsRoomFor count) }
{
    Ok(Left {
        seats: Vec::with_capacity(alloc, count)?,
        ids: Vec::with_capacity(alloc, count)?,
        told: Vec::with_capacity(alloc, count)?,
        ended: Vec::with_capacity(alloc, count)?,
        short: false,
    })
}

/// Whether any of the two is so.
pub fn either(one: bool, other: bool) -> bool
    ensures { result ≡ (one || other) }
{
    one || other
}

/// What a client leaves.
pub fn hand_in<O: Out>(worker: Worker<O>, left: &mut Left<O>)
    requires { HasMore 1 left.old }
    ensures { HandedIn (worker ∷ []) left.old left.new }
{
    let Worker {
        caller,
        number: _,
        tasks: _,
        short,
    } = worker;
    let Caller {
        seat,
        passes: _,
        held: _,
        outcomes,
        calls,
        sent: _,
    } = caller;
    let CallSeat {
        seat: ids,
        retries: _,
        told,
        starved: _,
        pool: _,
        alloc: _,
    } = calls;
    left.seats.push_reserved(seat);
    left.ids.push_reserved(ids);
    left.told.push_reserved(outcomes);
    left.ended.push_reserved(told);
    left.short = either(left.short, short);
}

/// What each of them leaves, in their order.
pub fn hand_in_all<O: Out>(workers: Vec<Worker<O>>, left: &mut Left<O>)
    requires { HasMore (length workers.items) left.old }
    ensures { HandedIn workers.items left.old left.new }
{
    'hands: for worker in workers {
        hand_in(worker, left);
    }
}
