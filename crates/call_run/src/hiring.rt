// The clients of a script get their seats and their passes.
ghost use Rattle.std.specs.Prelude.{◌≡◌, ◌-◌, ◌<◌, ◌≤◌, ◌++◌, ◌∷◌, [], All, IfOk, length, map};
ghost use Rattle.atomic_table.specs.Seated.{TableId};
ghost use Rattle.sock_words.specs.declared.plain.Plan.{Plan};
ghost use Rattle.sock_table.specs.LinkPasses.{IsPass};
ghost use Rattle.sock_open.specs.NewTableContents.{IsNewSeat};
ghost use Rattle.sock_open.specs.SocketTableOpening.{IsRoom};
ghost use Rattle.corr_id.specs.IdTableSeat.{Sits, IsFree};
ghost use Rattle.call_client.specs.ClientBetweenOperations.{MayGo};
ghost use Rattle.call_run.specs.Threads.{opens_of, DidNothing};
ghost use Rattle.call_run.specs.Hired.{HasRoom, MayHire, AreHired};

use crate::opened::opens_of;
use crate::worker::Worker;
use call_client::{Caller, Tables};
use corr_id::IdSeat;
use seat_programs::Task;
use sock_io::Out;
use sock_message::Call;
use sock_rule::SockSeat;
use sock_table::LinkPass;
use std::alloc::{AllocError, Global};
use std::collections::VecDeque;

/// The operations of a client, with room for its passes.
#[derive(Drop)]
pub struct Room<O: Out> {
    pub tasks: VecDeque<Task>,
    pub passes: Vec<LinkPass<O>>,
}

/// There is room for the passes of a client.
pub fn room_for<O: Out>(alloc: Global, tasks: VecDeque<Task>) -> Result<Room<O>, AllocError>
    ensures room { IfOk result HasRoom }
    ensures tasks { IfOk result (λ r. r.tasks ≡ tasks) }
{
    let passes = Vec::with_capacity(alloc, opens_of(&tasks))?;
    Ok(Room { tasks, passes })
}

/// There is room for the passes of each client.
pub fn rooms_for<O: Out>(
    alloc: Global,
    clients: Vec<VecDeque<Task>>,
) -> Result<Vec<Room<O>>, AllocError>
    ensures rooms { IfOk result (λ rooms. All HasRoom rooms.items) }
    ensures tasks { IfOk result (λ rooms. map (λ r. r.tasks.items) rooms.items ≡ map (λ v. v.items) clients.items) }
{
    let mut rooms = Vec::with_capacity(alloc, clients.len())?;
    'clients: for tasks in clients {
        let room = room_for(alloc, tasks)?;
        rooms.push_reserved(room);
    }
    Ok(rooms)
}

/// The next passes, which stand last, become a client's own.
fn take_passes<O: Out>(count: usize, all: &mut Vec<LinkPass<O>>, own: &mut Vec<LinkPass<O>>)
    requires enough { count ≤ length all.old.items }
    requires room { IsRoom count own.old }
    ensures all { all.old.items ≡ all.new.items ++ own.new.items }
    ensures count { length own.new.items ≡ count }
{
    'passes: for _ in 0..count {
        let Some(pass) = all.pop() else {
            unreachable!();
        };
        own.push_reserved(pass);
    }
    own.reverse();
}

/// A client of this number.
pub fn hire<O: Out>(
    alloc: Global,
    number: u16,
    room: Room<O>,
    seat: SockSeat<O>,
    ids: IdSeat<Call>,
    all: &mut Vec<LinkPass<O>>,
) -> Worker<O>
    requires room { HasRoom room }
    requires enough { opens_of room.tasks.items ≤ length all.old.items }
    ensures passes { all.old.items ≡ all.new.items ++ result.caller.passes.items }
    ensures count { length result.caller.passes.items ≡ opens_of room.tasks.items }
    ensures seats { (result.caller.seat ≡ seat) × (result.caller.calls.seat ≡ ids) }
    ensures nothing { DidNothing result.caller }
    ensures go { (z y : TableId) (p : Plan) → IsNewSeat z p seat → Sits y ids → IsFree ids.me.0 → All (IsPass z p) result.caller.passes.items → MayGo z p y 0 result.caller }
    ensures others { (result.number ≡ number) × (result.tasks ≡ room.tasks) }
{
    let Room { tasks, mut passes } = room;
    take_passes(opens_of(&tasks), all, &mut passes);
    let caller = Caller::new(alloc, seat, ids, passes);
    Worker {
        caller,
        number,
        tasks,
        short: false,
    }
}

/// The next seat of each table, which stands last.
pub fn next_seats<O: Out>(
    seats: &mut Vec<SockSeat<O>>,
    ids: &mut Vec<IdSeat<Call>>,
) -> (SockSeat<O>, IdSeat<Call>)
    requires { (0 < length seats.old.items) × (0 < length ids.old.items) }
    ensures seats { seats.old.items ≡ seats.new.items ++ result.0 ∷ [] }
    ensures ids { ids.old.items ≡ ids.new.items ++ result.1 ∷ [] }
{
    let Some(seat) = seats.pop() else {
        unreachable!();
    };
    let Some(id_seat) = ids.pop() else {
        unreachable!();
    };
    (seat, id_seat)
}

/// Each client gets a seat of both tables, and the next passes.
pub fn hire_all<O: Out>(
    alloc: Global,
    tables: &Tables<O>,
    rooms: Vec<Room<O>>,
    seats: &mut Vec<SockSeat<O>>,
    ids: &mut Vec<IdSeat<Call>>,
    all: &mut Vec<LinkPass<O>>,
    workers: &mut Vec<Worker<O>>,
)
    requires may { MayHire tables.now.socks.rule.table.shared.table_id tables.now.socks.rule.plan tables.now.ids.table.shared.table_id rooms.items seats.old.items ids.old.items all.old.items }
    requires room { IsRoom (length rooms.items) workers.old }
    requires few { length rooms.items ≤ 63 }
    ensures hired { AreHired tables.now.socks.rule.table.shared.table_id tables.now.socks.rule.plan tables.now.ids.table.shared.table_id 1 (tables.now.socks.rule.plan.links - length all.old.items) workers.new.items }
    ensures tasks { map (λ w. w.tasks.items) workers.new.items ≡ map (λ r. r.tasks.items) rooms.items }
{
    let mut number = 0u16;
    'hires: for room in rooms {
        let (seat, id_seat) = next_seats(seats, ids);
        number += 1;
        let worker = hire(alloc, number, room, seat, id_seat, all);
        workers.push_reserved(worker);
    }
}
