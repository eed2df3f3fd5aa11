// A new queue, with its submitters.
ghost use Rattle.std.specs.Prelude.{◌≡◌, ◌+◌, ◌<◌, ◌≤◌, ◌∷◌, [], Some, length, vec_len, vec_capacity, false, IfOk, IfErr, IfSome};
ghost use Rattle.std.specs.List.{AllByRecursion};
ghost use Rattle.std.specs.Option.{ForSome};
ghost use Rattle.sock_table.specs.ClosedSocketTable.{IsRoomOf};
ghost use Rattle.sock_open.specs.NewTableContents.{IsNewSeat, AreNewSeats, PassesFrom};
ghost use Rattle.exec_queue.specs.Submitters.{IsQueuePlan};
ghost use Rattle.exec_queue.specs.NewQueue.{IsIdle, IsBeginner, AreNewFrom, HasPlaces};

use crate::queue::{TaskQueue, TaskSubmitter};
use sock_io::Out;
use sock_open::{Made, NoTable, new_table};
use sock_rule::SockSeat;
use sock_table::{Closed, LinkPass, SockTable, rooms};
use sock_words::{Plan, SocketId};
use std::alloc::{AllocError, Global};

/// How many lines and how many requests a queue has.
pub const LINES: u16 = 4096;

/// A queue with its submitters, in the order of their numbers.
#[derive(Drop)]
pub struct TaskParts<O: Out> {
    pub queue: TaskQueue<O>,
    pub submitters: Vec<TaskSubmitter<O>>,
}

/// There was no memory.
#[derive(Drop)]
pub struct NoTasks<O: Out> {
    pub out: O,
}

// What a new queue needs of memory beside its table.
struct Room<O: Out> {
    outs: Vec<O>,
    seats: Vec<SockSeat<O>>,
    submitters: Vec<TaskSubmitter<O>>,
    left: Closed<O>,
}

fn plan_of(submitters: u16) -> Plan
    ensures { result ≡ record { slots = 1; links = 1; requests = 4096; names = 1; operations = 4096; seats = submitters; first = 0 } }
{
    Plan {
        slots: 1,
        links: 1,
        requests: LINES,
        names: 1,
        operations: LINES,
        seats: submitters,
        first: 0,
    }
}

fn room_for<O: Out>(alloc: Global, plan: &Plan) -> Result<Room<O>, AllocError>
    ensures outs { IfOk result (λ r. HasPlaces 1 r.outs) }
    ensures seats { IfOk result (λ r. HasPlaces plan.now.seats r.seats) }
    ensures submitters { IfOk result (λ r. HasPlaces plan.now.seats r.submitters) }
    ensures left { IfOk result (λ r. IsRoomOf plan.now r.left) }
{
    let outs = Vec::with_capacity(alloc, 1)?;
    let seats = Vec::with_capacity(alloc, plan.seats as usize)?;
    let submitters = Vec::with_capacity(alloc, plan.seats as usize)?;
    let left = rooms(alloc, plan)?;
    Ok(Room {
        outs,
        seats,
        submitters,
        left,
    })
}

/// The one half that is back.
pub fn out_back<O: Out>(mut outs: Vec<O>) -> O
    requires { length outs.items ≡ 1 }
    ensures { outs.items ≡ result ∷ [] }
{
    let Some(out) = outs.pop() else {
        unreachable!();
    };
    out
}

/// A seat makes the one socket, and stores its id under the name.
fn born<O: Out>(
    table: &SockTable<O>,
    seat: &mut SockSeat<O>,
    mut passes: Vec<LinkPass<O>>,
) -> Option<SocketId>
    requires seat { IsNewSeat table.now.rule.table.shared.table_id table.now.rule.plan seat.old }
    requires passes { PassesFrom table.now.rule.table.shared.table_id table.now.rule.plan 0 passes.items }
    requires few { length passes.items ≤ 1 }
    requires name { 0 < table.now.rule.plan.names }
    ensures idle { IsIdle table.now.rule.table.shared.table_id table.now.rule.plan seat.new }
    ensures born { IfSome result (λ i. IsBeginner table.now.rule.table.shared.table_id table.now.rule.plan i.0 seat.new) }
{
    let pass = passes.pop()?;
    let Ok(id) = table.create(seat, pass) else {
        return None;
    };
    table.publish(seat, 0, id);
    Some(id)
}

/// Whether a seat finds this socket there.
fn find_one<O: Out>(
    table: &SockTable<O>,
    seat: &mut SockSeat<O>,
    id: Option<SocketId>,
) -> Option<SocketId>
    requires seat { IsNewSeat table.now.rule.table.shared.table_id table.now.rule.plan seat.old }
    requires name { 0 < table.now.rule.plan.names }
    ensures idle { IsIdle table.now.rule.table.shared.table_id table.now.rule.plan seat.new }
    ensures found { IfSome result (λ i. (id ≡ Some i) × IsBeginner table.now.rule.table.shared.table_id table.now.rule.plan i.0 seat.new) }
{
    let found = table.find(seat, 0);
    let found = found?;
    let id = id?;
    if found.0 == id.0 { Some(id) } else { None }
}

/// Whether all seats find this socket there.
fn find_each<O: Out>(
    table: &SockTable<O>,
    mut seats: Vec<SockSeat<O>>,
    ready: &mut Vec<SockSeat<O>>,
    id: Option<SocketId>,
) -> Option<SocketId>
    requires seats { AreNewSeats table.now.rule.table.shared.table_id table.now.rule.plan seats.items }
    requires name { 0 < table.now.rule.plan.names }
    requires idle { AllByRecursion (IsIdle table.now.rule.table.shared.table_id table.now.rule.plan) ready.old.items }
    requires found { IfSome id (λ i. AllByRecursion (IsBeginner table.now.rule.table.shared.table_id table.now.rule.plan i.0) ready.old.items) }
    requires room { vec_len ready.old + length seats.items ≤ vec_capacity ready.old }
    ensures idle { AllByRecursion (IsIdle table.now.rule.table.shared.table_id table.now.rule.plan) ready.new.items }
    ensures found { IfSome result (λ i. AllByRecursion (IsBeginner table.now.rule.table.shared.table_id table.now.rule.plan i.0) ready.new.items) }
    ensures count { length ready.new.items ≡ length ready.old.items + length seats.items }
{
    let mut all = id;
    while let Some(mut seat) = seats.pop() {
        all = find_one(table, &mut seat, all);
        ready.push_reserved(seat);
    }
    all
}

/// The table ends before a task was submitted.
fn give_back<O: Out>(table: SockTable<O>, left: Closed<O>, seats: Vec<SockSeat<O>>) -> O
    requires room { IsRoomOf table.rule.plan left }
    requires seats { AllByRecursion (IsIdle table.rule.table.shared.table_id table.rule.plan) seats.items }
    requires count { length seats.items ≡ table.rule.plan.seats }
    requires some { 1 ≤ table.rule.plan.seats }
    requires link { table.rule.plan.links ≡ 1 }
    ensures { ForSome (O.state result).took (λ bytes. bytes ≡ []) }
{
    let Closed { outs, .. } = table.close_in(left, seats);
    out_back(outs)
}

/// The submitters, in the order of their numbers.
fn submitters_of<O: Out>(
    queue: &TaskQueue<O>,
    mut seats: Vec<SockSeat<O>>,
    made: &mut Vec<TaskSubmitter<O>>,
)
    requires seats { AllByRecursion (IsBeginner queue.now.table.rule.table.shared.table_id queue.now.table.rule.plan queue.now.id.0) seats.items }
    requires few { length seats.items ≤ 64 }
    requires room { HasPlaces (length seats.items) made.old }
    ensures new { AreNewFrom queue.now 1 made.new.items }
    ensures count { length made.new.items ≡ length seats.items }
{
    let mut number = 1u16;
    while let Some(seat) = seats.pop() {
        made.push_reserved(TaskSubmitter {
            seat,
            number,
            stops: 0,
            told: false,
            full: false,
        });
        number += 1;
    }
}

impl<O: Out> TaskQueue<O> {
    /// A queue that runs its tasks over this half, with so many submitters, from 1 to 30. Where memory is wanting the half comes
    /// back, which took nothing.
    pub fn new(alloc: Global, out: O, submitters: u16) -> Result<TaskParts<O>, NoTasks<O>>
        requires some { 1 ≤ submitters }
        requires few { submitters ≤ 30 }
        requires link { (O.state out).link ≡ 0 }
        requires unfinished { (O.state out).finished ≡ false }
        requires took { ForSome (O.state out).took (λ bytes. bytes ≡ []) }
        ensures plan { IfOk result (λ m. IsQueuePlan m.queue.table.rule.plan × (m.queue.table.rule.plan.seats ≡ submitters)) }
        ensures new { IfOk result (λ m. AreNewFrom m.queue 1 m.submitters.items) }
        ensures count { IfOk result (λ m. length m.submitters.items ≡ submitters) }
        ensures back { IfErr result (λ e. ForSome (O.state e.out).took (λ bytes. bytes ≡ [])) }
    {
        let plan = plan_of(submitters);
        let Ok(room) = room_for(alloc, &plan) else {
            return Err(NoTasks { out });
        };
        let Room {
            mut outs,
            seats: mut ready,
            submitters: mut made,
            left,
        } = room;
        outs.push_reserved(out);
        let Made {
            table,
            mut seats,
            passes,
        } = match new_table(alloc, &plan, outs) {
            Ok(made) => made,
            Err(NoTable { outs }) => {
                let out = out_back(outs);
                return Err(NoTasks { out });
            }
        };
        let Some(mut first) = seats.pop() else {
            unreachable!();
        };
        let id = born(&table, &mut first, passes);
        ready.push_reserved(first);
        let Some(id) = find_each(&table, seats, &mut ready, id) else {
            let out = give_back(table, left, ready);
            return Err(NoTasks { out });
        };
        let queue = TaskQueue { table, id };
        submitters_of(&queue, ready, &mut made);
        Ok(TaskParts {
            queue,
            submitters: made,
        })
    }
}
