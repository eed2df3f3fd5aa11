ghost use Rattle.std.specs.Prelude.{◌≡◌, ◌≤◌, [], false, IfSome, length};
ghost use Rattle.sock_open.specs.NewTableContents.{AreMade, IsNewSeat, AreNewSeats, PassesFrom};
ghost use Rattle.sock_message.specs.Asked.{name_of};
ghost use Rattle.corr_id.specs.IdTableSeat.{Sits, IsFree};
ghost use Rattle.corr_id.specs.IdTableOpening.{AreNew};
ghost use Rattle.call_client.specs.ClientBetweenOperations.{MayGo};
ghost use Rattle.call_client.specs.ClientRun.{MayMakeAll};

use crate::sockets::ONE;
use call_attempts::Tables;
use call_client::Caller;
use corr_id::{IdSeat, IdTable};
use rpc_client::Told;
use seat_programs::{Op, Task};
use sock_io::{MemOut, OpenGate, Shape, Shaped};
use sock_message::{BlockPool, Call};
use sock_open::{Made, new_table};
use sock_rule::SockSeat;
use sock_table::{LinkPass, SockTable};
use sock_words::{EFAILEDSOCKET, Outcome, Plan};
use std::alloc::Global;
use std::collections::VecDeque;
use std::sync::Wait;

type Half = Shaped<MemOut>;

const PLAN: Plan = Plan {
    slots: 2,
    links: 2,
    names: 2,
    ..ONE
};

/// The writing half of a link whose puts from this number on fail, or none for 0.
fn half(alloc: Global, link: u16, fail: u32) -> Option<Half>
    ensures { IfSome result (λ s. (s.inner.link ≡ link) × (s.inner.finished ≡ false) × (s.taken ≡ [])) }
{
    let shape = Shape {
        piece: 8192,
        fail,
        ..Shape::plain()
    };
    match Shaped::new(alloc, MemOut::new(link), shape) {
        Ok(half) => Some(half),
        Err(_) => None,
    }
}

/// A table of two slots, two links and two names, with one seat. The link 1 fails at its first put.
fn begin(alloc: Global) -> Option<Made<Half>>
    ensures plan { IfSome result (λ m. m.table.rule.plan ≡ record { slots = 2; links = 2; requests = 4; names = 2; operations = 3; seats = 1; first = 0 }) }
    ensures made { IfSome result (λ m. AreMade m.table.rule.table.shared.table_id m.table.rule.plan m.seats.items m.passes.items) }
{
    let plan = PLAN;
    let good = half(alloc, 0, 0)?;
    let bad = half(alloc, 1, 1)?;
    let Ok(outs) = vec![in alloc; good, bad] else {
        return None;
    };
    let Ok(made) = new_table(alloc, &plan, outs) else {
        return None;
    };
    Some(made)
}

/// A table of one id slot for three operations, with one seat.
fn ids_of(alloc: Global) -> Option<(IdTable<Call>, Vec<IdSeat<Call>>)>
    ensures plan { IfSome result (λ t. t.0.plan ≡ record { slots = 1; operations = 4; seats = 1 }) }
    ensures seats { IfSome result (λ t. AreNew t.0.table.shared.table_id t.1.items) }
{
    match IdTable::new(alloc, 1, 3, 1) {
        Ok(made) => Some(made),
        Err(_) => None,
    }
}

/// The seat of the table of sockets.
fn seat_of(table: &SockTable<Half>, mut seats: Vec<SockSeat<Half>>) -> Option<SockSeat<Half>>
    requires { AreNewSeats table.now.rule.table.shared.table_id table.now.rule.plan seats.items }
    ensures { IfSome result (λ s. IsNewSeat table.now.rule.table.shared.table_id table.now.rule.plan s) }
{
    let seat = seats.pop()?;
    Some(seat)
}

/// And that of the table of ids.
fn id_seat_of(ids: &IdTable<Call>, mut seats: Vec<IdSeat<Call>>) -> Option<IdSeat<Call>>
    requires { AreNew ids.now.table.shared.table_id seats.items }
    ensures { IfSome result (λ s. Sits ids.now.table.shared.table_id s × IsFree s.me.0) }
{
    match seats.pop() {
        Some(seat) => Some(seat),
        None => None,
    }
}

/// A client with the seats. The link 1 is the first one that it opens.
fn caller_of(
    alloc: Global,
    tables: &Tables<Half>,
    seats: Vec<SockSeat<Half>>,
    id_seats: Vec<IdSeat<Call>>,
    passes: Vec<LinkPass<Half>>,
) -> Option<Caller<Half>>
    requires seats { AreNewSeats tables.now.socks.rule.table.shared.table_id tables.now.socks.rule.plan seats.items }
    requires ids { AreNew tables.now.ids.table.shared.table_id id_seats.items }
    requires passes { PassesFrom tables.now.socks.rule.table.shared.table_id tables.now.socks.rule.plan 0 passes.items }
    ensures go { IfSome result (λ c. MayGo tables.now.socks.rule.table.shared.table_id tables.now.socks.rule.plan tables.now.ids.table.shared.table_id 0 c) }
    ensures passes { IfSome result (λ c. c.passes ≡ passes) }
    ensures fed { IfSome result (λ c. c.calls.starved ≡ false) }
{
    let seat = seat_of(&tables.socks, seats)?;
    let ids = id_seat_of(&tables.ids, id_seats)?;
    Some(Caller::new(alloc, seat, ids, passes))
}

/// The operation 2, a call over both names in turn, with so many versions of its id.
fn call_of(alloc: Global, range: u8) -> Option<Call>
    requires { (2 ≤ range) × (range ≤ 8) }
    ensures { IfSome result (λ c. (name_of c 0 ≡ 0) × (c.operation ≡ 2)) }
{
    let mut pool = BlockPool::new(alloc);
    let Ok(names) = vec![in alloc; 0u16, 1u16] else {
        return None;
    };
    match Call::new(
        alloc, &mut pool, 2, names, b"Echo", b"Echo", b"hi", b"", range,
    ) {
        Ok(call) => Some(call),
        Err(_) => None,
    }
}

/// Opens both names, and makes this call.
fn tasks_of(alloc: Global, call: Call) -> Option<VecDeque<Task>>
    requires { (name_of call 0 ≡ 0) × (call.operation ≡ 2) }
    ensures { IfSome result (λ t. MayMakeAll (record { slots = 2; links = 2; requests = 4; names = 2; operations = 3; seats = 1; first = 0 }) (record { slots = 1; operations = 4; seats = 1 }) t.items 2 × (length t.items ≡ 3)) }
{
    let first = Task {
        number: 0,
        op: Op::Open(0, 1),
    };
    let second = Task {
        number: 1,
        op: Op::Open(1, 0),
    };
    let third = Task {
        number: 2,
        op: Op::Call(call),
    };
    match VecDeque::from_array(alloc, [first, second, third]) {
        Ok(tasks) => Some(tasks),
        Err(_) => None,
    }
}

/// A client of these seats that has made them.
fn ran_by<R: Wait>(
    rt: &R,
    tables: &Tables<Half>,
    mut caller: Caller<Half>,
    tasks: VecDeque<Task>,
) -> Option<Caller<Half>>
    requires few { length tasks.items ≤ 65535 }
    requires go { MayGo tables.now.socks.rule.table.shared.table_id tables.now.socks.rule.plan tables.now.ids.table.shared.table_id 0 caller }
    requires may { MayMakeAll tables.now.socks.rule.plan tables.now.ids.plan tasks.items (length caller.passes.items) }
    requires fed { caller.calls.starved ≡ false }
{
    caller.run(rt, tables, 1, tasks, &OpenGate).ok()?;
    Some(caller)
}

/// Such a client, alone on its tables.
fn all_ran<R: Wait>(rt: &R, alloc: Global, range: u8) -> Option<Caller<Half>>
    requires { (2 ≤ range) × (range ≤ 8) }
{
    let Made {
        table,
        seats,
        passes,
    } = begin(alloc)?;
    let (ids, id_seats) = ids_of(alloc)?;
    let tables = Tables { socks: table, ids };
    let caller = caller_of(alloc, &tables, seats, id_seats, passes)?;
    let call = call_of(alloc, range)?;
    let tasks = tasks_of(alloc, call)?;
    ran_by(rt, &tables, caller, tasks)
}

/// Whether this is the end of operation 2 by an error of its socket.
fn is_failed(told: &Told) -> bool {
    match told.outcome {
        Outcome::CallFailed { id: _, code } => told.number == 2 && code == EFAILEDSOCKET,
        _ => false,
    }
}

#[test]
fn a_call_is_tried_again(rt: HostRuntime) {
    let Some(left) = all_ran(&rt, rt.alloc(), 3) else {
        panic!(&rt; "no memory");
    };
    assert!(&rt; left.outcomes.len() == 2 && left.calls.told.is_empty());
}

#[test]
fn a_call_of_one_attempt_ends_with_its_drop(rt: HostRuntime) {
    let Some(left) = all_ran(&rt, rt.alloc(), 2) else {
        panic!(&rt; "no memory");
    };
    assert!(&rt; left.outcomes.len() == 2 && left.calls.told.len() == 1);
    let failed = left.calls.told.first().is_some_and(is_failed);
    assert!(&rt; failed);
}
