ghost use Rattle.std.specs.Prelude.{◌≡◌, ◌<◌, IfSome};
ghost use Rattle.sock_table.specs.LinkPasses.{IsPass};
ghost use Rattle.sock_open.specs.NewTableContents.{AreMade, IsNewSeat, AreNewSeats, PassesFrom};
ghost use Rattle.rpc_client.specs.write_chain.specs.SendingIntoChain.{HasRoom};
ghost use Rattle.rpc_client.specs.SeatBetweenOperations.{MayAct};
ghost use Rattle.corr_id.specs.IdTableSeat.{Sits, IsFree};
ghost use Rattle.corr_id.specs.IdTableOpening.{AreNew};

use crate::sockets::ONE;
use call_errors::CallSeat;
use call_writes::SharedTables;
use corr_id::{IdSeat, IdTable};
use message_parts::{CallFrame, Parcel};
use rpc_client::open_one;
use sock_io::{MemOut, Shape, Shaped};
use sock_message::{BlockPool, Call};
use sock_open::{Made, new_table};
use sock_rule::{Letter, SockSeat};
use sock_table::{LinkPass, SockTable};
use sock_words::{EFAILEDSOCKET, Label, Outcome, Plan};
use std::alloc::Global;
use std::sync::Wait;

type Half = Shaped<MemOut>;

type Table = SockTable<Half>;

type Ids = IdTable<Call>;

const PLAN: Plan = Plan {
    requests: 1,
    operations: 2,
    ..ONE
};

/// A table of one slot, a link whose first put fails, and one seat.
fn begin(alloc: Global) -> Option<Made<Half>>
    ensures plan { IfSome result (λ m. m.table.rule.plan ≡ record { slots = 1; links = 1; requests = 1; names = 1; operations = 2; seats = 1; first = 0 }) }
    ensures made { IfSome result (λ m. AreMade m.table.rule.table.shared.table_id m.table.rule.plan m.seats.items m.passes.items) }
{
    let plan = PLAN;
    let shape = Shape {
        piece: 8192,
        fail: 1,
        ..Shape::plain()
    };
    let Ok(half) = Shaped::new(alloc, MemOut::new(0), shape) else {
        return None;
    };
    let Ok(outs) = vec![in alloc; half] else {
        return None;
    };
    let Ok(made) = new_table(alloc, &plan, outs) else {
        return None;
    };
    Some(made)
}

/// The seat of the table of sockets.
fn seat_of(table: &Table, mut seats: Vec<SockSeat<Half>>) -> Option<SockSeat<Half>>
    requires { AreNewSeats table.now.rule.table.shared.table_id table.now.rule.plan seats.items }
    ensures { IfSome result (λ s. IsNewSeat table.now.rule.table.shared.table_id table.now.rule.plan s) }
{
    let seat = seats.pop()?;
    Some(seat)
}

/// The pass of the link.
fn pass_of(table: &Table, mut passes: Vec<LinkPass<Half>>) -> Option<LinkPass<Half>>
    requires { PassesFrom table.now.rule.table.shared.table_id table.now.rule.plan 0 passes.items }
    ensures { IfSome result (λ x. IsPass table.now.rule.table.shared.table_id table.now.rule.plan x) }
{
    let pass = passes.pop()?;
    Some(pass)
}

/// The socket is made, and published under the name 0.
fn open(table: &Table, seat: &mut SockSeat<Half>, pass: LinkPass<Half>) -> bool
    requires seat { IsNewSeat table.now.rule.table.shared.table_id table.now.rule.plan seat.old }
    requires pass { IsPass table.now.rule.table.shared.table_id table.now.rule.plan pass }
    requires name { 0 < table.now.rule.plan.names }
    requires operation { 0 < table.now.rule.plan.operations }
    ensures may { MayAct table.now.rule.table.shared.table_id table.now.rule.plan seat.new }
    ensures room { HasRoom seat.new.me.0 }
{
    let outcome = open_one(table, seat, 0, 0, pass);
    matches!(outcome, Outcome::Opened { .. })
}

/// A table of one id slot, for the operations 0 and 1, and its seat.
fn ids_of(alloc: Global) -> Option<(Ids, Vec<IdSeat<Call>>)>
    ensures plan { IfSome result (λ t. t.0.plan ≡ record { slots = 1; operations = 3; seats = 1 }) }
    ensures seats { IfSome result (λ t. AreNew t.0.table.shared.table_id t.1.items) }
{
    match IdTable::new(alloc, 1, 2, 1) {
        Ok(made) => Some(made),
        Err(_) => None,
    }
}

/// The client's part for calls.
fn calls_of(alloc: Global, ids: &Ids, mut seats: Vec<IdSeat<Call>>) -> Option<CallSeat>
    requires { AreNew ids.now.table.shared.table_id seats.items }
    ensures { IfSome result (λ c. Sits ids.now.table.shared.table_id c.seat × IsFree c.seat.me.0) }
{
    match seats.pop() {
        Some(seat) => Some(CallSeat::new(alloc, seat)),
        None => None,
    }
}

/// The operation 1, a call of one attempt.
fn call_of(alloc: Global, pool: &mut BlockPool) -> Option<Call> {
    let names = vec![in alloc; 0u16].ok()?;
    Call::new(alloc, pool, 1, names, b"Echo", b"Echo", b"hi", b"", 2).ok()
}

/// Its id is made, and the frame of its attempt.
fn begun(alloc: Global, ids: &Ids, calls: &mut CallSeat) -> Option<Letter>
    requires plan { ids.now.plan ≡ record { slots = 1; operations = 3; seats = 1 } }
    requires seat { Sits ids.now.table.shared.table_id calls.old.seat × IsFree calls.old.seat.me.0 }
    ensures seat { Sits ids.now.table.shared.table_id calls.new.seat × IsFree calls.new.seat.me.0 }
    ensures label { IfSome result (λ m. m.label.place ≡ 8) }
{
    let mut pool = BlockPool::new(alloc);
    let call = call_of(alloc, &mut pool)?;
    let shared = call.share().ok()?;
    let Ok(id) = ids.create(&mut calls.seat, 2, call) else {
        return None;
    };
    let Ok(frame) = CallFrame::new(alloc, &mut pool, &shared, id, 0) else {
        return None;
    };
    Some(Letter {
        bytes: Parcel::Frame(frame),
        label: Label {
            client: 1,
            operation: 1,
            attempt: 0,
            place: 8,
        },
        owner: id,
    })
}

/// It is sent to the socket of the name 0. Whether it was accepted.
fn send<R: Wait>(
    rt: &R,
    table: &Table,
    ids: &Ids,
    seat: &mut SockSeat<Half>,
    calls: &mut CallSeat,
    msg: Letter,
) -> bool
    requires may { MayAct table.now.rule.table.shared.table_id table.now.rule.plan seat.old }
    requires room { HasRoom seat.old.me.0 }
    requires plan { table.now.rule.plan ≡ record { slots = 1; links = 1; requests = 1; names = 1; operations = 2; seats = 1; first = 0 } }
    requires label { msg.label.place ≡ 8 }
    requires ids { Sits ids.now.table.shared.table_id calls.old.seat × IsFree calls.old.seat.me.0 }
{
    let on = SharedTables {
        rt,
        socks: table,
        ids,
    };
    let outcome = on.send(seat, calls, 0, msg);
    outcome.is_none()
}

// The link fails at the first put, so the frame is dropped, and its call ends with that.
/// Whether the end of a call is an error of its socket.
fn is_failed(outcome: &Outcome) -> bool {
    match outcome {
        Outcome::CallFailed { id, code } => *id == 1 && *code == EFAILEDSOCKET,
        _ => false,
    }
}

/// Whether the call that is operation 1, and no other, is told so.
fn is_told(calls: &CallSeat) -> bool {
    match calls.told.first() {
        Some(told) => calls.told.len() == 1 && told.number == 1 && is_failed(&told.outcome),
        None => false,
    }
}

#[test]
fn a_call_is_told_of_its_drop(rt: HostRuntime) {
    let alloc = rt.alloc();
    let Some(made) = begin(alloc) else {
        panic!(&rt; "no table");
    };
    let Made {
        table,
        seats,
        passes,
    } = made;
    let Some(mut seat) = seat_of(&table, seats) else {
        panic!(&rt; "no seat");
    };
    let Some(pass) = pass_of(&table, passes) else {
        panic!(&rt; "no pass");
    };
    assert!(&rt; open(&table, &mut seat, pass));
    let Some((ids, id_seats)) = ids_of(alloc) else {
        panic!(&rt; "no ids");
    };
    let Some(mut calls) = calls_of(alloc, &ids, id_seats) else {
        panic!(&rt; "no seat of ids");
    };
    let Some(frame) = begun(alloc, &ids, &mut calls) else {
        panic!(&rt; "no call");
    };
    let accepted = send(&rt, &table, &ids, &mut seat, &mut calls, frame);
    assert!(&rt; accepted && calls.retries.is_empty());
    assert!(&rt; is_told(&calls));
}
