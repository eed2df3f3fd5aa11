// A client's run with calls.
ghost use Rattle.std.specs.Prelude.{◌≡◌, ◌+◌, ◌<◌, ◌≤◌, ◌++◌, ◌∷◌, [], true, false, Option, IfOk, IfErr, All, length, vec_capacity};
ghost use Rattle.sock_words.specs.declared.outcome.Outcome.{Outcome as AnOutcome};
ghost use Rattle.sock_table.specs.LinkPasses.{IsPass};
ghost use Rattle.corr_id.specs.IdTableSeat.{Stays};
ghost use Rattle.rpc_client.specs.SeatBetweenOperations.{Idle, AtRest, StaysSeen, SameRefs};
ghost use Rattle.rpc_client.specs.ToldOfOperation.{telling};
ghost use Rattle.call_errors.specs.ClientBooks.{stand_of, HasNoLock, KeepsSeat};
ghost use Rattle.call_errors.specs.Starving.{StarvedBy};
ghost use Rattle.call_attempts.specs.WaitingRetries.{RanOut};
ghost use Rattle.call_client.specs.ClientBetweenOperations.{both_of, stand, MayGo, MayMake, Acted};
ghost use Rattle.call_client.specs.ClientRun.{RetriedHere, MayMakeAll, LeftBy, LeftAll};
ghost use Rattle.call_client.specs.ClientStopsMaking.{NotMade, ComesTo, CameBy};

use crate::acting::act;
use crate::caller::Caller;
use call_attempts::{CallTables, Tables};
use call_errors::{CallSeat, starve};
use rpc_client::{Told, open_none};
use seat_programs::{Op, Task};
use sock_io::{Gate, Out};
use sock_message::NoMemory;
use std::collections::VecDeque;
use std::sync::Wait;

/// So many messages of one seat are accepted at most: its list of them is full then.
const MOST_SENT: u32 = 33_554_431;

/// Whether there is no room for what another operation sends.
fn is_full(sent: u32, last: bool) -> bool
    ensures full { result ≡ true → 33554431 ≤ sent }
    ensures room { result ≡ false → last ≡ false → sent < 33554431 }
{
    !last && sent >= MOST_SENT
}

/// The retries that wait are made. Unless the client has made its last operation, there is room then for what the next one sends.
fn be_ready<O: Out, R: Wait>(
    caller: &mut Caller<O>,
    at: &CallTables<O, R>,
    made: u16,
    last: bool,
) -> Result<(), NoMemory>
    requires go { MayGo at.now.tables.now.socks.rule.table.shared.table_id at.now.tables.now.socks.rule.plan at.now.tables.now.ids.table.shared.table_id made caller.old }
    ensures go { MayGo at.now.tables.now.socks.rule.table.shared.table_id at.now.tables.now.socks.rule.plan at.now.tables.now.ids.table.shared.table_id made caller.new }
    ensures retried { IfOk result (λ _. RetriedHere O.state at.now.tables.now.socks.rule.plan at.now.tables.now.ids.plan (stand caller.old) (stand caller.new)) }
    ensures room { IfOk result (λ _. last ≡ false → caller.new.sent < 33554431) }
    ensures ran_out { IfErr result (λ _. RanOut O.state at.now.tables.now.socks.rule.plan at.now.tables.now.ids.plan caller.new.sent (both_of (stand caller.old)) (both_of (stand caller.new))) }
    ensures seen { StaysSeen caller.old.seat.me.0 caller.new.seat.me.0 }
    ensures share { caller.new.seat.me.0.share ≡ caller.old.seat.me.0.share }
    ensures same { Stays caller.old.calls.seat caller.new.calls.seat }
    ensures others { (caller.new.held ≡ caller.old.held) × (caller.new.passes ≡ caller.old.passes) × (caller.new.outcomes ≡ caller.old.outcomes) }
{
    at.retry_all(&mut caller.seat, &mut caller.calls, &mut caller.sent)?;
    if is_full(caller.sent, last) {
        caller.calls.starved = true;
        return Err(NoMemory);
    }
    Ok(())
}

/// An operation is made, and what becomes of it is told.
fn make<O: Out, R: Wait>(
    caller: &mut Caller<O>,
    at: &CallTables<O, R>,
    made: u16,
    task: Task,
) -> Result<(), NoMemory>
    requires made { made < 65535 }
    requires go { MayGo at.now.tables.now.socks.rule.table.shared.table_id at.now.tables.now.socks.rule.plan at.now.tables.now.ids.table.shared.table_id made caller.old }
    requires may { MayMake at.now.tables.now.socks.rule.plan at.now.tables.now.ids.plan task (length caller.old.passes.items) }
    requires sent { caller.old.sent < 33554431 }
    requires room { (length caller.old.held.items < vec_capacity caller.old.held) × (length caller.old.outcomes.items < vec_capacity caller.old.outcomes) }
    ensures go { MayGo at.now.tables.now.socks.rule.table.shared.table_id at.now.tables.now.socks.rule.plan at.now.tables.now.ids.table.shared.table_id (made + 1) caller.new }
    ensures made { IfOk result (λ _. (by : Option AnOutcome) × Acted O.state at.now.tables.now.socks.rule.plan at.now.tables.now.ids.plan task.number task.op by (stand caller.old) (stand caller.new) × (caller.new.outcomes.items ≡ caller.old.outcomes.items ++ telling task.number by)) }
    ensures not_made { IfErr result (λ _. NotMade O.state at.now.tables.now.socks.rule.plan at.now.tables.now.ids.plan task.op (stand caller.old) (stand caller.new) × (caller.new.outcomes ≡ caller.old.outcomes)) }
    ensures seen { StaysSeen caller.old.seat.me.0 caller.new.seat.me.0 }
    ensures share { caller.new.seat.me.0.share ≡ caller.old.seat.me.0.share }
    ensures same { Stays caller.old.calls.seat caller.new.calls.seat }
    ensures capacity { (vec_capacity caller.new.held ≡ vec_capacity caller.old.held) × (vec_capacity caller.new.outcomes ≡ vec_capacity caller.old.outcomes) }
{
    let Task { number, op } = task;
    let told = act(caller, at, made, number, op)?;
    if let Some(outcome) = told {
        caller.outcomes.push_reserved(Told { number, outcome });
    }
    Ok(())
}

/// Whether no operation is left.
fn is_done(tasks: &VecDeque<Task>) -> bool
    ensures done { result ≡ true → tasks.now.items ≡ [] }
    ensures next { result ≡ false → 0 < length tasks.now.items }
{
    tasks.is_empty()
}

/// The next operation.
fn next_of(tasks: &mut VecDeque<Task>) -> Task
    requires { 0 < length tasks.old.items }
    ensures { tasks.old.items ≡ result ∷ tasks.new.items }
{
    let Some(task) = tasks.pop_front() else {
        unreachable!();
    };
    task
}

/// There is room for what so many operations tell and hold.
fn make_room<O: Out>(caller: &mut Caller<O>, count: usize) -> Result<(), NoMemory>
    ensures room { IfOk result (λ _. (length caller.new.held.items + count ≤ vec_capacity caller.new.held) × (length caller.new.outcomes.items + count ≤ vec_capacity caller.new.outcomes)) }
    ensures lists { (caller.new.held.items ≡ caller.old.held.items) × (caller.new.outcomes.items ≡ caller.old.outcomes.items) }
    ensures others { (caller.new.seat ≡ caller.old.seat) × (caller.new.passes ≡ caller.old.passes) × (caller.new.calls ≡ caller.old.calls) × (caller.new.sent ≡ caller.old.sent) }
{
    caller.outcomes.reserve(count)?;
    caller.held.reserve(count)?;
    Ok(())
}

/// There is room for what the operations tell and hold, and they are made, one after the other, behind the gate, with the
/// retries that wait before each of them and behind the last; until memory is wanting.
pub fn make_all<O: Out, R: Wait, G: Gate>(
    caller: &mut Caller<O>,
    at: &CallTables<O, R>,
    of: u16,
    tasks: &mut VecDeque<Task>,
    gate: &G,
) -> Result<(), NoMemory>
    requires few { length tasks.old.items ≤ 65535 }
    requires go { MayGo at.now.tables.now.socks.rule.table.shared.table_id at.now.tables.now.socks.rule.plan at.now.tables.now.ids.table.shared.table_id 0 caller.old }
    requires may { MayMakeAll at.now.tables.now.socks.rule.plan at.now.tables.now.ids.plan tasks.old.items (length caller.old.passes.items) }
    ensures go { MayGo at.now.tables.now.socks.rule.table.shared.table_id at.now.tables.now.socks.rule.plan at.now.tables.now.ids.table.shared.table_id (length tasks.old.items) caller.new }
    ensures all { IfOk result (λ _. CameBy O.state at.now.tables.now.socks.rule.plan at.now.tables.now.ids.plan (ComesTo O.state at.now.tables.now.socks.rule.plan at.now.tables.now.ids.plan false tasks.old.items) tasks.old.items tasks.new.items caller.old caller.new) }
    ensures short { IfErr result (λ _. CameBy O.state at.now.tables.now.socks.rule.plan at.now.tables.now.ids.plan (ComesTo O.state at.now.tables.now.socks.rule.plan at.now.tables.now.ids.plan true tasks.old.items) tasks.old.items tasks.new.items caller.old caller.new) }
    ensures left { MayMakeAll at.now.tables.now.socks.rule.plan at.now.tables.now.ids.plan tasks.new.items (length caller.new.passes.items) }
    ensures share { caller.new.seat.me.0.share ≡ caller.old.seat.me.0.share }
    ensures same { Stays caller.old.calls.seat caller.new.calls.seat }
{
    let Ok(()) = make_room(caller, tasks.len()) else {
        caller.calls.starved = true;
        return Err(NoMemory);
    };
    let mut made = 0u16;
    'makes: loop {
        let last = is_done(tasks);
        be_ready(caller, at, made, last)?;
        if last {
            return Ok(());
        }
        let task = next_of(tasks);
        gate.pass(at.rt, of, made + 1);
        make(caller, at, made, task)?;
        made += 1;
    }
}

/// Where memory was wanting, each call whose retry waits ends by that.
pub fn end_retries<O: Out, R: Wait>(at: &CallTables<O, R>, calls: &mut CallSeat, short: bool)
    requires ids { HasNoLock at.now.tables.now.ids.table.shared.table_id calls.old }
    ensures keeps { KeepsSeat at.now.tables.now.ids.table.shared.table_id calls.old calls.new }
    ensures ended { short ≡ true → StarvedBy at.now.tables.now.ids.plan.slots (stand_of calls.old) (stand_of calls.new) }
    ensures same { short ≡ false → calls.new ≡ calls.old }
{
    if short {
        starve(at.rt, &at.tables.ids, calls);
    }
}

/// An operation that isn't made any more: an `open` gets no socket.
fn leave_one<O: Out>(caller: &mut Caller<O>, tables: &Tables<O>, task: Task)
    requires idle { Idle tables.now.socks.rule.table.shared.table_id tables.now.socks.rule.plan caller.old.seat }
    requires passes { All (IsPass tables.now.socks.rule.table.shared.table_id tables.now.socks.rule.plan) caller.old.passes.items }
    requires may { MayMake tables.now.socks.rule.plan tables.now.ids.plan task (length caller.old.passes.items) }
    ensures rest { AtRest tables.now.socks.rule.table.shared.table_id tables.now.socks.rule.plan caller.old.seat caller.new.seat }
    ensures passes { All (IsPass tables.now.socks.rule.table.shared.table_id tables.now.socks.rule.plan) caller.new.passes.items }
    ensures left { LeftBy tables.now.socks.rule.plan task.number task.op (stand caller.old) (stand caller.new) }
    ensures refs { SameRefs caller.old.seat.me.0 caller.new.seat.me.0 }
    ensures others { (caller.new.held ≡ caller.old.held) × (caller.new.outcomes ≡ caller.old.outcomes) × (caller.new.calls ≡ caller.old.calls) }
{
    if let Op::Open(_, _) = task.op {
        let Some(pass) = caller.passes.pop() else {
            unreachable!();
        };
        open_none(&tables.socks, &mut caller.seat, task.number, pass);
        drop(task);
    } else {
        drop(task);
    }
}

/// None of these operations is made any more.
pub fn leave_all<O: Out>(caller: &mut Caller<O>, tables: &Tables<O>, mut tasks: VecDeque<Task>)
    requires idle { Idle tables.now.socks.rule.table.shared.table_id tables.now.socks.rule.plan caller.old.seat }
    requires passes { All (IsPass tables.now.socks.rule.table.shared.table_id tables.now.socks.rule.plan) caller.old.passes.items }
    requires may { MayMakeAll tables.now.socks.rule.plan tables.now.ids.plan tasks.items (length caller.old.passes.items) }
    ensures rest { AtRest tables.now.socks.rule.table.shared.table_id tables.now.socks.rule.plan caller.old.seat caller.new.seat }
    ensures passes { caller.new.passes.items ≡ [] }
    ensures left { LeftAll tables.now.socks.rule.plan tasks.items (stand caller.old) (stand caller.new) }
    ensures refs { SameRefs caller.old.seat.me.0 caller.new.seat.me.0 }
    ensures others { (caller.new.held ≡ caller.old.held) × (caller.new.outcomes ≡ caller.old.outcomes) × (caller.new.calls ≡ caller.old.calls) }
{
    'leaves: while let Some(task) = tasks.pop_front() {
        leave_one(caller, tables, task);
    }
}
