// One operation of a client with calls.
ghost use Rattle.std.specs.Prelude.{◌≡◌, ◌+◌, ◌*◌, ◌<◌, ℕ, IfOk, IfErr, All, length, vec_capacity};
ghost use Rattle.sock_table.specs.LinkPasses.{IsPass};
ghost use Rattle.sock_message.specs.Asked.{name_of};
ghost use Rattle.corr_id.specs.IdTableSeat.{Stays};
ghost use Rattle.rpc_client.specs.SeatBetweenOperations.{MayAct, AtRest, StaysSeen, SameRefs};
ghost use Rattle.rpc_client.specs.AcceptedClientMessages.{OwnList};
ghost use Rattle.call_errors.specs.ClientBooks.{stand_of, HasNoLock};
ghost use Rattle.call_attempts.specs.call_writes.specs.MessageFateBesideCalls.{SentCalling, Rested};
ghost use Rattle.call_client.specs.ClientBetweenOperations.{letter_of, stand, OpenedNext, MayGo, Needs, Acted};
ghost use Rattle.call_client.specs.ClientRun.{NotCalled};
ghost use Rattle.call_client.specs.ClientStopsMaking.{NotMade};

use crate::caller::Caller;
use call_attempts::{CallTables, Called, SharedTables, Tables};
use call_errors::{Ask, ask_one};
use message_parts::Parcel;
use rpc_client::{drop_one, fail_one, hold_one, open_one};
use seat_programs::Op;
use sock_io::Out;
use sock_message::{Call, Message, NoMemory};
use sock_rule::Letter;
use sock_words::{Label, Outcome};
use std::sync::Wait;

/// The next pass becomes a socket.
fn open_next<O: Out>(caller: &mut Caller<O>, tables: &Tables<O>, name: u16, number: u16) -> Outcome
    requires may { MayAct tables.now.socks.rule.table.shared.table_id tables.now.socks.rule.plan caller.old.seat }
    requires name { name < tables.now.socks.rule.plan.names }
    requires number { number < tables.now.socks.rule.plan.operations }
    requires passes { All (IsPass tables.now.socks.rule.table.shared.table_id tables.now.socks.rule.plan) caller.old.passes.items }
    requires pass { 0 < length caller.old.passes.items }
    ensures rest { AtRest tables.now.socks.rule.table.shared.table_id tables.now.socks.rule.plan caller.old.seat caller.new.seat }
    ensures by { OpenedNext tables.now.socks.rule.plan name number result caller.old.passes.items caller.old.seat.me caller.new.passes.items caller.new.seat.me }
    ensures passes { All (IsPass tables.now.socks.rule.table.shared.table_id tables.now.socks.rule.plan) caller.new.passes.items }
    ensures refs { SameRefs caller.old.seat.me.0 caller.new.seat.me.0 }
    ensures lists { caller.new.seat.me.0.lists ≡ caller.old.seat.me.0.lists }
    ensures seen { StaysSeen caller.old.seat.me.0 caller.new.seat.me.0 }
    ensures others { (caller.new.held ≡ caller.old.held) × (caller.new.outcomes ≡ caller.old.outcomes) × (caller.new.calls ≡ caller.old.calls) × (caller.new.sent ≡ caller.old.sent) }
{
    let Some(pass) = caller.passes.pop() else {
        unreachable!();
    };
    open_one(&tables.socks, &mut caller.seat, name, number, pass)
}

/// The letter of the send that is this operation.
fn send_letter(number: u16, message: Message) -> Letter
    ensures { result ≡ letter_of number message }
{
    Letter {
        bytes: Parcel::Message(message),
        label: Label {
            client: 0,
            operation: number,
            attempt: 0,
            place: 8 * u32::from(number),
        },
        owner: 0,
    }
}

/// A message is sent.
fn send_message<O: Out, R: Wait>(
    caller: &mut Caller<O>,
    at: &CallTables<O, R>,
    name: u16,
    msg: Letter,
) -> Option<Outcome>
    requires may { MayAct at.now.tables.now.socks.rule.table.shared.table_id at.now.tables.now.socks.rule.plan caller.old.seat }
    requires own { OwnList caller.old.sent caller.old.seat.me.0 }
    requires room { caller.old.sent < 33554431 }
    requires ids { HasNoLock at.now.tables.now.ids.table.shared.table_id caller.old.calls }
    requires name { name < at.now.tables.now.socks.rule.plan.names }
    requires label { msg.label.place < 8 * at.now.tables.now.socks.rule.plan.operations }
    ensures rested { Rested at.now.tables.now.socks.rule.table.shared.table_id at.now.tables.now.socks.rule.plan at.now.tables.now.ids.table.shared.table_id caller.old.seat caller.new.seat caller.old.calls caller.new.calls }
    ensures own { OwnList caller.new.sent caller.new.seat.me.0 }
    ensures by { SentCalling O.state at.now.tables.now.socks.rule.plan at.now.tables.now.ids.plan.slots name msg result caller.old.seat.me.0 (stand_of caller.old.calls) caller.new.seat.me.0 (stand_of caller.new.calls) }
    ensures others { (caller.new.held ≡ caller.old.held) × (caller.new.passes ≡ caller.old.passes) × (caller.new.outcomes ≡ caller.old.outcomes) }
{
    caller.sent += 1;
    let on = SharedTables {
        rt: at.rt,
        socks: &at.tables.socks,
        ids: &at.tables.ids,
    };
    on.send(&mut caller.seat, &mut caller.calls, name, msg)
}

/// A call begins. Where it doesn't, for want of memory or of an id slot, it isn't made.
fn begin_call<O: Out, R: Wait>(
    caller: &mut Caller<O>,
    at: &CallTables<O, R>,
    call: Call,
) -> Result<Option<Outcome>, NoMemory>
    requires may { MayAct at.now.tables.now.socks.rule.table.shared.table_id at.now.tables.now.socks.rule.plan caller.old.seat }
    requires own { OwnList caller.old.sent caller.old.seat.me.0 }
    requires room { caller.old.sent < 33554431 }
    requires ids { HasNoLock at.now.tables.now.ids.table.shared.table_id caller.old.calls }
    requires name { name_of call 0 < at.now.tables.now.socks.rule.plan.names }
    requires operation { (call.operation < at.now.tables.now.socks.rule.plan.operations) × (call.operation < at.now.tables.now.ids.plan.operations) }
    ensures rested { Rested at.now.tables.now.socks.rule.table.shared.table_id at.now.tables.now.socks.rule.plan at.now.tables.now.ids.table.shared.table_id caller.old.seat caller.new.seat caller.old.calls caller.new.calls }
    ensures own { OwnList caller.new.sent caller.new.seat.me.0 }
    ensures called { IfOk result (λ o. (number : ℕ) → Acted O.state at.now.tables.now.socks.rule.plan at.now.tables.now.ids.plan number (Op.Call call) o (stand caller.old) (stand caller.new)) }
    ensures not_called { IfErr result (λ _. NotCalled O.state at.now.tables.now.socks.rule.plan at.now.tables.now.ids.plan call (stand caller.old) (stand caller.new)) }
    ensures others { (caller.new.held ≡ caller.old.held) × (caller.new.passes ≡ caller.old.passes) × (caller.new.outcomes ≡ caller.old.outcomes) }
{
    caller.sent += 1;
    let called = at.call_one(&mut caller.seat, &mut caller.calls, call)?;
    match called {
        Called::Unopened => Ok(Some(Outcome::Unopened)),
        Called::NoSlot => Err(NoMemory),
        Called::Begun(_) => Ok(None),
    }
}

/// What becomes of an operation, of which the client made `made` before. Nothing is told of a send that was accepted, and of a call
/// that has begun.
pub fn act<O: Out, R: Wait>(
    caller: &mut Caller<O>,
    at: &CallTables<O, R>,
    made: u16,
    number: u16,
    op: Op,
) -> Result<Option<Outcome>, NoMemory>
    requires made { made < 65535 }
    requires go { MayGo at.now.tables.now.socks.rule.table.shared.table_id at.now.tables.now.socks.rule.plan at.now.tables.now.ids.table.shared.table_id made caller.old }
    requires number { number < at.now.tables.now.socks.rule.plan.operations }
    requires needs { Needs at.now.tables.now.socks.rule.plan at.now.tables.now.ids.plan number op (length caller.old.passes.items) }
    requires sent { caller.old.sent < 33554431 }
    requires room { length caller.old.held.items < vec_capacity caller.old.held }
    ensures go { MayGo at.now.tables.now.socks.rule.table.shared.table_id at.now.tables.now.socks.rule.plan at.now.tables.now.ids.table.shared.table_id (made + 1) caller.new }
    ensures acted { IfOk result (λ o. Acted O.state at.now.tables.now.socks.rule.plan at.now.tables.now.ids.plan number op o (stand caller.old) (stand caller.new)) }
    ensures not_made { IfErr result (λ _. NotMade O.state at.now.tables.now.socks.rule.plan at.now.tables.now.ids.plan op (stand caller.old) (stand caller.new)) }
    ensures seen { StaysSeen caller.old.seat.me.0 caller.new.seat.me.0 }
    ensures share { caller.new.seat.me.0.share ≡ caller.old.seat.me.0.share }
    ensures same { Stays caller.old.calls.seat caller.new.calls.seat }
    ensures told { caller.new.outcomes ≡ caller.old.outcomes }
    ensures capacity { vec_capacity caller.new.held ≡ vec_capacity caller.old.held }
{
    match op {
        Op::Open(name, _) => {
            drop(op);
            Ok(Some(open_next(caller, at.tables, name, number)))
        }
        Op::Send(name, message) => {
            let msg = send_letter(number, message);
            Ok(send_message(caller, at, name, msg))
        }
        Op::Call(call) => begin_call(caller, at, call),
        Op::Expire(of) => {
            drop(op);
            let outcome = ask_one(at.rt, &at.tables.ids, &mut caller.calls, of, Ask::Expire);
            Ok(Some(outcome))
        }
        Op::Join(of) => {
            drop(op);
            let outcome = ask_one(at.rt, &at.tables.ids, &mut caller.calls, of, Ask::Join);
            Ok(Some(outcome))
        }
        Op::Hold(name) => {
            drop(op);
            let outcome = hold_one(&at.tables.socks, &mut caller.seat, &mut caller.held, name);
            Ok(Some(outcome))
        }
        Op::Drop(name) => {
            drop(op);
            let outcome = drop_one(&at.tables.socks, &mut caller.seat, &mut caller.held, name);
            Ok(Some(outcome))
        }
        Op::Fail(name, code) => {
            drop(op);
            let outcome = fail_one(&at.tables.socks, &mut caller.seat, name, code);
            Ok(Some(outcome))
        }
    }
}
