// A call begins.
ghost use Rattle.std.specs.Prelude.{◌+◌, ◌<◌, ℕ, IfOk, IfErr};
ghost use Rattle.sock_message.specs.Asked.{name_of};
ghost use Rattle.write_chain.specs.SendingIntoChain.{HasRoom};
ghost use Rattle.call_errors.specs.rpc_client.specs.SeatBetweenOperations.{MayAct};
ghost use Rattle.call_errors.specs.rpc_client.specs.AcceptedClientMessages.{OwnList};
ghost use Rattle.call_errors.specs.ClientBooks.{HasNoLock};
ghost use Rattle.call_writes.specs.MessageFateBesideCalls.{Rested};
ghost use Rattle.call_attempts.specs.ClientAtBothTables.{both};
ghost use Rattle.call_attempts.specs.CallBeginning.{CalledBy, WantedBy};

use crate::call_tables::CallTables;
use crate::letters::letter_of;
use call_errors::{CallSeat, give_up};
use message_parts::CallFrame;
use sock_io::Out;
use sock_message::{Call, NoMemory};
use sock_rule::SockSeat;
use std::sync::Wait;

/// How a call begins.
#[derive(Clone, Copy, Debug, PartialEq, Eq)]
pub enum Called {
    /// Nothing was opened under its first name yet, and no id was made.
    Unopened,
    /// Each id slot was found taken.
    NoSlot,
    /// It has this id, and its first attempt was made.
    Begun(u64),
}

impl<O: Out, R: Wait> CallTables<'_, O, R> {
    /// A call with its first attempt, which goes to its first name. Where memory is wanting before its id is made, nothing was done;
    /// behind that, the call ends by it.
    /// bRPC's `Channel::CallMethod`.
    pub fn call_one(
        &self,
        seat: &mut SockSeat<O>,
        calls: &mut CallSeat,
        call: Call,
    ) -> Result<Called, NoMemory>
        requires may { MayAct self.now.tables.now.socks.rule.table.shared.table_id self.now.tables.now.socks.rule.plan seat.old }
        requires room { HasRoom seat.old.me.0 }
        requires ids { HasNoLock self.now.tables.now.ids.table.shared.table_id calls.old }
        requires name { name_of call 0 < self.now.tables.now.socks.rule.plan.names }
        requires operation { (call.operation < self.now.tables.now.socks.rule.plan.operations) × (call.operation < self.now.tables.now.ids.plan.operations) }
        ensures rested { Rested self.now.tables.now.socks.rule.table.shared.table_id self.now.tables.now.socks.rule.plan self.now.tables.now.ids.table.shared.table_id seat.old seat.new calls.old calls.new }
        ensures by { IfOk result (λ c. CalledBy O.state self.now.tables.now.socks.rule.plan self.now.tables.now.ids.plan call c (both seat.old.me.0 calls.old) (both seat.new.me.0 calls.new)) }
        ensures wanted { IfErr result (λ _. WantedBy O.state self.now.tables.now.socks.rule.plan self.now.tables.now.ids.plan call (both seat.old.me.0 calls.old) (both seat.new.me.0 calls.new)) }
        ensures own { (n : ℕ) → OwnList n seat.old.me.0 → OwnList (n + 1) seat.new.me.0 }
    {
        let Some(socket) = self.tables.socks.find(seat, call.name(0)) else {
            drop(call);
            return Ok(Called::Unopened);
        };
        let operation = call.operation;
        let range = call.range;
        let kept = call.share()?;
        let Ok(id) = self.tables.ids.create(&mut calls.seat, range, call) else {
            drop(kept);
            return Ok(Called::NoSlot);
        };
        let slots = self.tables.ids.plan.slots;
        prove!(id / 4_294_967_296 < slots as u64);
        self.tables.ids.note(&mut calls.seat, operation, id);
        let Ok(frame) = CallFrame::new(calls.alloc, &mut calls.pool, &kept, id, 0) else {
            calls.starved = true;
            give_up(self.rt, &self.tables.ids, calls, id);
            drop(kept);
            return Err(NoMemory);
        };
        drop(kept);
        let msg = letter_of(frame, operation, id, 0);
        self.attempt(seat, calls, socket, msg);
        Ok(Called::Begun(id))
    }
}
