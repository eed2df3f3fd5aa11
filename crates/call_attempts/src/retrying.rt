// Retries that a client keeps.
ghost use Rattle.std.specs.Prelude.{◌≡◌, ◌+◌, ◌*◌, ◌<◌, ◌≤◌, ◌⊎◌, ℕ, true, false, IfOk, IfErr};
ghost use Rattle.write_chain.specs.SendingIntoChain.{HasRoom};
ghost use Rattle.call_errors.specs.rpc_client.specs.SeatBetweenOperations.{MayAct};
ghost use Rattle.call_errors.specs.rpc_client.specs.AcceptedClientMessages.{OwnList};
ghost use Rattle.call_errors.specs.ClientBooks.{books_of, starving, HasNoLock};
ghost use Rattle.call_writes.specs.MessageFateBesideCalls.{Rested};
ghost use Rattle.call_attempts.specs.ClientAtBothTables.{both, IsCallId};
ghost use Rattle.call_attempts.specs.WaitingRetries.{IsStray, IsAtHome, TookNext, WentTo, RetriedBy, GaveUp, RetriedAll, RanOut};

use crate::call_tables::CallTables;
use crate::letters::letter_of;
use crate::tables::Tables;
use call_errors::{CallSeat, Retry, end_call, handle};
use corr_id::Unlocked;
use message_parts::CallFrame;
use sock_io::Out;
use sock_message::NoMemory;
use sock_rule::{Letter, SockSeat};
use sock_words::{EFAILEDSOCKET, EINTERNAL};
use std::sync::Wait;

/// So many messages of one seat are accepted at most: its list of them is full then.
const MOST_SENT: u32 = 33_554_431;

// Whether the tables have the name and the operation. No call lacks them that a client of these tables begins.
fn is_stray<O: Out>(tables: &Tables<O>, name: u16, operation: u16) -> bool
    ensures stray { result ≡ true → IsStray tables.now.socks.rule.plan tables.now.ids.plan name operation }
    ensures at_home { result ≡ false → IsAtHome tables.now.socks.rule.plan tables.now.ids.plan name operation }
{
    name >= tables.socks.rule.plan.names
        || operation >= tables.socks.rule.plan.operations
        || operation >= tables.ids.plan.operations
}

// The oldest retry, where memory isn't wanting and one message more may be accepted.
fn next_retry(calls: &mut CallSeat, sent: u32) -> Result<Option<Retry>, NoMemory>
    ensures seat { calls.new.seat ≡ calls.old.seat }
    ensures next { IfOk result (λ r. TookNext r (books_of calls.old) (books_of calls.new) × (sent < 33554431)) }
    ensures wanting { IfErr result (λ _. ((calls.old.starved ≡ true) ⊎ (33554431 ≤ sent)) × (books_of calls.new ≡ starving (books_of calls.old))) }
{
    if calls.starved {
        return Err(NoMemory);
    }
    if sent >= MOST_SENT {
        calls.starved = true;
        return Err(NoMemory);
    }
    Ok(calls.retries.pop_front())
}

impl<O: Out, R: Wait> CallTables<'_, O, R> {
    // An attempt goes to the socket of its name. Where there is none, that is posted to the call.
    fn go_to(&self, seat: &mut SockSeat<O>, calls: &mut CallSeat, name: u16, msg: Letter)
        requires may { MayAct self.now.tables.now.socks.rule.table.shared.table_id self.now.tables.now.socks.rule.plan seat.old }
        requires room { HasRoom seat.old.me.0 }
        requires ids { HasNoLock self.now.tables.now.ids.table.shared.table_id calls.old }
        requires id { IsCallId self.now.tables.now.ids.plan msg.owner }
        requires place { msg.label.place ≡ 8 * msg.label.operation + msg.label.attempt }
        ensures rested { Rested self.now.tables.now.socks.rule.table.shared.table_id self.now.tables.now.socks.rule.plan self.now.tables.now.ids.table.shared.table_id seat.old seat.new calls.old calls.new }
        ensures by { WentTo O.state self.now.tables.now.socks.rule.plan self.now.tables.now.ids.plan name msg (both seat.old.me.0 calls.old) (both seat.new.me.0 calls.new) }
        ensures own { (n : ℕ) → OwnList n seat.old.me.0 → OwnList (n + 1) seat.new.me.0 }
    {
        if is_stray(self.tables, name, msg.label.operation) {
            return self.post_for(calls, msg, EFAILEDSOCKET);
        }
        match self.tables.socks.find(seat, name) {
            Some(socket) => self.attempt(seat, calls, socket, msg),
            None => self.post_for(calls, msg, EFAILEDSOCKET),
        }
    }

    /// A retry that waited: its id is locked for as long as the frame of its attempt is made, which goes out then. Where the call has
    /// ended nothing is done; where another error waited for the lock, that one is handled and the retry is spent. Where there is no
    /// memory for the frame, the call ends by that.
    fn retry_one(
        &self,
        seat: &mut SockSeat<O>,
        calls: &mut CallSeat,
        retry: Retry,
    ) -> Result<(), NoMemory>
        requires may { MayAct self.now.tables.now.socks.rule.table.shared.table_id self.now.tables.now.socks.rule.plan seat.old }
        requires room { HasRoom seat.old.me.0 }
        requires ids { HasNoLock self.now.tables.now.ids.table.shared.table_id calls.old }
        ensures rested { Rested self.now.tables.now.socks.rule.table.shared.table_id self.now.tables.now.socks.rule.plan self.now.tables.now.ids.table.shared.table_id seat.old seat.new calls.old calls.new }
        ensures by { IfOk result (λ _. RetriedBy O.state self.now.tables.now.socks.rule.plan self.now.tables.now.ids.plan retry (both seat.old.me.0 calls.old) (both seat.new.me.0 calls.new)) }
        ensures gave_up { IfErr result (λ _. GaveUp O.state self.now.tables.now.socks.rule.plan self.now.tables.now.ids.plan retry (both seat.old.me.0 calls.old) (both seat.new.me.0 calls.new)) }
        ensures own { (n : ℕ) → OwnList n seat.old.me.0 → OwnList (n + 1) seat.new.me.0 }
    {
        let Retry { id, attempt: n } = retry;
        let Ok(lock) = self.tables.ids.lock(self.rt, &mut calls.seat, id) else {
            return Ok(());
        };
        let slots = self.tables.ids.plan.slots;
        prove!(id / 4_294_967_296 < slots as u64);
        let operation = lock.content.operation;
        let name = lock.content.name(n);
        let Ok(frame) = CallFrame::new(calls.alloc, &mut calls.pool, lock.content(), id, n) else {
            calls.starved = true;
            end_call(&self.tables.ids, calls, lock, EINTERNAL);
            return Err(NoMemory);
        };
        match self.tables.ids.unlock(&mut calls.seat, lock, false) {
            Unlocked::Next {
                lock: next,
                code,
                attempt,
            } => {
                handle(&self.tables.ids, calls, next, code, attempt);
                drop(frame);
                Ok(())
            }
            Unlocked::Open => {
                let msg = letter_of(frame, operation, id, n);
                self.go_to(seat, calls, name, msg);
                Ok(())
            }
        }
    }

    /// The retries that wait are made, the oldest first, until none waits, also none that came meanwhile; or until memory is wanting.
    /// `sent` counts the messages that were accepted of this seat, or more.
    pub fn retry_all(
        &self,
        seat: &mut SockSeat<O>,
        calls: &mut CallSeat,
        sent: &mut u32,
    ) -> Result<(), NoMemory>
        requires may { MayAct self.now.tables.now.socks.rule.table.shared.table_id self.now.tables.now.socks.rule.plan seat.old }
        requires own { OwnList sent.old seat.old.me.0 }
        requires ids { HasNoLock self.now.tables.now.ids.table.shared.table_id calls.old }
        ensures rested { Rested self.now.tables.now.socks.rule.table.shared.table_id self.now.tables.now.socks.rule.plan self.now.tables.now.ids.table.shared.table_id seat.old seat.new calls.old calls.new }
        ensures own { OwnList sent.new seat.new.me.0 }
        ensures all { IfOk result (λ _. RetriedAll O.state self.now.tables.now.socks.rule.plan self.now.tables.now.ids.plan (both seat.old.me.0 calls.old) (both seat.new.me.0 calls.new)) }
        ensures ran_out { IfErr result (λ _. RanOut O.state self.now.tables.now.socks.rule.plan self.now.tables.now.ids.plan sent.new (both seat.old.me.0 calls.old) (both seat.new.me.0 calls.new)) }
    {
        'retries: for _ in self.rt.forever() {
            let Some(retry) = next_retry(calls, *sent)? else {
                return Ok(());
            };
            *sent += 1;
            self.retry_one(seat, calls, retry)?;
        }
        unreachable!()
    }
}
