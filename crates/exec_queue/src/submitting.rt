// Tasks are submitted, and run by whoever has the right.
ghost use Rattle.std.specs.Prelude.{◌≡◌, ◌++◌, ◌∷◌, ◌<◌, ◌^◌, ◌≤◌, [], List, OnOk, OnErr, IfErr, IfSome, false};
ghost use Rattle.message_parts.specs.Parcels.{parcel_of};
ghost use Rattle.sock_rule.specs.SocketSeatSplits.{IsSeat};
ghost use Rattle.sock_rule.specs.Shows.{heading_of};
ghost use Rattle.write_chain.specs.WritingRightInHand.{MayBegin, MayGoOn, Begins, GaveUp};
ghost use Rattle.write_chain.specs.ReadyToSend.{HoldsOne, sock_of};
ghost use Rattle.exec_queue.specs.declared.task.Task as model;
ghost use Rattle.exec_queue.specs.Tasks.{IsTask, task_bytes};
ghost use Rattle.exec_queue.specs.StoppedQueue.{Grew, RefusedFor, submitted_by, told_by, full_by};
ghost use Rattle.exec_queue.specs.Submitters.{HasLine, heading_of_task, IsFreshLine, IsQueuePlan, IsSubmitter};

use crate::queue::{TaskQueue, TaskSubmitter};
use crate::task::Task;
use message_parts::Parcel;
use sock_io::Out;
use sock_message::{BlockPool, Message};
use sock_rule::{Letter, SockSeat};
use sock_table::{Gone, SockRef, SockTable};
use sock_words::{Label, Vref};
use std::alloc::Global;
use std::sync::Wait;
use write_chain::{Kept, Once, Refused, Started, WriteRight, keep_write, start, write_once};

/// The task was accepted.
#[derive(Clone, Copy, Debug, PartialEq, Eq)]
pub enum Submitted {
    /// Another submitter runs it, or it is dropped.
    Queued,
    /// This call held the right to run what came.
    Ran,
}

/// Nothing was submitted.
#[derive(Drop)]
pub enum NotSubmitted {
    /// The queue had been stopped.
    Stopped { found: Vref },
    /// Each request was found taken at a step of this call.
    Full,
    NoMemory,
}

/// The message of a task.
fn letter(alloc: Global, pool: &mut BlockPool, number: u16, task: &Task) -> Option<Letter>
    requires { HasLine task.now }
    ensures heading { IfSome result (λ m. heading_of m ≡ heading_of_task number task.now) }
    ensures bytes { IfSome result (λ m. (parcel_of m.bytes).bytes ≡ task_bytes task.now) }
    ensures place { IfSome result (λ m. m.label.place < 32768) }
    ensures amount { IfSome result (λ _. task.now.amount < 2 ^ 64) }
{
    let Ok(bytes) = Message::new(alloc, pool, &task.bytes()) else {
        return None;
    };
    let label = Label {
        client: number,
        operation: task.line as u16,
        attempt: 0,
        place: 8 * (task.line - 1),
    };
    Some(Letter {
        bytes: Parcel::Message(bytes),
        label,
        owner: 0,
    })
}

/// Runs what came until the head is empty. What is dropped is dropped.
fn run_on<O: Out, W: Wait>(
    rt: &W,
    table: &SockTable<O>,
    seat: &mut SockSeat<O>,
    mut right: WriteRight<O>,
) -> SockRef
    requires seat { IsSeat table.now.rule.table.shared.table_id table.now.rule.plan seat.old }
    requires may { MayGoOn table.now.rule.plan table.now.rule.ways.list right seat.old.me }
    requires one { HoldsOne table.now.rule.plan right.sock.id.0 seat.old.me.0 }
    ensures seat { IsSeat table.now.rule.table.shared.table_id table.now.rule.plan seat.new }
    ensures up { GaveUp table.now.rule.plan result.id.0 seat.new.me }
    ensures one { HoldsOne table.now.rule.plan result.id.0 seat.new.me.0 }
    ensures same { result ≡ right.sock }
    ensures lists { seat.new.me.0.lists ≡ seat.old.me.0.lists }
    ensures notes { Grew right.sock.id.0 0 seat.old.me.0 seat.new.me.0 }
{
    'goes: for _ in rt.forever() {
        match keep_write(table, rt, seat, right) {
            Kept::Done(sock) => return sock,
            Kept::Dropped {
                right: next,
                msg: _,
                code: _,
            } => right = next,
        }
    }
    unreachable!()
}

/// Whoever has the right runs.
fn run_right<O: Out, W: Wait>(
    rt: &W,
    table: &SockTable<O>,
    seat: &mut SockSeat<O>,
    right: WriteRight<O>,
) -> SockRef
    requires seat { IsSeat table.now.rule.table.shared.table_id table.now.rule.plan seat.old }
    requires may { MayBegin table.now.rule.plan right seat.old.me }
    requires one { HoldsOne table.now.rule.plan right.sock.id.0 seat.old.me.0 }
    ensures seat { IsSeat table.now.rule.table.shared.table_id table.now.rule.plan seat.new }
    ensures up { GaveUp table.now.rule.plan result.id.0 seat.new.me }
    ensures one { HoldsOne table.now.rule.plan result.id.0 seat.new.me.0 }
    ensures same { result ≡ right.sock }
    ensures lists { seat.new.me.0.lists ≡ seat.old.me.0.lists }
    ensures notes { Grew right.sock.id.0 0 seat.old.me.0 seat.new.me.0 }
{
    match write_once(table, seat, right) {
        Once::Done(sock) => sock,
        Once::Keep(right) => run_on(rt, table, seat, right),
    }
}

/// A task that was accepted is run, where this seat has to.
fn follow<O: Out, W: Wait>(
    rt: &W,
    table: &SockTable<O>,
    seat: &mut SockSeat<O>,
    started: Started<O>,
) -> (SockRef, Submitted)
    requires seat { IsSeat table.now.rule.table.shared.table_id table.now.rule.plan seat.old }
    requires begins { Begins table.now.rule.plan (sock_of started) started seat.old.me }
    requires one { HoldsOne table.now.rule.plan (sock_of started).id.0 seat.old.me.0 }
    ensures seat { IsSeat table.now.rule.table.shared.table_id table.now.rule.plan seat.new }
    ensures up { GaveUp table.now.rule.plan result.0.id.0 seat.new.me }
    ensures one { HoldsOne table.now.rule.plan result.0.id.0 seat.new.me.0 }
    ensures same { result.0 ≡ sock_of started }
    ensures lists { seat.new.me.0.lists ≡ seat.old.me.0.lists }
    ensures notes { Grew (sock_of started).id.0 0 seat.old.me.0 seat.new.me.0 }
    ensures answer { result.1 ≡ submitted_by started }
{
    match started {
        Started::Queued(sock) => (sock, Submitted::Queued),
        Started::Right(right) => (run_right(rt, table, seat, right), Submitted::Ran),
    }
}

impl<O: Out> TaskQueue<O> {
    /// Submits a task behind all that were accepted before. It waits for nobody, but where it has the right it runs what comes.
    /// bRPC's `ExecutionQueue::execute` (execution_queue.md).
    pub fn submit<W: Wait>(
        &self,
        rt: &W,
        alloc: Global,
        pool: &mut BlockPool,
        by: &mut TaskSubmitter<O>,
        task: &Task,
    ) -> Result<Submitted, NotSubmitted>
        ghost ts: { List model.Task }
        requires plan { IsQueuePlan self.now.table.rule.plan }
        requires by { IsSubmitter self.now ts by.old }
        requires task { IsTask task.now }
        requires line { HasLine task.now }
        requires fresh { IsFreshLine task.now.line ts }
        ensures ok { OnOk result (IsSubmitter self.now (ts ++ task.now ∷ []) by.new) }
        ensures err { OnErr result (IsSubmitter self.now ts by.new) }
        ensures number { by.new.number ≡ by.old.number }
        ensures stops { by.new.stops ≡ by.old.stops }
        ensures live { OnOk result ((by.old.told ≡ false) × (by.old.stops ≡ 0)) }
        ensures same { OnOk result ((by.new.told ≡ by.old.told) × (by.new.full ≡ by.old.full)) }
        ensures refused { IfErr result (λ e. RefusedFor self.now.table.rule.plan self.now.id.0 e by.old.seat.me.0 by.new.seat.me.0) }
        ensures told { IfErr result (λ e. (by.new.told ≡ told_by e by.old.told) × (by.new.full ≡ full_by e by.old.full)) }
    {
        let Some(msg) = letter(alloc, pool, by.number, task) else {
            return Err(NotSubmitted::NoMemory);
        };
        let sock = match self.table.add_reference(&mut by.seat, self.id) {
            Ok(sock) => sock,
            Err(Gone { found }) => {
                by.told = true;
                return Err(NotSubmitted::Stopped { found });
            }
        };
        match start(&self.table, &mut by.seat, sock, msg) {
            Ok(started) => {
                let (sock, submitted) = follow(rt, &self.table, &mut by.seat, started);
                self.table.release(&mut by.seat, sock);
                Ok(submitted)
            }
            Err(Refused::Failed(sock, _, found)) => {
                self.table.release(&mut by.seat, sock);
                by.told = true;
                Err(NotSubmitted::Stopped { found })
            }
            Err(Refused::Full(sock, _)) => {
                self.table.release(&mut by.seat, sock);
                by.full = true;
                Err(NotSubmitted::Full)
            }
        }
    }
}
