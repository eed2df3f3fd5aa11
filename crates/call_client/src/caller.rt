// A client with calls, from its seats and passes to its outcomes.
ghost use Rattle.std.specs.Prelude.{◌≡◌, ◌≤◌, [], false, All, IfOk, length};
ghost use Rattle.std.specs.Result.{is_err};
ghost use Rattle.atomic_table.specs.Seated.{TableId};
ghost use Rattle.sock_words.specs.declared.plain.Plan.{Plan};
ghost use Rattle.sock_table.specs.LinkPasses.{IsPass};
ghost use Rattle.sock_table.specs.ClosedSocketTable.{IsDoneSeat};
ghost use Rattle.call_attempts.specs.sock_open.specs.NewTableContents.{IsNewSeat};
ghost use Rattle.corr_id.specs.IdTableSeat.{Sits, Stays, IsFree};
ghost use Rattle.call_errors.specs.ClientBooks.{books_of, HasNoLock};
ghost use Rattle.call_client.specs.ClientBetweenOperations.{MayGo};
ghost use Rattle.call_client.specs.ClientRun.{MayMakeAll, RunBy};

use crate::running::{end_retries, leave_all, make_all};
use call_attempts::{CallTables, Tables};
use call_errors::CallSeat;
use corr_id::IdSeat;
use rpc_client::{Held, Told, give_all};
use seat_programs::Task;
use sock_io::{Gate, Out};
use sock_message::{Call, NoMemory};
use sock_rule::SockSeat;
use sock_table::LinkPass;
use std::alloc::Global;
use std::collections::VecDeque;
use std::sync::Wait;

/// A client with calls: its seat of the sockets, the passes of its `open`s, the next one last, the references that it keeps, what
/// it tells of its own operations, its part for calls, and how many messages of its seat were accepted at most.
#[derive(Drop)]
pub struct Caller<O: Out> {
    pub seat: SockSeat<O>,
    pub passes: Vec<LinkPass<O>>,
    pub held: Vec<Held>,
    pub outcomes: Vec<Told>,
    pub calls: CallSeat,
    pub sent: u32,
}

impl<O: Out> Caller<O> {
    /// A client with these seats. The passes are those of its `open`s, the next one last. It takes no memory.
    pub fn new(
        alloc: Global,
        seat: SockSeat<O>,
        ids: IdSeat<Call>,
        passes: Vec<LinkPass<O>>,
    ) -> Caller<O>
        ensures seats { (result.seat ≡ seat) × (result.calls.seat ≡ ids) }
        ensures passes { result.passes ≡ passes }
        ensures empty { (result.held.items ≡ []) × (result.outcomes.items ≡ []) × (result.sent ≡ 0) }
        ensures books { books_of result.calls ≡ record { retries = []; told = []; starved = false } }
        ensures go { (z y : TableId) (p : Plan) → IsNewSeat z p seat → Sits y ids → IsFree ids.me.0 → All (IsPass z p) passes.items → MayGo z p y 0 result }
    {
        Caller {
            seat,
            passes,
            held: Vec::new(alloc),
            outcomes: Vec::new(alloc),
            calls: CallSeat::new(alloc, ids),
            sent: 0,
        }
    }

    /// Makes the operations in their order, behind the gate, and before each and behind the last the retries that wait; and gives all
    /// references back. Where memory is wanting, no further operation is made, each `open` that is left gets no socket, and
    /// each call whose retry waits ends by that. In each case the seats have nothing in the end, and no retry waits.
    pub fn run<R: Wait, G: Gate>(
        &mut self,
        rt: &R,
        tables: &Tables<O>,
        of: u16,
        mut tasks: VecDeque<Task>,
        gate: &G,
    ) -> Result<(), NoMemory>
        requires few { length tasks.items ≤ 65535 }
        requires go { MayGo tables.now.socks.rule.table.shared.table_id tables.now.socks.rule.plan tables.now.ids.table.shared.table_id 0 self.old }
        requires may { MayMakeAll tables.now.socks.rule.plan tables.now.ids.plan tasks.items (length self.old.passes.items) }
        requires fed { self.old.calls.starved ≡ false }
        ensures done { IsDoneSeat tables.now.socks.rule.table.shared.table_id tables.now.socks.rule.plan self.new.seat }
        ensures share { self.new.seat.me.0.share ≡ self.old.seat.me.0.share }
        ensures ids { HasNoLock tables.now.ids.table.shared.table_id self.new.calls }
        ensures same { Stays self.old.calls.seat self.new.calls.seat }
        ensures id_share { self.new.calls.seat.me.0.share ≡ self.old.calls.seat.me.0.share }
        ensures empty { (self.new.held.items ≡ []) × (self.new.passes.items ≡ []) × (self.new.calls.retries.items ≡ []) }
        ensures fed { IfOk result (λ _. self.new.calls.starved ≡ false) }
        ensures ran { RunBy O.state tables.now.socks.rule.plan tables.now.ids.plan (is_err result) tasks.items self.old self.new }
    {
        let at = CallTables { rt, tables };
        let made = make_all(self, &at, of, &mut tasks, gate);
        end_retries(&at, &mut self.calls, made.is_err());
        leave_all(self, tables, tasks);
        give_all(&tables.socks, &mut self.seat, &mut self.held);
        made
    }
}
