// A client with its operations, as a thread runs it.
ghost use Rattle.std.specs.Prelude.{◌≡◌, ◌<◌, ℕ, All, length, slice_index_or};
ghost use Rattle.call_run.specs.Working.{IsReady, HasWorked};

use crate::waiting::wait_all;
use call_client::{Caller, Tables};
use seat_programs::Task;
use sock_io::{Gate, Out};
use std::collections::VecDeque;
use std::sync::Wait;
use std::thread::Threads;
use std::{mem, thread};

/// A client with its number and its operations, and whether memory was wanting.
#[derive(Drop)]
pub struct Worker<O: Out> {
    pub caller: Caller<O>,
    pub number: u16,
    pub tasks: VecDeque<Task>,
    pub short: bool,
}

impl<O: Out> Worker<O> {
    /// Waits for the names, and makes the operations.
    pub fn work<R: Wait, G: Gate>(&mut self, rt: &R, tables: &Tables<O>, names: &[u16], gate: &G)
        requires { IsReady tables.now.socks.rule.table.shared.table_id tables.now.socks.rule.plan tables.now.ids.table.shared.table_id tables.now.ids.plan names.now self.old }
        ensures { HasWorked O.state tables.now.socks.rule.table.shared.table_id tables.now.socks.rule.plan tables.now.ids.table.shared.table_id tables.now.ids.plan names.now self.old self.new }
    {
        let alloc = self.caller.calls.alloc;
        let tasks = mem::replace(&mut self.tasks, VecDeque::new(alloc));
        wait_all(rt, &tables.socks, &mut self.caller.seat, names);
        let ran = self.caller.run(rt, tables, self.number, tasks, gate);
        self.short = ran.is_err();
    }
}

/// Each on a thread of its own.
pub fn run_workers<O: Out + Send, G: Gate + Sync, R: Threads + Wait + Sync>(
    rt: &R,
    tables: &Tables<O>,
    names: &[u16],
    gate: &G,
    workers: &mut [Worker<O>],
)
    requires { All (IsReady tables.now.socks.rule.table.shared.table_id tables.now.socks.rule.plan tables.now.ids.table.shared.table_id tables.now.ids.plan names.now) workers.old }
    ensures each { (i : ℕ) (d : _) → i < length workers.old → HasWorked O.state tables.now.socks.rule.table.shared.table_id tables.now.socks.rule.plan tables.now.ids.table.shared.table_id tables.now.ids.plan names.now (slice_index_or workers.old i d) (slice_index_or workers.new i d) }
    ensures length { length workers.new ≡ length workers.old }
{
    let count = workers.len().max(1);
    thread::for_each_mut(
        rt,
        workers,
        count,
        &|_, worker: &mut Worker<O>|
            requires { IsReady tables.now.socks.rule.table.shared.table_id tables.now.socks.rule.plan tables.now.ids.table.shared.table_id tables.now.ids.plan names.now worker.now }
            ensures { HasWorked O.state tables.entry.now.socks.rule.table.shared.table_id tables.entry.now.socks.rule.plan tables.entry.now.ids.table.shared.table_id tables.entry.now.ids.plan names.entry.now worker.entry.now worker.exit.now }
        { worker.work(rt, tables, names, gate) },
    );
}
