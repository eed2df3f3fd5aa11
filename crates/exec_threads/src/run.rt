// A script is done by submitters on threads, and its queue ends.
ghost use Rattle.std.specs.Prelude.{◌≡◌, ◌<◌, ◌≤◌, ◌%◌, ◌/◌, ℕ, Some, IsTrue, All, slice_get, slice_index_or, length, map, IfOk, OnOk};
ghost use Rattle.exec_queue.specs.Submitters.{IsQueuePlan};
ghost use Rattle.exec_queue.specs.NewQueue.{AreNewFrom};
ghost use Rattle.exec_threads.specs.TasksOfLines.{IsScript};
ghost use Rattle.exec_threads.specs.LinesDone.{IsWaiting, HasWorked};
ghost use Rattle.exec_threads.specs.ScriptDone.{AreWaiting, HaveWorked, AllEnough, AreDealt, IsWorked, IsDone};

use crate::bank::Bank;
use crate::worker::Worker;
use exec_queue::{
    ExecEnd, ExecOut, ExecParts, ExecQueue, TaskQueue, TaskSubmitter, exec_queue, finish,
};
use exec_script::{Accounts, Answer, ExecScript, Op};
use sock_io::Out;
use std::alloc::{AllocError, Global};
use std::sync::Wait;
use std::thread;
use std::thread::Threads;

/// How a queue ended whose submitters did the lines of a script.
#[derive(Drop)]
pub struct Done {
    pub accounts: Accounts,
    /// What each line was answered.
    pub answers: Vec<Answer>,
    /// The lines that were accepted, in their order, and how many of these ran.
    pub order: Vec<u32>,
    pub ran: u32,
}

/// Memory ran out.
#[derive(Drop)]
pub struct NoMemory;

impl From<AllocError> for NoMemory {
    ghost use Rattle.std.specs.Prelude.{⊤};

    fn from(_e: AllocError) -> Self {
        NoMemory
    }
}

/// The submitters, before their first lines, each with room for the answers.
fn workers_of<O: Out>(
    alloc: Global,
    queue: &TaskQueue<O>,
    submitters: Vec<TaskSubmitter<O>>,
    ops: &[Op],
) -> Result<Vec<Worker<O>>, AllocError>
    requires new { AreNewFrom queue.now 1 submitters.items }
    ensures waiting { IfOk result (λ ws. AreWaiting queue.now ops.now (length submitters.items) ws.items) }
    ensures count { IfOk result (λ ws. length ws.items ≡ length submitters.items) }
{
    let _ = queue;
    let mut workers = Vec::with_capacity(alloc, submitters.len())?;
    for by in submitters {
        let answers = Vec::with_capacity(alloc, ops.len())?;
        workers.push_reserved(Worker {
            by,
            answers,
            short: false,
        });
    }
    Ok(workers)
}

/// Each does its lines, as far as threads can be started on a thread of its own, and else here.
fn work_each<O: Out + Send, R: Threads + Wait + Sync>(
    rt: &R,
    alloc: Global,
    queue: &TaskQueue<O>,
    ops: &[Op],
    step: u16,
    workers: &mut [Worker<O>],
)
    requires plan { IsQueuePlan queue.now.table.rule.plan }
    requires script { IsScript ops.now }
    requires waiting { All (λ w. IsWaiting queue.now ops.now step w.by.number w) workers.old }
    ensures each { (i : ℕ) (d : _) → i < length workers.old → HasWorked queue.now ops.now step (slice_index_or workers.old i d).by.number (slice_index_or workers.new i d) }
    ensures count { length workers.new ≡ length workers.old }
{
    let count = workers.len().max(1);
    thread::for_each_mut(
        rt,
        workers,
        count,
        &|_, worker: &mut Worker<O>|
            requires { IsQueuePlan queue.now.table.rule.plan × IsScript ops.now × IsWaiting queue.now ops.now step worker.now.by.number worker.now }
            ensures { HasWorked queue.entry.now ops.entry.now step worker.entry.now.by.number worker.exit.now }
        { worker.work(rt, alloc, queue, ops, step) },
    );
}

/// All of them do, in the order of their numbers.
fn work_all<O: Out + Send, R: Threads + Wait + Sync>(
    rt: &R,
    alloc: Global,
    queue: &TaskQueue<O>,
    ops: &[Op],
    step: u16,
    workers: &mut [Worker<O>],
)
    requires plan { IsQueuePlan queue.now.table.rule.plan }
    requires script { IsScript ops.now }
    requires waiting { AreWaiting queue.now ops.now step workers.old }
    ensures worked { HaveWorked queue.now ops.now step workers.new }
    ensures count { length workers.new ≡ length workers.old }
{
    work_each(rt, alloc, queue, ops, step, workers);
}

/// Whether none ran out of memory.
fn have_enough<O: Out>(workers: &[Worker<O>]) -> bool
    ensures { IsTrue result → AllEnough workers.now }
{
    for worker in workers {
        if worker.short {
            return false;
        }
    }
    true
}

/// What each line was answered.
fn answers_of<O: Out>(
    alloc: Global,
    workers: &[Worker<O>],
    lines: usize,
) -> Result<Vec<Answer>, AllocError>
    requires some { 1 ≤ length workers.now }
    requires all { (place : ℕ) (w : _) → place < lines → slice_get workers.now (place % length workers.now) ≡ Some w → place / length workers.now < length w.answers.items }
    ensures { IfOk result (λ answers. AreDealt workers.now lines answers.items) }
{
    let mut answers = Vec::with_capacity(alloc, lines)?;
    for place in 0..lines {
        let worker = &workers[place % workers.len()];
        answers.push_reserved(worker.answers[place / workers.len()]);
    }
    Ok(answers)
}

/// All lines are done, and each has an answer, where no submitter ran out of memory.
fn answers_by<O: Out + Send, R: Threads + Wait + Sync>(
    rt: &R,
    alloc: Global,
    queue: &TaskQueue<O>,
    ops: &[Op],
    step: u16,
    workers: &mut [Worker<O>],
) -> Result<Vec<Answer>, NoMemory>
    requires plan { IsQueuePlan queue.now.table.rule.plan }
    requires script { IsScript ops.now }
    requires some { 1 ≤ step }
    requires waiting { AreWaiting queue.now ops.now step workers.old }
    requires count { length workers.old ≡ step }
    ensures worked { HaveWorked queue.now ops.now step workers.new }
    ensures enough { OnOk result (AllEnough workers.new) }
    ensures dealt { IfOk result (λ answers. AreDealt workers.new (length ops.now) answers.items) }
    ensures count { length workers.new ≡ length workers.old }
{
    work_all(rt, alloc, queue, ops, step, workers);
    if !have_enough(workers) {
        return Err(NoMemory);
    }
    Ok(answers_of(alloc, workers, ops.len())?)
}

/// The submitters back, in their order.
fn submitters_of<O: Out>(
    alloc: Global,
    workers: Vec<Worker<O>>,
) -> Result<Vec<TaskSubmitter<O>>, AllocError>
    ensures { IfOk result (λ ss. ss.items ≡ map (λ w. w.by) workers.items) }
{
    let mut submitters = Vec::with_capacity(alloc, workers.len())?;
    for worker in workers {
        let Worker { by, .. } = worker;
        submitters.push_reserved(by);
    }
    Ok(submitters)
}

/// The submitters behind their last lines, and what each line was answered.
#[derive(Drop)]
pub struct Worked<O: Out> {
    pub submitters: Vec<TaskSubmitter<O>>,
    pub answers: Vec<Answer>,
}

/// All lines are done.
fn do_lines<O: Out + Send, R: Threads + Wait + Sync>(
    rt: &R,
    alloc: Global,
    queue: &TaskQueue<O>,
    submitters: Vec<TaskSubmitter<O>>,
    ops: &[Op],
    step: u16,
) -> Result<Worked<O>, NoMemory>
    requires plan { IsQueuePlan queue.now.table.rule.plan }
    requires script { IsScript ops.now }
    requires new { AreNewFrom queue.now 1 submitters.items }
    requires count { length submitters.items ≡ step }
    requires some { 1 ≤ step }
    ensures { IfOk result (IsWorked queue.now ops.now step) }
{
    let mut workers = workers_of(alloc, queue, submitters, ops)?;
    let answers = answers_by(rt, alloc, queue, ops, step, &mut workers)?;
    let submitters = submitters_of(alloc, workers)?;
    Ok(Worked {
        submitters,
        answers,
    })
}

/// Ends the queue whose submitters did the lines of this script.
fn end_queue(
    alloc: Global,
    queue: ExecQueue<Bank>,
    worked: Worked<ExecOut<Bank>>,
    ops: &[Op],
    step: u16,
) -> Result<Done, NoMemory>
    requires plan { IsQueuePlan queue.table.rule.plan }
    requires seats { queue.table.rule.plan.seats ≡ step }
    requires some { 1 ≤ step }
    requires worked { IsWorked queue ops.now step worked }
    ensures { IfOk result (IsDone step ops.now) }
{
    let _ = ops;
    let _ = step;
    let Worked {
        submitters,
        answers,
    } = worked;
    match finish(queue, alloc, submitters) {
        Ok(ExecEnd { runner, order, ran }) => Ok(Done {
            accounts: runner.accounts(),
            answers,
            order,
            ran,
        }),
        Err(_) => Err(NoMemory),
    }
}

/// Runs a script: so many submitters, from 1 to 30, hand in its tasks and stop the queue, each its own lines in their order and on a
/// thread of its own where one can be started. Line `i` is that of submitter `(i - 1) mod submitters + 1`.
pub fn run_script<R: Threads + Wait + Sync>(
    rt: &R,
    alloc: Global,
    script: &ExecScript,
    submitters: u16,
) -> Result<Done, NoMemory>
    requires some { 1 ≤ submitters }
    requires few { submitters ≤ 30 }
    requires script { IsScript script.now }
    ensures { IfOk result (IsDone submitters script.now) }
{
    let ops = script.ops();
    let bank = Bank::new(alloc)?;
    match exec_queue(alloc, bank, submitters) {
        Ok(
            ExecParts {
                queue,
                submitters: parts,
            },
        ) => {
            let worked = do_lines(rt, alloc, &queue, parts, ops, submitters)?;
            end_queue(alloc, queue, worked, ops, submitters)
        }
        Err(_) => Err(NoMemory),
    }
}
