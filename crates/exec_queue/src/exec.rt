// A queue over a runner.
ghost use Rattle.std.specs.Prelude.{◌≡◌, ◌≤◌, List, [], IfOk, IfErr, length};
ghost use Rattle.exec_queue.specs.declared.task.Task as model;
ghost use Rattle.exec_queue.specs.Submitters.{IsQueuePlan};
ghost use Rattle.exec_queue.specs.NewQueue.{AreNewFrom};
ghost use Rattle.exec_queue.specs.EndedQueue.{AreSubmitters, NoLineTwice, Ran, AnswersFit, stops_of};

use crate::finishing::{TaskEnd, TasksLeft};
use crate::half::{ExecOut, ROOM};
use crate::making::{NoTasks, TaskParts};
use crate::queue::{TaskQueue, TaskSubmitter};
use crate::runner::Runner;
use std::alloc::Global;

/// A queue whose tasks this runner runs.
pub type ExecQueue<R> = TaskQueue<ExecOut<R>>;

pub type Submitter<R> = TaskSubmitter<ExecOut<R>>;

pub type ExecParts<R> = TaskParts<ExecOut<R>>;

pub type NotEnded<R> = TasksLeft<ExecOut<R>>;

/// There was no memory.
#[derive(Drop)]
pub struct NoQueue<R: Runner> {
    pub runner: R,
}

/// What a queue leaves: its runner, the accepted lines in the order of their exchanges, and how many of them were run.
#[derive(Drop)]
pub struct ExecEnd<R: Runner> {
    pub runner: R,
    pub order: Vec<u32>,
    pub ran: u32,
}

/// A queue that runs its tasks by this runner, with so many submitters, from 1 to 30. Where memory is wanting the runner comes
/// back, which ran nothing.
pub fn exec_queue<R: Runner>(
    alloc: Global,
    runner: R,
    submitters: u16,
) -> Result<ExecParts<R>, NoQueue<R>>
    requires some { 1 ≤ submitters }
    requires few { submitters ≤ 30 }
    requires ran { R.ran runner ≡ [] }
    ensures plan { IfOk result (λ m. IsQueuePlan m.queue.table.rule.plan × (m.queue.table.rule.plan.seats ≡ submitters)) }
    ensures new { IfOk result (λ m. AreNewFrom m.queue 1 m.submitters.items) }
    ensures count { IfOk result (λ m. length m.submitters.items ≡ submitters) }
    ensures back { IfErr result (λ e. R.ran e.runner ≡ []) }
{
    let Ok(room) = Vec::with_capacity(alloc, ROOM) else {
        return Err(NoQueue { runner });
    };
    match TaskQueue::new(alloc, ExecOut::new(runner, room), submitters) {
        Ok(parts) => Ok(parts),
        Err(NoTasks { out }) => Err(NoQueue {
            runner: out.runner(),
        }),
    }
}

/// Ends the queue with all of its submitters, and tells what became of it.
pub fn finish<R: Runner>(
    queue: ExecQueue<R>,
    alloc: Global,
    submitters: Vec<Submitter<R>>,
) -> Result<ExecEnd<R>, NotEnded<R>>
    requires plan { IsQueuePlan queue.table.rule.plan }
    requires all { (tss : List (List model.Task)) × AreSubmitters queue tss submitters.items }
    requires count { length submitters.items ≡ queue.table.rule.plan.seats }
    ensures ran { IfOk result (λ e. (tss : List (List model.Task)) → AreSubmitters queue tss submitters.items → NoLineTwice tss → Ran tss (stops_of submitters.items) e.order.items e.ran (R.ran e.runner)) }
    ensures answers { IfOk result (λ e. (tss : List (List model.Task)) → AreSubmitters queue tss submitters.items → NoLineTwice tss → AnswersFit submitters.items e.order.items) }
    ensures untouched { IfErr result (λ e. (e.queue ≡ queue) × (e.submitters ≡ submitters)) }
{
    match queue.finish(alloc, submitters) {
        Ok(TaskEnd { out, order, ran }) => Ok(ExecEnd {
            runner: out.runner(),
            order,
            ran,
        }),
        Err(left) => Err(left),
    }
}
