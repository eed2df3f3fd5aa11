// A submitter that does its lines.
ghost use Rattle.std.specs.Prelude.{◌≡◌, ◌+◌, ◌<◌, false, length};
ghost use Rattle.exec_queue.specs.Submitters.{IsQueuePlan, IsSubmitter, IsFreshLine, HasLine};
ghost use Rattle.exec_queue.specs.Tasks.{IsTask};
ghost use Rattle.exec_script.specs.Scripts.{IsOp};
ghost use Rattle.exec_threads.specs.TasksOfLines.{IsScript};
ghost use Rattle.exec_threads.specs.LinesDone.{IsAtWork, tasks_by, HandedIn, Halted, LineDone, own_place, IsWaiting, HasWorked};

use crate::lines::task_of;
use exec_queue::{NotSubmitted, Task, TaskQueue, TaskSubmitter};
use exec_script::{Answer, Op};
use sock_io::Out;
use sock_message::BlockPool;
use std::alloc::Global;
use std::sync::Wait;

/// A submitter, with what it was answered of its lines so far, and whether memory ran out for the next one.
#[derive(Drop)]
pub struct Worker<O: Out> {
    pub by: TaskSubmitter<O>,
    pub answers: Vec<Answer>,
    pub short: bool,
}

/// Submits a task. `None` where memory ran out; there is a request for each line, so none is wanting.
fn hand_in<O: Out, W: Wait>(
    rt: &W,
    alloc: Global,
    queue: &TaskQueue<O>,
    pool: &mut BlockPool,
    by: &mut TaskSubmitter<O>,
    task: &Task,
) -> Option<Answer>
    requires plan { IsQueuePlan queue.now.table.rule.plan }
    requires by { IsSubmitter queue.now (tasks_by by.old) by.old }
    requires task { IsTask task.now }
    requires line { HasLine task.now }
    requires fresh { IsFreshLine task.now.line (tasks_by by.old) }
    ensures { HandedIn queue.now task.now result by.old by.new }
{
    match queue.submit(rt, alloc, pool, by, task) {
        Ok(_) => Some(Answer::Accepted),
        Err(NotSubmitted::Stopped { .. }) => Some(Answer::Refused),
        Err(_) => None,
    }
}

/// Stops the queue.
fn halt<O: Out>(queue: &TaskQueue<O>, by: &mut TaskSubmitter<O>) -> Answer
    requires plan { IsQueuePlan queue.now.table.rule.plan }
    requires by { IsSubmitter queue.now (tasks_by by.old) by.old }
    ensures { Halted queue.now result by.old by.new }
{
    match queue.stop(by) {
        Ok(()) => Answer::Stopped,
        Err(_) => Answer::Already,
    }
}

/// Does the line at this place, and tells what it was answered.
fn answer_to<O: Out, W: Wait>(
    rt: &W,
    alloc: Global,
    queue: &TaskQueue<O>,
    pool: &mut BlockPool,
    by: &mut TaskSubmitter<O>,
    place: usize,
    op: Op,
) -> Option<Answer>
    requires plan { IsQueuePlan queue.now.table.rule.plan }
    requires by { IsSubmitter queue.now (tasks_by by.old) by.old }
    requires place { place < 4096 }
    requires op { IsOp op }
    requires fresh { IsFreshLine (place + 1) (tasks_by by.old) }
    ensures { LineDone queue.now place op result by.old by.new }
{
    match op {
        Op::Task(change) => {
            let task = task_of(place as u32 + 1, change);
            hand_in(rt, alloc, queue, pool, by, &task)
        }
        Op::Stop => Some(halt(queue, by)),
    }
}

impl<O: Out> Worker<O> {
    /// Does the line at this place, which is the next of its own.
    fn do_line<W: Wait>(
        &mut self,
        rt: &W,
        alloc: Global,
        queue: &TaskQueue<O>,
        pool: &mut BlockPool,
        ops: &[Op],
        step: u16,
        place: usize,
    )
        requires plan { IsQueuePlan queue.now.table.rule.plan }
        requires script { IsScript ops.now }
        requires at { IsAtWork queue.now ops.now step self.old }
        requires place { place ≡ own_place step self.old.by.number (length self.old.answers.items) }
        requires inside { place < length ops.now }
        ensures at { IsAtWork queue.now ops.now step self.new }
        ensures number { self.new.by.number ≡ self.old.by.number }
        ensures more { self.new.short ≡ false → length self.new.answers.items ≡ length self.old.answers.items + 1 }
    {
        let _ = step;
        let answer = answer_to(rt, alloc, queue, pool, &mut self.by, place, ops[place]);
        match answer {
            Some(answer) => self.answers.push_reserved(answer),
            None => self.short = true,
        }
    }

    /// Does its lines, every `step`-th, one after another, until there is none or memory runs out.
    pub fn work<W: Wait>(
        &mut self,
        rt: &W,
        alloc: Global,
        queue: &TaskQueue<O>,
        ops: &[Op],
        step: u16,
    )
        requires plan { IsQueuePlan queue.now.table.rule.plan }
        requires script { IsScript ops.now }
        requires waiting { IsWaiting queue.now ops.now step self.old.by.number self.old }
        ensures { HasWorked queue.now ops.now step self.old.by.number self.new }
    {
        let mut pool = BlockPool::new(alloc);
        let mut place = usize::from(self.by.number) - 1;
        while place < ops.len() {
            self.do_line(rt, alloc, queue, &mut pool, ops, step, place);
            if self.short {
                return;
            }
            place += usize::from(step);
        }
    }
}
