// A queue that ends.
ghost use Rattle.std.specs.Prelude.{◌≡◌, ◌≤◌, [], List, IfOk, IfErr, length, map, vec_len, vec_capacity};
ghost use Rattle.sock_table.specs.ClosedSocketTable.{IsRoomOf};
ghost use Rattle.exec_queue.specs.declared.task.Task as model;
ghost use Rattle.exec_queue.specs.Submitters.{IsQueuePlan};
ghost use Rattle.exec_queue.specs.EndedQueue.{AreSubmitters, NoLineTwice, TasksEnded};

use crate::making::{LINES, out_back};
use crate::order::{Counts, put_lines};
use crate::queue::{TaskQueue, TaskSubmitter};
use sock_io::Out;
use sock_rule::SockSeat;
use sock_table::{Closed, rooms};
use std::alloc::{AllocError, Global};

/// What a queue leaves: its runner, the accepted lines in the order of their exchanges, and how many of them were run.
#[derive(Drop)]
pub struct TaskEnd<O: Out> {
    pub out: O,
    pub order: Vec<u32>,
    pub ran: u32,
}

/// There was no memory. All is untouched.
#[derive(Drop)]
pub struct TasksLeft<O: Out> {
    pub queue: TaskQueue<O>,
    pub submitters: Vec<TaskSubmitter<O>>,
}

// What the ending needs of memory.
struct Room<O: Out> {
    order: Vec<u32>,
    seats: Vec<SockSeat<O>>,
    left: Closed<O>,
}

fn room_for<O: Out>(
    alloc: Global,
    queue: &TaskQueue<O>,
    submitters: usize,
) -> Result<Room<O>, AllocError>
    ensures order { IfOk result (λ r. length r.order.items ≡ 4096) }
    ensures seats { IfOk result (λ r. (r.seats.items ≡ []) × (vec_len r.seats ≡ 0) × (submitters ≤ vec_capacity r.seats)) }
    ensures left { IfOk result (λ r. IsRoomOf queue.now.table.rule.plan r.left) }
{
    let order = vec![in alloc; 0u32; usize::from(LINES)]?;
    let seats = Vec::with_capacity(alloc, submitters)?;
    let left = rooms(alloc, &queue.table.rule.plan)?;
    Ok(Room { order, seats, left })
}

// The seats of the submitters, in their order.
fn seats_of<O: Out>(submitters: Vec<TaskSubmitter<O>>, seats: &mut Vec<SockSeat<O>>)
    requires empty { (seats.old.items ≡ []) × (vec_len seats.old ≡ 0) }
    requires room { length submitters.items ≤ vec_capacity seats.old }
    ensures { seats.new.items ≡ map (λ s. s.seat) submitters.items }
{
    for submitter in submitters {
        let TaskSubmitter { seat, .. } = submitter;
        seats.push_reserved(seat);
    }
}

impl<O: Out> TaskQueue<O> {
    /// Ends the queue with all of its submitters, and tells what became of it.
    pub fn finish(
        self,
        alloc: Global,
        submitters: Vec<TaskSubmitter<O>>,
    ) -> Result<TaskEnd<O>, TasksLeft<O>>
        requires plan { IsQueuePlan self.table.rule.plan }
        requires all { (tss : List (List model.Task)) × AreSubmitters self tss submitters.items }
        requires count { length submitters.items ≡ self.table.rule.plan.seats }
        ensures ended { IfOk result (λ e. (tss : List (List model.Task)) → AreSubmitters self tss submitters.items → NoLineTwice tss → TasksEnded tss submitters.items e) }
        ensures untouched { IfErr result (λ e. (e.queue ≡ self) × (e.submitters ≡ submitters)) }
    {
        let Ok(room) = room_for(alloc, &self, submitters.len()) else {
            return Err(TasksLeft {
                queue: self,
                submitters,
            });
        };
        let Room {
            mut order,
            mut seats,
            left,
        } = room;
        seats_of(submitters, &mut seats);
        let TaskQueue { table, .. } = self;
        let Closed { places, outs, .. } = table.close_in(left, seats);
        let Counts { accepted, ran } = put_lines(&places, &mut order);
        order.truncate(accepted);
        let out = out_back(outs);
        Ok(TaskEnd {
            out,
            order,
            ran: ran as u32,
        })
    }
}
