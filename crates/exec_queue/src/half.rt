// The writing half of the queue's one link, whose put runs tasks.
ghost use Rattle.exec_queue.specs.declared.half.TheConstants.{ROOM};
ghost use Rattle.std.specs.Prelude.{◌≡◌, ◌*◌, ◌/◌, ◌+◌, ◌<◌, ◌≤◌, [], false, length, vec_capacity, take};
ghost use Rattle.exec_queue.specs.Tasks.{tasks_upto, tasks_of};
ghost use Rattle.exec_queue.specs.TasksTaken.{exec_out};

use crate::runner::Runner;
use crate::task::{TASK_BYTES, Task};
use sock_io::{Out, Put, Ready};
use std::marker::Model;

/// How many bytes it takes at most: those of 4,096 tasks, and of one more, which never comes.
pub const ROOM: usize = 65_552;

/// It takes each piece, as far as its room has place, and runs each task once its sixteen bytes have come. Sixteen bytes that are no
/// task are passed over. It fails only where it was finished or its room is full.
#[derive(Drop)]
pub struct ExecOut<R: Runner> {
    runner: R,
    taken: Vec<u8>,
    // So many times sixteen bytes were looked at.
    read: usize,
    faults: u64,
    finished: bool,
}

impl<R: Runner> Model for ExecOut<R> {
    ghost use Rattle.exec_queue.specs.declared.half.TheConstants.{ROOM};
    ghost use Rattle.std.specs.Prelude.{◌≡◌, ◌*◌, ◌+◌, ◌<◌, ◌≤◌, vec_capacity, vec_len};
    ghost use Rattle.exec_queue.specs.Tasks.{tasks_upto};
    ghost use Rattle.exec_queue.specs.TasksTaken.{ExecState};

    ghost Value = { ExecState };

    ghost view = { λ o. record { ran = R.ran o.runner; taken = o.taken.items; faults = o.faults; finished = o.finished } };

    ghost invariant = { λ o. (ROOM ≤ vec_capacity o.taken) × (vec_len o.taken ≤ ROOM) × (16 * o.read ≤ vec_len o.taken) × (vec_len o.taken < 16 * o.read + 16) × (R.ran o.runner ≡ tasks_upto o.read o.taken.items) × (0 < o.faults → vec_len o.taken ≡ ROOM) };
}

/// The sixteen bytes that stand there.
fn piece_at(bytes: &[u8], at: usize) -> [u8; 16]
    requires { at + 16 ≤ length bytes.now }
    ensures { result ≡ take 16 (Rattle.std.specs.Prelude.drop at bytes.now) }
{
    let mut piece = [0u8; 16];
    piece.copy_from_slice(&bytes[at..at + TASK_BYTES]);
    piece
}

/// Runs what came whole behind the first `read` tasks.
fn run_whole<R: Runner>(runner: &mut R, taken: &[u8], mut read: usize) -> usize
    requires inside { 16 * read ≤ length taken.now }
    requires few { length taken.now ≤ ROOM }
    requires ran { R.ran runner.old ≡ tasks_upto read taken.now }
    ensures inside { 16 * result ≤ length taken.now }
    ensures all { length taken.now < 16 * result + 16 }
    ensures ran { R.ran runner.new ≡ tasks_upto result taken.now }
{
    while taken.len() - read * TASK_BYTES >= TASK_BYTES {
        let piece = piece_at(taken, read * TASK_BYTES);
        if let Some(task) = Task::read(&piece) {
            runner.run(&task);
        }
        read += 1;
    }
    read
}

impl<R: Runner> ExecOut<R> {
    /// A half that took nothing yet, with this room.
    pub fn new(runner: R, room: Vec<u8>) -> Self
        requires ran { R.ran runner ≡ [] }
        requires room { (room.items ≡ []) × (ROOM ≤ vec_capacity room) }
        ensures { result ≡ record { ran = []; taken = []; faults = 0; finished = false } }
    {
        ExecOut {
            runner,
            taken: room,
            read: 0,
            faults: 0,
            finished: false,
        }
    }

    /// The runner, which ran the tasks that were taken.
    pub fn runner(self) -> R
        ensures ran { R.ran result ≡ self.ran }
        ensures tasks { R.ran result ≡ tasks_of self.taken }
        ensures full { 0 < self.faults → length self.taken ≡ ROOM }
    {
        let ExecOut { runner, .. } = self;
        runner
    }
}

impl<R: Runner> Out for ExecOut<R> {
    ghost state = { exec_out };

    fn put(&mut self, piece: &[u8]) -> Put {
        if self.finished {
            return Put::Failed;
        }
        let free = ROOM - self.taken.len();
        if free == 0 {
            self.faults = self.faults.saturating_add(1);
            return Put::Failed;
        }
        let count = piece.len().min(free);
        match self.taken.extend_from_slice(&piece[..count]) {
            Ok(()) => {}
            Err(_) => unreachable!(),
        }
        self.read = run_whole(&mut self.runner, &self.taken, self.read);
        Put::Took(count)
    }

    fn ready(&mut self) -> Ready {
        if self.finished {
            Ready::Failed
        } else {
            Ready::Now
        }
    }

    fn finish(&mut self) {
        self.finished = true;
    }

    fn taken(&self) -> &[u8] {
        self.taken.as_slice()
    }
}
