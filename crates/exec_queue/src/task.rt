ghost use Rattle.std.specs.Prelude.{◌≡◌, ◌<◌, ◌^◌, length};
ghost use Rattle.exec_queue.specs.Tasks.{IsTask, task_bytes, task_of};

/// A task on accounts: kind 1 adds the amount to a, 2 takes it off a, 3 moves it from a to b. It stands on a line, counted from 1.
#[derive(Clone, Copy, Debug, PartialEq, Eq)]
pub struct Task {
    pub kind: u8,
    pub a: u8,
    pub b: u8,
    pub line: u32,
    pub amount: u64,
}

/// How many bytes a task has.
pub const TASK_BYTES: usize = 16;

impl Task {
    /// The sixteen bytes of the task: its kind, a, b, 0, its line and its amount, the high bytes of each first.
    pub fn bytes(&self) -> [u8; 16]
        ensures bytes { result ≡ task_bytes self.now }
        ensures amount { self.now.amount < 2 ^ 64 }
    {
        let line = self.line.to_be_bytes();
        let amount = self.amount.to_be_bytes();
        [
            self.kind, self.a, self.b, 0, line[0], line[1], line[2], line[3], amount[0], amount[1],
            amount[2], amount[3], amount[4], amount[5], amount[6], amount[7],
        ]
    }

    /// The task that has these bytes, where they are those of one.
    pub fn read(b: &[u8; 16]) -> Option<Task>
        ensures { result ≡ task_of b.now }
    {
        if b[0] == 0 || b[0] > 3 || b[1] > 15 || b[2] > 15 || b[3] != 0 {
            return None;
        }
        Some(Task {
            kind: b[0],
            a: b[1],
            b: b[2],
            line: u32::from_be_bytes([b[4], b[5], b[6], b[7]]),
            amount: u64::from_be_bytes([b[8], b[9], b[10], b[11], b[12], b[13], b[14], b[15]]),
        })
    }
}
