/// What is told of a task that ran.
#[derive(Clone, Copy)]
pub enum Told {
    Fine,
    /// The account that it is taken off has only this, so nothing changed.
    Low { have: u64 },
    /// The account that would grow has this and would pass 2^64 - 1, so nothing changed.
    High { have: u64 },
}

/// What the submitter of a line was answered.
#[derive(Clone, Copy)]
pub enum Answer {
    /// Its task was taken; it ran, or was dropped behind a stop.
    Accepted,
    /// Its task wasn't taken, since the queue was stopped.
    Refused,
    /// It stopped the queue.
    Stopped,
    /// It was to stop the queue, which was stopped already.
    Already,
}
