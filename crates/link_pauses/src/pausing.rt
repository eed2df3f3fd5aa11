// Waiting for what another end does, which wakes nobody.
use crossbeam_utils::Backoff;
use std::cell::Cell;
use std::sync::Wait;
use std::sync::atomic::AtomicU64;
use std::time::Duration;

// So often the processor is yielded, with pauses of a `Backoff`, before one sleeps.
const YIELDS: u32 = 128;

// Of how many sleeps each is twice as long as the one before: from 32 microseconds to a millisecond.
const LONGER: u32 = 5;

/// The pauses of a loop that looks until another end did something: spins at first, then yields, and then sleeps, so that a
/// long wait takes hardly any processor time.
#[derive(Drop)]
pub struct Pauses {
    backoff: Backoff,
    turns: Cell<u32>,
    // What is slept on: nobody wakes who does.
    still: AtomicU64,
}

impl Pauses {
    pub fn new() -> Pauses {
        Pauses {
            backoff: Backoff::new(),
            turns: Cell::new(0),
            still: AtomicU64::new(0),
        }
    }

    /// Something was done: the next pause is a short one.
    pub fn reset(&self) {
        self.backoff.reset();
        self.turns.set(0);
    }

    /// Nothing was done: a pause.
    pub fn pause<R: Wait>(&self, rt: &R) {
        let turns = self.turns.get();
        if turns < YIELDS + LONGER {
            self.turns.set(turns + 1);
        }
        if turns < YIELDS {
            self.backoff.snooze();
            return;
        }
        let times = (turns - YIELDS).min(LONGER);
        self.still
            .park_timeout(rt, 0, Duration::from_micros(32 << times));
    }
}
