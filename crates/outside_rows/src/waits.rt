//! Waits of one thread for what another does, which end even where it never does it.
use crossbeam_utils::Backoff;
use std::alloc::{AllocError, Global};
use std::sync::Arc;
use std::sync::atomic::{AtomicU64, Ordering};

/// How often a wait looks before it gives up.
const TURNS: u32 = 1_000_000;

/// How often something came about, and whether a wait for it was too long.
#[derive(Drop)]
pub struct Awaited {
    count: AtomicU64,
    late: AtomicU64,
}

pub type Shared = Arc<Awaited, Global>;

/// Nothing has come about yet.
pub fn new_awaited(alloc: Global) -> Result<Shared, AllocError> {
    let awaited = Awaited {
        count: AtomicU64::new(0),
        late: AtomicU64::new(0),
    };
    Ok(Arc::new(alloc, awaited)?)
}

impl Awaited {
    /// It came about once more: how often it had before.
    pub fn note(&self) -> u64 {
        self.count.fetch_add(1, Ordering::SeqCst)
    }

    /// Waits until it came about so often, and not for ever.
    pub fn wait(&self, often: u64) {
        let backoff = Backoff::new();
        'turns: for _ in 0..TURNS {
            if self.count.load(Ordering::SeqCst) >= often {
                return;
            }
            backoff.snooze();
        }
        self.late.store(1, Ordering::SeqCst);
    }

    /// Whether it came about so often at least, and no wait was too long.
    pub fn is_done(&self, often: u64) -> bool {
        self.count.load(Ordering::SeqCst) >= often && self.late.load(Ordering::SeqCst) == 0
    }
}
