// Those that wait for the end of an id, asleep, and what wakes them.
use std::sync::Wait;
use std::sync::atomic::{AtomicU64, Ordering};

/// How many seats wait for the end of an id of some slots, and how often they were woken. A seat sleeps only where it is counted
/// before it looks, and none was woken since: so whoever ends an id and finds nobody counted has ended it before that look.
#[derive(Drop)]
pub struct Bell {
    waiting: AtomicU64,
    rings: AtomicU64,
}

impl Bell {
    pub fn new() -> Bell {
        Bell {
            waiting: AtomicU64::new(0),
            rings: AtomicU64::new(0),
        }
    }

    /// A seat is counted, before it looks.
    pub fn come(&self) {
        self.waiting.fetch_add(1, Ordering::SeqCst);
    }

    /// It is counted no more.
    pub fn go(&self) {
        self.waiting.fetch_sub(1, Ordering::SeqCst);
    }

    /// How often it rang, before a look.
    #[inline(always)]
    pub fn heard(&self) -> u64 {
        self.rings.load(Ordering::SeqCst)
    }

    /// Sleeps until it rings, unless it rang since.
    pub fn sleep<R: Wait>(&self, rt: &R, heard: u64) {
        self.rings.park(rt, (heard & 0xffff_ffff) as u32);
    }

    /// Wakes who sleeps.
    #[inline(always)]
    pub fn ring(&self) {
        if self.waiting.load(Ordering::SeqCst) != 0 {
            self.wake();
        }
    }

    #[inline(never)]
    fn wake(&self) {
        self.rings.fetch_add(1, Ordering::SeqCst);
        self.rings.wake_all();
    }
}
