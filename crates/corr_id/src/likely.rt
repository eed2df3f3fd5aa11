// A slot that seems free.
ghost use Rattle.std.specs.Prelude.{◌<◌, ◌≤◌, IfSome};

use crate::table::IdTable;
use corr_core::tag_index;
use std::sync::atomic::Ordering;

impl<C> IdTable<C> {
    // A slot that seemed free at a look, behind the one that was claimed last. It may be taken by now.
    #[inline(always)]
    pub(crate) fn likely_slot(&self) -> Option<u16>
        ensures { IfSome result (λ at. at < self.now.plan.slots) }
    {
        let slots = self.plan.slots;
        let next = self.next.load(Ordering::SeqCst);
        let from = if next < u64::from(slots) {
            next as u16
        } else {
            0
        };
        for at in from..slots {
            if self.seems_free(at) {
                return Some(at);
            }
        }
        for at in 0..from {
            if self.seems_free(at) {
                return Some(at);
            }
        }
        None
    }

    // Whether a slot is free at a look.
    #[inline(always)]
    fn seems_free(&self, at: u16) -> bool
        requires slot { at < self.now.table.shared.key.slots }
    {
        let index = tag_index(at);
        self.table.shared.peek(index) == 0
    }

    // Where one looks next, behind the slot that was claimed.
    #[inline(always)]
    pub(crate) fn look_behind(&self, at: u16) {
        self.next.store(u64::from(at) + 1, Ordering::SeqCst);
    }
}
