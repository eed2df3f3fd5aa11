//! The pauses of a loop that looks until the other end of a link, or another thread, did something, where nobody wakes it.
//!
//! `Pauses` turns a few times, and then sleeps ever longer, up to a bound. It has no promise but that it ends: what a loop may
//! conclude is what it finds when it looks again.
#![tactic(auto)]

mod pausing;

pub use pausing::Pauses;
