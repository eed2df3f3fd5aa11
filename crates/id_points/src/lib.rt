//! How the loops on call ids go on behind a step, by the word that it found (bRPC's bthread_id.md): an error is
//! posted, a lock is given back or got, an end is waited for, an error is decided on.
//!
//! Each is a round of the definitions (`round` of `seat_programs`, its lock by `is_sought`). Which errors end a call,
//! and whose version a response has, it asks `corr_core`.
#![tactic(auto)]

pub mod call_id;
pub mod deciding;
pub mod error;
pub mod locking;
pub mod posting;
pub mod unlocking;

pub use call_id::{AttemptNumber, CallId};
pub use deciding::{ends_call, is_reused};
pub use error::IdError;
pub use locking::{LockTurn, Sought, is_awaited, lock_behind, lock_by};
pub use posting::{PostTurn, judge, post_behind};
pub use unlocking::{UnlockTurn, unlock_behind};
