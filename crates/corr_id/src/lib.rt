//! Call ids for threads (bRPC's bthread_id.md): a table of their words and contents under one rule, on which each call
//! is a few atomic steps of one seat.
//!
//! What a call tells of a word is what that very call found (`FoundNow`). `create` makes an open id of a range that no
//! other has (`MadeAs`). `lock` gets the lock of the id's own range from an open word that it found (`GotLock`), else
//! the word found; `lock_attempt` the same by a version behind the first alone (`LacksAttempt`). `post` locks an open
//! id, queues an error at a locked one, and refuses a late, a stale and a third one. `unlock` waits for nobody: it
//! hands out the oldest error that isn't stale, or opens the id once none is queued, and throws none away but stale
//! ones (`ThrewAway`). `destroy` ends the range. `join` returns once this call found a word that shows that the range
//! has ended, or never was; of an id that the seat knows to be made it has ended. `close`, handed all seats: each
//! range was made, ended, and advanced to each attempt once at most, no two ranges of a slot have a version in common,
//! and the content of a lock is that with which its id was made (`Closing`, specs/ClosingIdLists).
#![tactic(auto)]

mod attempts;
mod bells;
mod calls;
mod closing;
mod kinds;
mod likely;
mod opening;
mod plays;
mod posts;
mod table;
mod unlocks;
mod words;

pub use calls::{IdFull, IdGone, IdLock, Locking};
pub use closing::IdNotClosed;
pub use plays::Rule;
pub use posts::Posted;
pub use table::{IdSeat, IdTable};
pub use unlocks::Unlocked;
