//! A client with calls, on the tables of sockets and ids that threads share: its operations, each with its outcome,
//! and before each of them the retries that wait.
//!
//! `Caller::run`: each operation in its order, before each and behind the last all retries that wait, the oldest
//! first, each outcome by what the tables did (`RunBy`, specs/ClientRun). Where it says that memory was wanting, it
//! was, or each id slot was found taken; then each call whose retry waited was ended, unless it had ended, each `open`
//! that was left got no socket, and nothing else was done. In each case its seats have in the end no reference, no
//! lock, and no retry that waits.
#![tactic(auto)]

mod acting;
mod caller;
mod running;

pub use call_attempts::Tables;
pub use call_errors::CallSeat;
pub use caller::Caller;
pub use rpc_client::Told;
