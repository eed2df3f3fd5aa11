//! Errors of calls on threads: handled by the client that locks a call's id with them or is handed them, which ends
//! the call or keeps a retry. And what a client asks of a call that another one may have begun.
//!
//! `handle`, with the lock of an id in hand: the call ends with the error exactly where `on_error` of `call_table`
//! says so, else the attempt advances and the retry is kept; an error that the table hands out then is handled
//! likewise (`Decided`, specs/Handling). `post_error` is the answer of the table's `post`, and `handle` where it
//! locked the id (`PostedBy`). `ask_one` asks a call to expire, or joins it (`ExpiredBy`, `JoinedBy`). `starve` and
//! `give_up` end each call whose retry waits where memory is wanting (`StarvedBy`). An outcome is left out only where
//! no memory was there to tell it, and then the books say so (`Tells`).
#![tactic(auto)]

mod asking;
mod ending;
mod handling;
mod posting;
mod retries;
mod seats;
mod starving;

pub use asking::{Ask, ask_one};
pub use ending::end_call;
pub use handling::handle;
pub use posting::post_error;
pub use retries::Retry;
pub use rpc_client::{Reached, find_socket, refuse};
pub use seats::CallSeat;
pub use starving::{give_up, starve};
