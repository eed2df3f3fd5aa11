//! Attempts of calls on threads: a call with its first attempt, and the retries that a client keeps, each over a seat
//! of the table of sockets and one of the table of ids.
//!
//! `attempt` addresses the socket, stores its link with the attempt in the word of the call's operation and starts the
//! frame; a gone or failed socket and a full table of requests are posted to the call, each with its code
//! (`AttemptedBy`). `call_one` makes the id, notes it and makes the first attempt (`CalledBy`, `WantedBy`);
//! `retry_one` locks the id while its frame is made and leaves an ended call alone (`RetriedBy`), `retry_all` makes
//! each retry that waits, the oldest first (`RetriedAll`).
#![tactic(auto)]

mod attempting;
mod call_tables;
mod calling;
mod letters;
mod retrying;
mod tables;

pub use call_tables::CallTables;
pub use call_writes::SharedTables;
pub use calling::Called;
pub use tables::Tables;
