//! The write chain of sockets for frames of calls: whoever writes a link tells the call of each message that it drops.
//!
//! `see_through`: whatever `start` accepted is written where this seat has the right, until the head is empty; behind
//! each message that it drops, the code of the life is posted to the call of the message, for the attempt of its
//! label, before anything else is written (`Drained`, `ToldDrop`); then the reference is given back. `send` is a
//! message to the socket of a name, with that: unopened, gone, full, or accepted, of which nothing is told
//! (`SentCalling`, specs/MessageFateBesideCalls).
#![tactic(auto)]

mod draining;
mod sending;
mod shared_tables;

pub use shared_tables::SharedTables;
