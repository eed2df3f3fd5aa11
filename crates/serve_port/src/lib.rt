//! Serves connections that are accepted at a port: each on a thread of its own, with the built-in server behind it.
//!
//! `serve_all` meets `ServesConnections` (specs/ServingConnections): of N connections those that could be accepted are
//! served, and all are given back in the order in which they were accepted, whatever becomes of the others. Of each
//! (`Serves`): what was put is a beginning of the replies to what came, at most 16,777,216 bytes; where it ended at
//! the reading half's end, at that limit, at a frame fault or at a failed take it is exactly those replies. A failed
//! put or take is answered only where the connection's own count rose, a failed accept only where the linker's did.
//! That a thread runs isn't claimed.
#![tactic(auto)]

mod accepting;
mod answering;
mod connection;
mod guest;
mod hall;
mod port;
mod putting;
mod service;
mod talking;
mod tally;

pub use connection::Connection;
pub use port::serve_all;
pub use service::{ServeFault, Service, ServiceEnd};
pub use talking::serve_one;
