//! Two threads that send through one socket, on a table of their own: an example of what `chain_orders` gives, to be read first by
//! who builds on these crates.
//!
//! `send_both` concludes of its link that it took the messages whole, in one order, each thread's in its own (`TookBoth`): of the
//! first texts of each thread, as many as it answers. Not said: that all were accepted, since a link may fail.
#![tactic(auto)]

mod pair;
mod sending;

pub use pair::{Told, send_both};
