//! The tables on which the seats of a machine step, with words, ids, messages and links: how they are made, and a step
//! of one seat.
//!
//! Of a client `next_step` answers the next step of its program, and `step` makes just that step (`TickTold` of
//! `machine_model`); of a reader `next_read` and `read` do (`TickRead`); `pass` goes on over a request or an id slot
//! that is taken (`HasPassed`). Where memory runs out in a step there is as much of everything as before, and the
//! machine says so (`IsCutShort`). `parts_of` makes all of it as it stands before the first step (`AreParts`).
#![tactic(auto)]

mod homes;
mod link_calls;
mod reading;
mod setup;
mod table;
mod tables;
mod waiting;
mod words;

pub use setup::{Parts, parts_of};
pub use table::Table;
pub use tables::{READERS, Tables};
