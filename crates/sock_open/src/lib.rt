//! A new table of sockets with its seats and passes.
//!
//! `new_table`: the seats are new, as many as the plan says, each pass is that of one link, and the table is told
//! which way the bytes of each link go (specs/NewTableContents). It takes all memory but the table's own before it
//! touches the links.
#![tactic(auto)]

mod opening;

pub use opening::{Made, NoTable, new_table};
