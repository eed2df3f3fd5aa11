//! What a run of a script on threads begins with, and the report of what it left: the operations of its clients and
//! room for its links, what all that tell of operations told, and the seats of the table of ids, of which one takes in
//! the others.
//!
//! `prepare` makes the operations of each client, the numbers of `open`s and calls, and room for the halves
//! (`IsReady`). `join_all`: one seat of the ids has what all noted (`TookAll`). `report`: the text is that of the
//! report of these outcomes and place words and of what the links took (`IsReported`). That each operation has an
//! outcome or a place follows from what each client told of its own and from the ends of calls that are told
//! (`each_outcome`).
#![tactic(auto)]

mod asking;
mod halves;
mod joining;
mod reporting;
mod saying;

pub use asking::{Ready, prepare};
pub use halves::{Halves, join, part};
pub use joining::join_all;
pub use reporting::{or_no_memory, outcomes_of, report};
pub use script_lang::NoMemory;
