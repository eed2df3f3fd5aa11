//! Sockets for threads, over the table of atomic words: each call is a few steps of one seat, and none waits.
//!
//! `add_reference` answers a reference only to the life that the id was made for, else the word found, with as many
//! references as before (`Held`, `GoneFrom`, specs/ReferenceAnswers). `release` is `Freed` exactly where its own
//! exchange recycled the slot; whoever ends a life puts the half of its link home finished (`FinishedLink`). `create`
//! gives the pass back only where it found each slot taken. `find` answers the last word of a history of what was
//! stored, behind all that the seat had met (`FindsId`). `close`, handed all seats, tells the one order of all
//! messages of each link, what the link took of them, whether it is finished, the ends of each life, and which
//! messages were dropped (`ClosedBy`, specs/ClosedSocketTable); the halves come back in order, with the ways of those
//! that were handed in (`ways_of`). `join_seats` makes one seat of several, with all that they noted (`HasAll`).
//! Refusals lose nothing.
#![tactic(auto)]

mod closing;
mod finding;
mod passes;
mod refs;
mod table;

pub use closing::{Closed, NotClosed, rooms};
pub use finding::Noted;
pub use passes::{CreateFull, LinkPass};
pub use refs::{Already, Gone, Look, Released, SockRef};
pub use table::SockTable;
