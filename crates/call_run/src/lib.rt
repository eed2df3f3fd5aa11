//! A script with calls on threads: a client on each, over one table of sockets and one of ids.
//!
//! `run_beside`: main makes the setup, then each client makes all its operations on a thread of its own (`IsThread`),
//! while each link's other end is served and the link is read (`AreReaders`). Behind the clients one seat takes in
//! their seats with all that they noted (`HasAll`), and sets the socket of each `open` failed with 1014 (`EndedEach`,
//! `EndedBehind`). The table of sockets is closed with that seat and those of the readers (`RanWith`), halves and
//! other ends come back in their order (`AreLeftBy`), and the table of ids comes back with seats by which it can be
//! closed (`AreLeft`). Where memory was wanting there is no such run, and all halves come back (`AreBack`).
#![tactic(auto)]

mod beside;
mod failing;
mod hiring;
mod leaving;
mod links;
mod opened;
mod running;
mod waiting;
mod worker;

pub use beside::{NoneBeside, RanBeside, run_beside};
pub use link_crew::{Frame, Rest, meet_all};
pub use running::Ran;
pub use worker::Worker;
