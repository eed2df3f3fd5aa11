//! The pure steps on the words of the write chains: the word found, the word after the step, and that the rule of the
//! sockets still holds then. One body of these serves the machine on one thread and the shared table.
//!
//! The chain of bRPC's wait-free write (io.md): a writer exchanges its request into the head of the socket. Who finds
//! the head idle writes, first its own message and then all that came behind it, until it puts the head back to idle.
//! Who finds it busy stores what it found into its own next word and goes. So the requests are linked from the newest
//! to the oldest, and the one who writes turns the links round, before it writes in the order of the exchanges.
//!
//! Conditions are in specs/RequestStepConditions; an exchange that found an idle head gives the right to write
//! (`TakesRight`).
#![tactic(auto)]

mod steps;

pub use steps::{
    claim_request, connect, empty_head, free_request, read_next, reverse_next, swap_head, unconnect,
};
