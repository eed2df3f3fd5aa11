//! What is drawn from a seed: numbers, the script that `gen` makes, and the seats that `sim` ticks.
//!
//! `generate` makes exactly the lines of the drawn script (`generated` of `brpc_model` DrawnSeatsAndScripts), which is
//! read again as itself. `DrawnSeats` gives the seats of `sim_seats`, one after another.
#![tactic(auto)]

mod draws;
mod generator;
mod seats;

pub use generator::generate;
pub use seats::DrawnSeats;
