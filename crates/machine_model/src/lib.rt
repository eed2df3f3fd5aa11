//! What a machine is: its tables, links and seats, how it steps and ticks; and what the proofs of all the crates above
//! it want to know of that.
//!
//! Definitions: `IsMachine` and `IsSoundMachine` (specs/Machines), what a tick answers and for what a seat waits
//! (`TickIs`, `WaitsFor`, specs/MachineRuns), how many ticks are left (`LastsAtMost`, specs/Driving), what a step of a
//! client and of a reader makes of the tables (`TickTold`, `TickRead`). A writing half may not tell what it took, so
//! `core_with` is the core where its links took this, and each clause holds for all that agrees with what is told
//! (`Agrees`).
#![tactic(auto)]

mod home_message;
mod tick;

pub use home_message::HomeMessage;
pub use tick::{On, Tick};
