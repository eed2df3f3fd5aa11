//! The operations of a client on a table of sockets that threads share, each with its outcome.
//!
//! `open_one`, `hold_one`, `drop_one` and `fail_one` answer an outcome with its cause: `gone` with the word found,
//! `freed` and `kept` by the exchange of `release`, `failed` where its own step failed the life (`OpenedBy`, `HeldBy`,
//! `DroppedBy`, `FailedBy`, specs/OpenOutcomes, HoldAndDropOutcomes, FailOutcomes). Each leaves the seat with
//! references alone, which are those of the client's list (`IsHolder`). `give_all` gives all back, the oldest first.
#![tactic(auto)]

mod acting;
mod failing;
mod holding;
mod opening;
mod reaching;
mod running;
mod sending;

pub use acting::Told;
pub use failing::{fail_one, fail_socket};
pub use holding::{Held, drop_one, give_back, hold_one};
pub use opening::{open_none, open_one};
pub use reaching::{Reached, find_socket};
pub use running::give_all;
pub use sending::refuse;
