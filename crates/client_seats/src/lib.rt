//! The seat of a client: its tasks, the retries that it keeps, where it stands in its program, and what it has in
//! hand. It makes no step itself.
//!
//! What it has still to do is the program of the definitions (`seat_program`, specs/ClientSeatState); it is prepared
//! for its step in hand (`IsPrepared`), goes on behind it by what was found, and says each outcome where the program
//! says it.
#![tactic(auto)]

pub mod hand;
pub mod seat;

pub use hand::{Framed, InHand};
pub use seat::{Held, Kept, Seat};
