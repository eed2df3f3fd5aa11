//! The table of call ids of a machine on one thread, in plain words, with the calls at home in its slots.
//!
//! `CallSlots::step` finds and leaves exactly what the definitions say (`found_in`, `calls_after` of `seat_programs`),
//! and its words fit again behind it (`fits_step`).
#![tactic(auto)]

mod call_slots;
mod opening;
mod words;

pub use call_slots::CallSlots;
pub use opening::push_zeros;
