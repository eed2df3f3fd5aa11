//! The pure steps on the words of a socket slot: the word found, the word after the step, and that the rule of the
//! sockets still holds then. One body of these serves the machine on one thread and the shared table.
//!
//! Each states its exact numbers, and that in every state that the rule allows, where the view of the seat allows the
//! step (`MayAdd`, `MaySub`, `MayRecycle` and others of specs/KeepingSlotRule), the rule holds behind it
//! (`KeepsSlotRule`).
#![tactic(auto)]

mod steps;

pub use steps::{add_ref, birth, claim_slot, free_slot, look_word, recycle, set_odd, sub_ref};
