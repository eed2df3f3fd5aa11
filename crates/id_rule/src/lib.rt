//! The rule of the table of call ids, in `specs/`, and that each kind of step keeps it, in `proofs/`.
//!
//! `Lawful` (specs/LawfulIdTable) is the law of one slot of `corr_core` over all slots, the words of operations and
//! all seats; specs/IdPlays says what each step tells of the number found and of the seat behind it.
#![tactic(auto)]
