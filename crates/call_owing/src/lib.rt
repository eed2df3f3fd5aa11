//! Who owes a call its end: definitions in `specs/`, and in `proofs/` what each program owes at each of its steps.
//! There is no code here.
//!
//! Each open id is owed its end by somebody (`SoundOwing`): a seat that tries its attempt, a retry that waits, or the
//! reader of the link in its at word. `OwesOn` is a program in which a seat does what it owes. `ClosesInRun`, the one
//! premise: a link answers to a take that it is closed only where its writing half is finished.
#![tactic(auto)]
