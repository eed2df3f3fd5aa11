//! How often each message was accepted, and what a link gave its reader: definitions in `specs/`, the proofs in
//! `proofs/`. There is no code here.
//!
//! The definitions of the crates on causes of calls: why a seat posted an error (`PostKind`, specs/RefusedOrDropped;
//! `PostCause`, specs/PostCauses), a program that posts for its own attempts and drops alone (`Charges`), at words
//! that were loaded and stored and how a reading ended (specs/EndedCalls).
#![tactic(auto)]
