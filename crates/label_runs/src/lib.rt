//! That programs put the message of each attempt of a call into a request once: the definitions in `specs/`, the
//! proofs in `proofs/`. There is no code here.
//!
//! The programs of clients, readers and the ending keep to their attempts, and so does one round of each loop
//! (ProgramsKeepAttempts); other parts of a program keep whatever is known of the seat (OperationsKeepKnown).
#![tactic(auto)]
