//! That whoever read a link to its end ended the calls that waited for it, each once. The proofs are in `proofs/`.
//! There is no code here.
//!
//! `run_reader_post`, `run_reader_fault` and `run_by_end`: whose link an error of a reader names, and how its reading
//! ended.
#![tactic(auto)]
