//! The cause of each outcome, over every order of ticks, by the story of the whole run. The proofs are in `proofs/`.
//! There is no code here.
//!
//! `run_told` (SocketCausesOfScripts): at the end of a run, with calls or without, each task but those on calls has an
//! outcome or its message was accepted, each outcome has its cause by what became of the others, and each link took
//! what it accepted in order. `run_plain` (PlainOutcomeCauses) says it in words of all tasks (`ToldPlain` of
//! `outcome_stories`), with the links that failed before the run was ending and the operations that were late.
#![tactic(auto)]
