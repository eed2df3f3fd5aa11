//! That what a report claims follows from the causes of its outcomes: definitions in `specs/`, the proofs in
//! `proofs/`. There is no code here.
//!
//! `script_fits`: from what is told of the run of a script that was read (`ExplainedCalls`) its report fits the script
//! (`FitsWhole` of `brpc_model`), where nothing went wrong with what is owed besides (`IsCalm`). What a run with calls
//! leaves can be printed (PrintableCallRun).
#![tactic(auto)]
