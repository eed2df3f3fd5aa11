//! Calls of a run on threads whose links were served and read beside its clients: where nothing went wrong, each
//! served call that no `expire` names has the outcome that the reply to its own request gives. The definitions are in
//! `specs/`, the proofs in `proofs/`. There is no code here.
//!
//! `complete`: `Completeness` of `brpc_model`, where each link with the server that no `send` names gave the replies
//! to what it took, and no end (`GivesWell`), and each gave less than is read at most (`GaveFew`). `first_attempt`:
//! the first attempt of each call was accepted, or the call became unopened, or its link was failing, or each request
//! may have been found taken (`FirstAttempt`).
#![tactic(auto)]
