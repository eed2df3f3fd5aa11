//! In runs with calls in which nothing went wrong, each call on links with the built-in server has its reply. The
//! definitions are in `specs/`, the proofs in `proofs/`. There is no code here.
//!
//! `served_call_done`: a call over links with the server that no `expire` names has the outcome that the reply to its
//! own first request gives, or its name had no socket yet. `offered_fits`: so the report of such a run is complete
//! (`FitsWhole`), where few bytes were given and nothing came late.
#![tactic(auto)]
