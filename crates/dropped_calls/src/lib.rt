//! Why a message that was accepted was dropped, before the ending of a run and in it. The proofs are in `proofs/`.
//! There is no code here.
//!
//! `dropped_of_run` (LateDropped): a link that dropped a message is failing, whatever clients do once the run is
//! ending: where the ending begins no seat has a right, a claim or a message (`ended_idle`), and behind it only links
//! that became a socket's then get places (`ending_along`).
#![tactic(auto)]
