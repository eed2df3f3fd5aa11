//! That each retry of a call was decided by whoever makes it. The proofs are in `proofs/`. There is no code here.
//!
//! `own_decisions`: whoever decides on an error of an attempt posted it.
#![tactic(auto)]
