//! Which attempts of a call a link accepted, each under an id that the call had. The proofs are in `proofs/`. There is
//! no code here.
//!
//! `attempted_of_run`: each accepted attempt was made of a call whose outcome shows its id.
#![tactic(auto)]
