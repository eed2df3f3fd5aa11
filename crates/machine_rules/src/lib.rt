//! That a step of a seat is a tick of the core, behind which the rules of the sockets and of the ids hold: proofs
//! alone.
//!
//! Besides: whoever writes a link knows how it answered last, and each step leaves as many ticks as the machine says.
#![tactic(auto)]
