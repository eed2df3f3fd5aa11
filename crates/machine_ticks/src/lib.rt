//! That a tick of a seat leaves a machine one, with what its links answered, and that ticks of a seat at rest change
//! nothing: proofs alone.
//!
//! A link answers its reader that it is closed only where its writing half is finished, a link that was offered what
//! belongs to it tells so in each take, and runs of a machine join one behind another.
#![tactic(auto)]
