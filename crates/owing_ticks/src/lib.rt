//! That each tick of a run keeps who owes each call its end. The proofs are in `proofs/`. There is no code here.
//!
//! TicksKeepOwing and OwingRuns, of one tick and of a run; where each seat is at rest or waits and the run is ending,
//! each range has ended (AllSettled).
#![tactic(auto)]
