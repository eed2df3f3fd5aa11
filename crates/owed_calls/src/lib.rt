//! That in a run each call is ended by whoever owes it its end. The proofs are in `proofs/`. There is no code here.
//!
//! `run_owed_of`: over every run of a script, where a link answers that it is closed only where its writing half is
//! finished (`ClosesInRun`), no seat has a step left in the end and the life of each link is past; no id range is left
//! open (`run_all_ended`), and at each tick the at word of an operation keeps the id of its one call (`run_keeps`).
#![tactic(auto)]
