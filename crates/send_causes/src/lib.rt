//! Why errors are posted to the ids of calls, and that each call that ended had a cause. The proofs are in `proofs/`.
//! There is no code here.
//!
//! `told_of_run` (AllTold): all that is told of a run with calls (`ExplainedCalls` of `seat_programs`), of any script
//! that is made and read. `caused_of_run`: each error that a call's id took for an attempt has its `PostCause`, but
//! for that of the end of a reading, of which `ended_of_run` says that the reading of a link of the call ended.
//! `end_lost`: the link for which a reader posted was failing, or accepted the attempt, or no link did and each
//! request was found taken.
#![tactic(auto)]
