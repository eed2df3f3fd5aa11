//! With calls: why each ended, by the story of the whole run, and which response ended it. The proofs are in
//! `proofs/`. There is no code here.
//!
//! `run_has_story`: over every run of a script, whatever its links give, what was claimed, made, said and read keeps
//! its laws. `run_told_in_part`: each `call`, `expire` and `join` has one outcome with its cause, of a call that
//! failed as far as shows without its attempts (`ToldOnCallsInPart`). `run_failed_by`, `run_advanced_by`: a call that
//! failed with a code that is posted, and each attempt that was followed by another, took that error for just that
//! attempt in the run. `run_few_attempts`: no call comes to more attempts than its range has.
#![tactic(auto)]
