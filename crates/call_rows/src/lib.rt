//! Rows of scripts computed by the definitions of runs: what they give is told beside each. There is no code here; the
//! proofs are in `proofs/`.
//!
//! CallScriptRows: scripts with calls, each with its outcomes and place words. DrawnSchedules: forty drawn scripts and
//! schedules, with the kind of each tick's step and what is left at the end, as a plain program gave them. So a
//! definition that gives anything else there is refused.
#![tactic(auto)]
