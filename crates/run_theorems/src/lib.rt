//! That the report of a run of a script fits the script, whatever its schedule, that all is over at its end, and that
//! what its links answered fixes it: proofs alone.
//!
//! `run_fits`: the report of the run of a script that was read fits it. `run_is_over`: every life and every id range
//! has ended in the end, and each link is at home (`IsAllOver`, specs/RunIsOver). `one_text` and `one_text_told`: with
//! the same answers of the links there is one run of a script by a schedule, and one text. `gave_heard`: what a run
//! has of a link's bytes is what its takes were answered. specs/OfferedAtTakes and OfferedRuns say what a take of a
//! link that tells finds.
#![tactic(auto)]
