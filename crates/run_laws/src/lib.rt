//! Whole runs: each tick is one event of the plain model of lives, links and messages, or none, and behind a failure
//! at most one put goes out. The definitions are in specs/, the theorems in proofs/.
//!
//! `KeepsLaws` (specs/RunLaws) of a run of a script: its ticks, those of setup and ending too, are events where they
//! may come (`Becomes`, specs/World; specs/Seen), before and behind each a life was born, failed and ended once at
//! most and in that order, and whoever is held has not ended. `PutsInTime` (specs/LatePuts), of all ticks up to the
//! ending: each put comes directly behind a look of its own seat that found the socket live, and behind the tick that
//! makes its version odd, or in which its link answers that it failed, at most one goes out, none where the link
//! itself had answered so. A put counts whatever it was answered.
#![tactic(auto)]
