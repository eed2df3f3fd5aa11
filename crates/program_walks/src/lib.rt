//! What holds all along a whole program of a client or a reader: what it opens, records and closes. The proofs are in
//! `proofs/`. There is no code here.
//!
//! Over every run each life that was made stands in the word of an operation, or is what its maker stores there next
//! (Recorded), with its link (LinksRecorded); so the ending fails each life (LivesFailedByEnding), and a whole run is
//! sound from its first tick to its last (WholeScriptSound).
#![tactic(auto)]
