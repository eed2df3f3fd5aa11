//! That what the code makes of its tables is a step of the definitions: proofs alone.
//!
//! For each kind of step, of clients, of readers and at a link that is asked: what it leaves of the tables as they lie
//! in memory is what `machine_model` says of that step, also where memory runs out in it.
#![tactic(auto)]
