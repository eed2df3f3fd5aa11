//! In a run of a script without `join` nothing comes late. The definitions are in `specs/`, the proofs in `proofs/`.
//! There is no code here.
//!
//! `clients_rest`: each client is at rest where the ending begins, since nobody waits for a lock where nothing moves.
//! `nothing_behind`: wherever that is so, no link becomes a socket's while the run is ending, no operation but those
//! on calls has its outcome then, and no attempt of a call is begun or ends. `nothing_late`: so it is where no `join`
//! stands in the script.
#![tactic(auto)]
