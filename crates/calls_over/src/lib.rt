//! Where nothing went wrong, each call that was begun has its reply as the ending begins: no id is open there. The
//! definitions are in `specs/`, the proofs in `proofs/`. There is no code here.
//!
//! `calls_over`: in a run in which each take is offered what belongs to its link, over links that all have the server,
//! where nothing went wrong (`CallsAreOver` of `served_fits`). An open id would be that of a call whose request its
//! link took (`open_call`), whose reply the link gave then, and its reader took for it, as none came before the call
//! began (`never_soon`, `no_open_call`).
#![tactic(auto)]
