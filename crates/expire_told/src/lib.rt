//! Why each `expire` and each `join` of a run with calls on threads has its outcome. The definitions are in `specs/`,
//! the proofs in `proofs/`. There is no code here.
//!
//! `expire_why` (`WhyExpired`): `expired` only where that very call ended with 1008, `not_begun` only where the
//! client's own earlier call was answered `unopened`, `queued`, `late` and `crowded` only of a call that began.
//! `once`: no two `expire`s ended one call. `joins_why` (`WhyJoin`): `joined` only of a call that began. Not proved
//! here: which codes were queued in a crowded id.
#![tactic(auto)]
