//! No call is answered by anything but a whole response that a link gave, of one of the call's versions; and no client
//! tells an answer. No end of a call is told twice. The definitions are in `specs/`, the proofs in `proofs/`. There is
//! no code here.
//!
//! `answered_beside`: each answer among the outcomes has its response (`AreAnsweredBy`, specs/TellersOfCallEnds).
//! `told_once`, `shown_once`: over all that clients and readers told and what was told behind them, the end of each id
//! in the table's slots is told once at most (`ToldOnce`, `ShownOnce`). `told_all`: of each call that a client began
//! it is told once at least. proofs/MetResponses and MetFrames: what became of each response that a reader met; where
//! a call ended with 1014, each of its range that was met came behind another end of it.
#![tactic(auto)]
