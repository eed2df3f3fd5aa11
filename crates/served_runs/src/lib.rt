//! In runs with calls, links with the built-in server give the replies to what they took. The definitions are in
//! `specs/`, the proofs in `proofs/`. There is no code here.
//!
//! Of a whole run in which each take is offered what belongs to what its link took (`OffersInRun`,
//! specs/OfferedReplies): `gives_replies`, `gives_front`, `gives_no_fault`, `gives_own_replies`: such links gave the
//! replies, and a call's response over a link that no `send` names is the reply to its own request
//! (specs/ServedLinks).
#![tactic(auto)]
