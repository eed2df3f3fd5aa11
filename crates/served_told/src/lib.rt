//! In runs on threads each response that a link with the built-in server gave to a call is the reply to the call's own
//! request, by what is told of a run. The definitions are in `specs/`, the proofs in `proofs/`. There is no code here.
//!
//! Of one link that no `send` names and that gave the replies to what it took: it gave no frame fault (`no_fault`), a
//! response of a call's versions that it gave is the reply to the call's own request (`own_request`), and without
//! `end` it gave the reply to each request that was placed on it (`reply_there`). So a run whose links gave the
//! replies gives each call its own (`own_replies`: `GivesOwnReplies`).
#![tactic(auto)]
