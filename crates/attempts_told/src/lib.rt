//! How many attempts the calls of a run on threads made, and whose messages the links accepted: each is a send's, or
//! that of an attempt of a call with the call's own id. The definitions are in `specs/`, the proofs in `proofs/`.
//! There is no code here.
//!
//! `attempts_told` (`AreAttemptsTold`, specs/CountedAttempts): a call's last attempt is the greatest to which its id
//! advanced, with one of its versions to spare, and each message that a link accepted is that of a `send` of which
//! nothing is said or of an attempt up to that one. Readers, and whoever ends what is left, advance none
//! (`readers_advance`, `rest_unmoved`).
#![tactic(auto)]
