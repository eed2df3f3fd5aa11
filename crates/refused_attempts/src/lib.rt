//! Why an attempt of a call was refused. The proofs are in `proofs/`. There is no code here.
//!
//! `kinds_of_seat`: each error that an id took from a seat was posted by a reader, by an `expire`, for a refused
//! attempt of which nothing is left, or for a dropped message. Attempts are refused where each request was used or the
//! life of the socket was failed (RefusedWhys).
#![tactic(auto)]
