//! Of runs on threads: that each end that a client told goes back to an error that was posted. The proofs are in
//! `proofs/`. There is no code here.
//!
//! `verdict` (Verdicts): each end that a client told is by an `expire` of that call, by its current attempt that came
//! to nothing, which was the last that it may have, by its message that was dropped, or by an error of whoever read
//! the links. `advance_why` (Advances): each attempt behind the first goes back to the attempt before it, which came
//! to nothing or whose message was dropped.
#![tactic(auto)]
