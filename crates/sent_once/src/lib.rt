//! That no message is accepted twice, that each is that of a `send` or of an attempt of a call, and what is dropped.
//! The proofs are in `proofs/`. There is no code here.
//!
//! `run_orders`: each `send` and each attempt of a call is accepted once at most, and the place words and the links at
//! home show the orders (`AreOrders`). `run_sent`: each accepted message is that of a `send` of which nothing is said,
//! to a name of the link's socket, or the frame of an attempt of a call of the script.
#![tactic(auto)]
