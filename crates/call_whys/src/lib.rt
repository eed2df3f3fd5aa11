//! Why calls of a run on threads have their outcomes: what is told of them, in the words in which the causes of all
//! outcomes are said. The proofs are in `proofs/`. There is no code here.
//!
//! `call_answered`, `call_peer`: each call that was answered has that from a whole response of one of its own
//! versions, which a link gave, uncompressed and with the code and the parts that are told (`WhyCall`). `versions`: no
//! two calls of a run whose ends are told have a version in common.
#![tactic(auto)]
