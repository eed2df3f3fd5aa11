//! What keeps the law of the write chains: a lemma for each kind of step on heads, next words, request words, homes
//! and places, in `proofs/`. There is no code here.
//!
//! Among them: the log grows by the entry whose ticket goes into the head, of each right, claim and entry there is at
//! most one, and once nobody has the right to write a link, its messages stand in order.
#![tactic(auto)]
