//! What keeps the law of the slots: a lemma for each kind of step on the words of a slot and on those that name lives,
//! in `proofs/`. There is no code here.
//!
//! Each step on a tag, a reference word, a link word or a code word keeps the law of its slot (`SlotLaw` of
//! `sock_model`) and leaves those of all others; so do seats that are split off and joined, and the table at its
//! start.
#![tactic(auto)]
