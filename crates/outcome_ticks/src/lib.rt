//! That each tick goes on with the story of a run. The proofs are in `proofs/`. There is no code here.
//!
//! A tick of any seat keeps the story that explains all outcomes so far (TicksKeepStory): the program of a client
//! explains each outcome that it says (ClientOutcomes), and whoever writes a link each round of its loops
//! (SendingExplained).
#![tactic(auto)]
