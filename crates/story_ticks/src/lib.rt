//! That each tick goes on with the story of a run with calls. The proofs are in `proofs/`. There is no code here.
//!
//! A tick of any seat keeps the laws of the id slots, of the ids and of the tasks, with all that is said in it
//! (TicksKeepCallStory), from a beginning in which nothing is claimed (StoryOpening) to the end (StoryOver).
#![tactic(auto)]
