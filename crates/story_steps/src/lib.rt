//! That each step on an id, a call or a link goes on with the story of a run. The proofs are in `proofs/`. There is no
//! code here.
//!
//! One round of each loop says of calls only what has its cause (CausedRounds), and so do whole clients (ClientCauses)
//! and readers (ReadingCauses); where a run has ended, each task on calls has its outcome, and no two calls share a
//! version (StoryAtRunEnd).
#![tactic(auto)]
