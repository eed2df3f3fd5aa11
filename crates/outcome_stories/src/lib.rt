//! The story of a run, by which each outcome is explained, and what it says of messages, holders and names:
//! definitions in `specs/`, the proofs in `proofs/`. There is no code here.
//!
//! A story is the steps that were made for each operation, the latest first (specs/OperationStories); specs/TaskCauses
//! says why each `open`, `send`, `hold`, `drop` and `fail` has its outcome, in runs with calls too, and
//! specs/KeptStory what the steps of a run keep.
#![tactic(auto)]
