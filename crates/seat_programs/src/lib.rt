//! The program of each operation as a tree of steps, and what a tick makes of all seats, in `specs/`.
//!
//! What each step is stands by families: its kind, its word, what it stores, what the view says before and behind it,
//! and what it may find (StepsOfSlots, StepsOfNames, StepsOfChain, StepsOfPlaces, StepsOfLinks, StepsOfMessages; all
//! together StepTables). Programs are in Programs, SendAndWritePrograms, CallAndRetryPrograms, PostPrograms,
//! ReaderProgram and ClientProgram; a tick of all seats in Ticks (`ticked`), a whole run of a script in
//! ScriptSetupToEnding; why each task has its outcome in Explained and ExplainedCalls.
#![tactic(auto)]

pub mod task;

pub use sock_message::Call;
pub use task::{Op, Sizes, Task};
