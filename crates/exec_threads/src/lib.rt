//! The lines of a script for execution queues, done by submitters on threads of their own.
//!
//! `run_script` has each line done by its submitter, in the order of the submitter's lines, whatever threads can be started; where one
//! can't be, its submitter works when the others are done or before. Each line has an answer, the order is that of the accepted ones,
//! one line at most stopped the queue, and the accounts are those behind the tasks that ran (`IsDone` of specs/ScriptDone). `ended_text`
//! prints that (`IsEndingText` of exec_script). They may never return where the runtime's threads don't end.
#![tactic(auto)]

mod bank;
mod lines;
mod run;
mod text;
mod worker;

pub use bank::Bank;
pub use run::{Done, NoMemory, run_script};
pub use text::ended_text;
pub use worker::Worker;
