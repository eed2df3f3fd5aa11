//! What each script that is read has: its sizes, its names and numbers, its tasks and calls. The proofs are in
//! `proofs/`. There is no code here.
//!
//! `tasks_of_script` (ReadScriptTasks): the tasks of a script that was read are those that a table may be asked for
//! (`AreTasks` of `seat_programs`). Each operation has its number, link and name, each `C.I` names one call, holds and
//! drops of a name alternate, and frames of its calls have at most so many bytes.
#![tactic(auto)]
