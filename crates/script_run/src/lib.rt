//! Runs a script on the machine, by its own schedule or a drawn one, over links that it opens and gives back, and
//! prints the report, or a summary of it.
//!
//! `run_script`: where the links are always ready and their reading halves tell whether they are closed, the text is
//! that of a run of the script by those lines of a schedule, over the links given back (`IsRunText`, specs/Played).
//! That run keeps the laws of the plain model (`KeepsLaws` of `run_laws`), each outcome has its cause (`HasCauses`),
//! what came late is only what did (`CameLate`), and in the end all is over (`IsAllOver`). Where links tell what they
//! are offered, each take was offered what belongs to its link (`OffersInRun`),
//! and each put was answered as the options of its `open` say (`ShapedInRun`). Every link that was opened is given
//! back, in order; `OpenFault::Failed` comes only where the linker's count rose, and then all are untouched.
#![tactic(auto)]

mod mark;
mod marks;
mod outline;
mod report;
mod run;
mod schedule;

pub use report::Print;
pub use run::run_script;
pub use schedule::Schedule;
pub use script_report::Load;
