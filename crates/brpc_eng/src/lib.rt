//! The top call: all that the program does, over a source, a sink and links that are handed in.
//!
//! `brpc` meets `Answers` (specs/ProgramAnswers): which status comes of which cause, and what was written with it. A
//! text of `replay`, `sim` and `load` is of a run by steps (`IsRunText` of `script_run`) and fits its script
//! (`IsFitting`), one of `run` is of a run on threads (`IsCompleteText` of `script_threads`); `frames` is by
//! `print_frames`, `serve` by `serve_all`. Links are opened as the script asks and given back (`OpenedBy`). The proofs
//! draw more from it: 2 comes exactly where the words ask for no command, each script is answered 0 or 7 where no
//! count rose, and over links that tell all no other text is possible (proofs/Exactly).
#![tactic(auto)]

mod alone;
mod commands;
mod doors;
mod draw;
mod engine;
mod frames;
mod generated;
mod input;
mod load;
mod replay;
mod run;
mod serve;
mod status;
mod streams;
mod threads;

pub use alone::brpc_alone;
pub use commands::asks_to_wait;
pub use engine::brpc;
