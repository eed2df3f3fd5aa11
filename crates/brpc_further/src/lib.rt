//! The top call of the whole program: the commands of `brpc_eng`, and further ones beside them, of which there is none yet. A further
//! command stands in crates of its own. Here it gets a case in `FurtherAnswers`, and in `FurtherAnswersAlone` where it waits for
//! nobody, its form at the end of the usage line, and its call. So it is proved with this crate and `brpc_main`, and `brpc_eng` stays
//! as it is.
//!
//! `further` and `further_alone` answer as the calls of `brpc_eng` do, told the usage line (specs/FurtherAnswers).
#![tactic(auto)]

mod commands;

pub use commands::{further, further_alone, may_wait};
