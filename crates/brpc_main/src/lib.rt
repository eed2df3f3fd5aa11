//! What `main` does: it hands the words behind the program's name to the top call, over the standard streams, and ends
//! with the number that the call answers, and says why on the standard error where the output doesn't.
//!
//! `run_with`, over a source, a sink, a linker and a sink for reasons: the words are exactly the arguments behind the
//! first, byte for byte (`words_behind`); the program ends with exactly the number that the top call answers, and and
//! where the output doesn't say why, writes one line that does (`reason_text`), or a beginning of it where that sink
//! failed. Where memory runs out for the list of words it ends with 7, and nothing was read, written or opened.
#![tactic(auto)]

mod arguments;
mod outside;
mod reasons;
mod run;

pub use outside::{run_arguments, run_program};
pub use run::{run_alone, run_with};
