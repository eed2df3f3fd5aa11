//! Why the program ends, in words: the line that stands on the standard error where the words of the command line are at fault. Each is
//! written piece by piece, and takes no memory.
//!
//! `tell_words` writes of words exactly which is wrong first, and the form of the command that is nearest; nothing where nothing is
//! wrong with them (`words_text`). Where the sink fails, by its count, a beginning of the line was written (`Writes`).
#![tactic(auto)]

mod forms;
mod piece;
mod wrong;

pub use forms::{Form, Parameter};
pub use piece::{Piece, print_pieces};
pub use wrong::{WordsFault, tell_words};
