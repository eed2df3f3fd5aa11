//! The lines of a text, the words of a line, and the numbers that words spell.
//!
//! `first_line` cuts the first of the lines of a text, `first_word` the first of the words of a line, and `wide_number` answers
//! exactly the number of 64 bits that a word spells.
#![tactic(auto)]

mod lines;
mod numbers;
mod words;

pub use lines::first_line;
pub use numbers::wide_number;
pub use words::first_word;
