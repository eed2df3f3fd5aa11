//! The seat of the reader of a link: where it stands in its program, and what it has in hand. It makes no step itself.
//!
//! What it has still to do is the program of the definitions (`reader_program`, specs/ReaderState), and it goes on as
//! that does by the word, the call or the bytes that its step found.
#![tactic(auto)]

pub mod hand;
pub mod outcomes;
pub mod seat;
pub mod taking;

pub use outcomes::tell;
pub use seat::ReaderSeat;
