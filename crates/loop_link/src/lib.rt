//! Links in memory whose other end is the built-in server.
//!
//! Behind `LoopLinker::settle` a link with the server was offered exactly the replies to all that it took, with
//! `end=N` the first N; its end stands behind them exactly where N replies are reached or the bytes have a frame
//! fault, else its other end closes exactly where the link was finished (`Settled`, specs/ServingFedBytes).
//! `LoopIn::take` gives as many of the bytes that wait as the room takes, from their front, and where none waits tells
//! what stands behind them. A reading half that told of the end or the closing gave the replies to all that the link
//! took (`gave_replies`); without the server nothing is given (`gave_nothing`). Where memory is short nothing that is
//! told changes.
#![tactic(auto)]

mod counts;
mod front;
mod loop_in;
mod loop_linker;
mod loop_peer;
mod server;

pub use loop_in::LoopIn;
pub use loop_linker::LoopLinker;
pub use server::feeds;
