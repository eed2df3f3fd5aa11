//! What seats that send through sockets may conclude once their table is closed, whatever their indexes.
//!
//! `messages_in_one_order`: all their messages stand in one order, each seat's in its own (`AreMerged`), and each link took those
//! that its lives accepted in that order, each whole, then at most a proper beginning of the next (`InOneOrder`,
//! specs/MessagesInOneOrder). Some are left only where a life of that link was failed by one of the seats. What `start`,
//! `write_once`, `keep_write` and the calls of the table do to a seat's list of sent messages is a lemma each (proofs/SenderCalls).
//! `messages_at_their_places` says the same by the places of messages.
#![tactic(auto)]

mod orders;
mod places;

pub use orders::messages_in_one_order;
pub use places::messages_at_their_places;
