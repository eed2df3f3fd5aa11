//! Messages to sockets: accepted in one order, and written by whoever found the head idle (bRPC's `Socket::Write`).
//!
//! `start` accepts a message, or hands it back with the word found, or with each request found taken by this call
//! (`FullNow`); with the right to write comes what `write_once` wants (`Begins`). `write_once` makes one look, and one
//! put exactly where that found the life live, unless the message has no bytes (`OnceTried`), and answers `Done` or
//! keeps the right (`OnceBy`). `keep_write`, the one call that may wait, answers `Done` once the head was emptied, or
//! `Dropped` with what is left of a message, behind a look that found the life failed, and with its code (`KeptBy`).
//! Since a message is in hand each put came right behind a look of its own that found the life live, and none behind a
//! failure (`PutsBehindLooks`). Behind a put by which the link's count of faults rose the life is found failed
//! (`FaultsBy`), and where it was found failed nothing is put (`IsDead`). A `Dropped` hands out the accepted message
//! that was in hand, and it alone notes the word of its label's place with the dropped bit (`WroteDrop`). No clause
//! says that `keep_write` goes on, or how many puts it made.
#![tactic(auto)]

mod entry;
mod hand;
mod hold;
mod keep;
mod right;

pub use entry::{Refused, Started, start};
pub use hold::{Once, write_once};
pub use keep::{Kept, keep_write};
pub use right::{Doing, InHand, LinkInHand, Undelivered, Walk, WriteRight};
