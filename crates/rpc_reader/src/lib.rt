//! The reader of a link, on a thread of its own beside the clients: it takes what the link gives, ends calls by the
//! responses that it cuts out of that (bRPC's baidu_std.md, bthread_id.md), and at the end of its reading the calls
//! that still wait for the link.
//!
//! Its whole run is `RanBy` (specs/ReaderRunFromOpen): all takes in order and why the last ended the reading
//! (`ReadBy`), what became of each whole frame (`FramesMet`: it ended a call, is kept, or was passed over), its socket
//! set failed with the code of the end, and for each call whose at word names the link the post of that code, or the
//! first response that was kept of its id (`PostedAll`), each by words that its own steps found. `end_rest` ends the
//! calls that are left, each by its first kept response, else by the code (`RestEnded`).
#![tactic(auto)]

mod books;
mod cutting;
mod ending;
mod failing;
mod meeting;
mod opening;
mod posting;
mod reader;
mod reading;
mod resting;
mod throwing;

pub use books::AnswerSeat;
pub use failing::fail_id;
pub use opening::wait_open;
pub use reader::{Reader, Spent};
pub use resting::end_rest;
