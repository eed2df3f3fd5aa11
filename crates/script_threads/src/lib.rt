//! Runs a script on threads, a client on each, over links that it opens and gives back; beside the clients the other
//! end of each link is served and the link is read, so that a client may wait for a call (`join`). It prints the
//! report.
//!
//! `run_on_threads` gives all links back in order, whatever becomes of the run. Its text, if it returns one, meets
//! `IsThreadsText` (specs/ServedScriptTold): place words tell an order of each link, each operation on sockets has its
//! cause (`AreSocketsTold`), each answer is a whole response that a link gave to one of the call's versions, no two
//! operations show the end of one call, attempts are counted (`AreAttemptsTold`), each failed call, `expire` and
//! `join` has its cause (`AreCallsTold`, `AreJoinsTold`) or was ended by whoever read the links (`EndedByReading`).
//! Over links that tell what they were offered, links with the server gave the replies, and where nothing went wrong
//! all is done (`IsCompleteText`). That the call returns isn't claimed.
#![tactic(auto)]

mod ending;
mod run;

pub use run::run_on_threads;
