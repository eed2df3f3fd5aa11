//! The built-in server: its services, and a connection that is fed bytes in any pieces and answers each whole request
//! frame (brpc's baidu_std.md).
//!
//! `Conn::feed`: in whatever pieces the bytes come, exactly the replies to the request frames that became whole are
//! appended and counted, and a frame fault is answered exactly where the stream has one, and that very fault for good
//! (`Feeds`, by `reply` of `brpc_model`). `serve` gives exactly what `served` says of one frame.
#![tactic(auto)]

mod conn;
mod reply;
mod service;

pub use conn::{Conn, ConnFault};
pub use reply::reply_to;
pub use service::{Answer, Refusal, serve};
