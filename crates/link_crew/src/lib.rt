//! What is done for links beside the clients: the other end of each is served to its end, and the link is read, each
//! on a thread of its own.
//!
//! `serve_to_end`: each call of the other end in order with what it answered, behind which nothing will be moved any
//! more (`ServedToEnd`). `work_all`: that of each link, and its reader's whole run (`HasWorked`). `meet_all` compares
//! the ends of each link (`MetBelow`); where an offer became known by that and the reading half answered its end or
//! its closing, the link gave what that other end gives for all that it took (proofs/WhatComparedLinksGave). That it
//! comes to an end isn't claimed.
#![tactic(auto)]

mod beside;
mod meeting;
mod serving;

pub use beside::{Beside, Parted, Rest, work_all};
pub use meeting::meet_all;
pub use prpc_frame::Frame;
pub use serving::serve_to_end;
