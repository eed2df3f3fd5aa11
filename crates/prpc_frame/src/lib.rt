//! baidu_std frames, as brpc's baidu_std.md has them: cut out of a stream that comes in any pieces, and encoded. A
//! frame is `PRPC`, the size of its body and that of its meta in four bytes each, the highest first, and the body: the
//! meta, the payload and the attachment.
//!
//! Proved: `Cutter::next` answers exactly how the bytes held are judged (`judged`; specs/CutterAnswers), and in
//! whatever pieces the stream goes on, it is the frame given and the stream behind it (`Leads`); a fault is answered
//! for good. `Cutter::front` shows the frame with which the bytes begin, where it answers one (`LiesInFront`); when it
//! does isn't said. `encode` makes exactly `frame_bytes`, in references to the payload and the attachment, and these
//! bytes are that frame and no other, whatever stands behind them (`begins_with_one_frame`).
#![tactic(auto)]

mod body;
mod cutter;
mod encoding;
mod fault;
mod frame;
mod front;
mod header;

pub use cutter::Cutter;
pub use encoding::{begins_with_one_frame, encode};
pub use fault::{FrameFault, NextFault};
pub use frame::Frame;
pub use front::FrontFrame;
pub use io_buf::{BlockPool, IoBuf, NoMemory};
pub use rpc_meta::{MetaFault, MetaView, RequestView, ResponseView, RpcMeta};
