//! Messages and frames as a link takes them: a message in blocks from its start, a frame in its header with the meta
//! and then the blocks of its payload and of its attachment.
//!
//! `Parcel` is either, a `CallFrame` the frame of one attempt. Proved: what is put next is a piece of one part, and
//! what is left behind a put is the rest, part by part (`part`).
#![tactic(auto)]

pub mod frame;
pub mod parcel;

pub use frame::{CallFrame, OutgoingFrame};
pub use parcel::{OutgoingParcel, Parcel};
