//! Message buffers in the manner of bRPC's IOBuf: a list of references to shared blocks. Cutting, sharing and
//! appending move references, and only `append_bytes` and `copy_to` copy bytes.
//!
//! Proved: every call is its function on lists of bytes (specs/Buffer), however the blocks are shared; a refusal
//! leaves the buffer as it was; `cut_front` is too short exactly where n is above the length.
#![tactic(auto)]

mod buf;
mod fault;
mod refs;

pub use buf::IoBuf;
pub use fault::CutFault;
pub use io_block::{BLOCK_BYTES, BlockPool, NoMemory};
