//! Blocks of 8,192 bytes, which message buffers write into, and a pool that keeps a few of them.
//!
//! Proved: `take` gives an empty block with 8,192 free bytes, at most eight blocks are kept, and `write` gives a
//! reference to the bytes, behind those written last or in another block.
#![tactic(auto)]

mod kept;
mod pool;
mod room;

pub use pool::{BLOCK_BYTES, BlockPool, KEPT_BLOCKS};
pub use sock_words::NoMemory;
