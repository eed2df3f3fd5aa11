//! Messages as clients hand them in, and as a link takes them: whole blocks from their start, and after a part that
//! was taken the rest of its block. And calls as clients ask for them.
//!
//! `Message::new` copies the bytes from a list into blocks, or up to 40 of them in place; no other call copies them.
//! `Outgoing` tells the piece that is put next, up to the end of a block of 8,192 bytes (`piece`,
//! specs/MessagePieces), and what is left behind a put (`left_of`).
#![tactic(auto)]

mod call;
mod few;
mod message;
mod outgoing;

pub use call::Call;
pub use io_buf::{BLOCK_BYTES, BlockPool, NoMemory};
pub use message::Message;
pub use outgoing::Outgoing;
