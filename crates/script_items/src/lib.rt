//! What one line of a script says, how a line is read by itself, and how its words are written.
//!
//! `read_line` answers exactly `line_item` (`brpc_model` ScriptLineFaults), of two faults the lower kind. `push_word`,
//! `push_number` and `push_hex` append exactly the word, unless memory is wanting. The sizes where a script gives none
//! are in src/sizes.rt.
#![tactic(auto)]

mod calls;
mod fault;
mod forms;
mod line;
mod names;
mod numbers;
mod options;
mod parts;
mod read;
mod sizes;
mod words;
mod writing;

pub use fault::LineFault;
pub use line::{CallLine, Line, Name, OpenLine, Seat, SendLine, Target};
pub use names::Names;
pub use numbers::number;
pub use read::read_line;
pub use sizes::{
    DEFAULT_FIRST, DEFAULT_REQUESTS, DEFAULT_SLOTS, first_version, is_call, is_client, is_open,
    is_operation, request_count, slot_count,
};
pub use sock_words::{OwnedBytes, Shape};
pub use writing::{push_hex, push_hex_word, push_number, push_number_word, push_word};
