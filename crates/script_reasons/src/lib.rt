//! What is wrong with a script, in words: the line's number, its text, what the kind of its fault means, and the form of the line
//! whose first letters it has; and a source that keeps what was read of it, for that.
//!
//! `tell_script` writes of bytes exactly which line has the first fault that the format finds in them, its text, the word where it is
//! one alone, what the kind means, and the form (`script_text`, specs/ScriptFaultWords); or, where memory runs out, that the script is
//! faulty. Where the sink fails, by its count, a beginning of that was written. `Kept` tells of itself what the source below tells, and
//! keeps what is read: as long as all is kept, a read of `n` bytes adds exactly these (`kept_of`, specs/KeptSource).
#![tactic(auto)]

mod faults;
mod forms;
mod kept;
mod places;

pub use faults::{tell_script, tell_unknown};
pub use kept::Kept;
pub use places::opened_name;
