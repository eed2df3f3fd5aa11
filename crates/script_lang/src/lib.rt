//! A whole script: its lines read and judged, each at its place, and all together; and what a table is asked to do by
//! it: its sizes, the tasks of each client, the `open`s and the calls.
//!
//! `read_script` answers `Ok(s)` only where the bytes are the script `s`, and `Fault { line, kind }` only where they
//! have that first fault, so both exactly (`script_of`). The names, the counts of lines and the numbers of operations
//! are kept with the lines as an invariant of `Script`. Of a script that keeps its limits `plan` and `id_plan` are the
//! sizes of both tables, and `tasks` the tasks of the setup and of each client, with their messages.
#![tactic(auto)]

mod counts;
mod error;
mod held;
mod names;
mod numbering;
mod read;
mod reader;
mod script;
mod tasks;
mod text;
mod uses;

pub use error::ScriptError;
pub use read::read_script;
pub use script::Script;
pub use script_items::{
    CallLine, Line, Name, Names, OpenLine, OwnedBytes, Seat, SendLine, Shape, Target,
};
pub use sock_message::{BlockPool, NoMemory};
