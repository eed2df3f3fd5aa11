//! Scripts printed, and read again as what they were.
//!
//! `print_script` writes exactly `script_text` (`brpc_model` ScriptText), or a beginning of it where the sink failed.
//! What is printed of a script is read again as that script (`again`).
#![tactic(auto)]

mod lines;
mod parts;
mod print;
mod script_text;

pub use print::{PrintFault, print_script};
