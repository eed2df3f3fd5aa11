//! The script of an execution queue: its lines read and judged, the sixteen accounts that its tasks change, and what is printed of a
//! queue that ended. It knows nothing of the queue itself.
//!
//! `ExecScript::read` answers the script or its first fault, each exactly; a script has at most 4,096 lines. `Accounts::run` makes
//! exactly the accounts behind one more task. `push_ending` and `push_fault` append exactly `ending_text` and `fault_text`, unless
//! memory was wanting.
#![tactic(auto)]

mod accounts;
mod ending;
mod fault;
mod op;
mod read;
mod told;

pub use accounts::Accounts;
pub use ending::push_ending;
pub use fault::{ExecFault, push_fault};
pub use op::{Change, ChangeParts, Op};
pub use read::ExecScript;
pub use told::{Answer, Told};
