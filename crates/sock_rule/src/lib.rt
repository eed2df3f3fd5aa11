//! The rule of the sockets on a table of atomic words that threads share, with a call for each kind of step.
//!
//! Each call is one step on a word, its row of the rule that the machine on one thread keeps, whatever other seats do
//! between: `OnTable` (specs/OnTable) holds between any two steps, and what a step tells its seat is in
//! specs/SocketPlays and ChainPlays. No lock is taken, and no call waits. Besides, a half of a link that is put back
//! has faults where its seat noted one (`LinkFaults`), and what was stored at names and operations stands in one order
//! (specs/NotesBesideRows).
#![tactic(auto)]

mod homes;
mod ids;
mod key;
mod letters;
mod links;
mod plays;
mod rights;
mod slots;
mod stores;
mod table;

pub use homes::{Letter, LinkHome, SockHome};
pub use key::{TableKey, Ways};
pub use plays::SockRule;
pub use table::{RuleTable, SockSeat};
