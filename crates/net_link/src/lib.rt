//! Links over TCP, between this process and another one on the same machine.
//!
//! `TcpOut` and `TcpIn` keep the meanings of the traits, whatever the system answers (`tcp_out`, `tcp_in`): a put
//! waits inside and never answers `Again`, a take never answers `Empty` or `Closed`, each failure raises the count,
//! and a reading half that failed fails at every later take. `TcpLinker` opens links with the shape that was asked
//! for, and accepts connections that keep nothing of what they took (`TcpHalf`). Which bytes TCP carries is trusted,
//! and shown by tests.
#![tactic(auto)]

mod moving;
mod streams;
mod tcp_half;
mod tcp_in;
mod tcp_linker;
mod tcp_out;

pub use moving::{read_some, write_some};
pub use tcp_half::TcpHalf;
pub use tcp_in::TcpIn;
pub use tcp_linker::TcpLinker;
pub use tcp_out::TcpOut;
