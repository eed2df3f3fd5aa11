//! Links of the kind that is asked for: in memory, over rings or over TCP.
//!
//! `ProgOut`, `ProgIn` and `ProgPeer` are halves and other ends of `loop_link`, `ring_link` or `net_link`, and tell
//! what the one inside tells. `ProgLinker::open` makes a link of the kind and shape that are asked for (`IsOpened`,
//! specs/AnyKindLinker); it fails where a link of another kind was asked for before, and in memory and over rings for
//! no other reason.
#![tactic(auto)]

mod prog_in;
mod prog_linker;
mod prog_out;
mod prog_peer;

pub use prog_in::ProgIn;
pub use prog_linker::ProgLinker;
pub use prog_out::ProgOut;
pub use prog_peer::ProgPeer;
