//! Links over two rings, 65,536 bytes a direction and one place for the mark that ends or closes it, each end for a
//! thread of its own.
//!
//! `RingOut` and `RingIn` keep the meanings of the traits; nothing stands behind the mark, and `finish` never waits.
//! `RingPeer` carries bytes between the rings and a link of `loop_link`. What one end took is compared with what the
//! other put once one thread has both (`RingPeer::meet`): it stands first in that, and is all of it where the mark was
//! taken (`IsTakenOf`); then the link gave a front of what its other end gives for a front of what it took
//! (`GaveFront`), and where the mark was taken what was offered becomes known (`IsFound`). Nothing of that is told
//! while both threads run. `RingLinker` opens such links in every mode, and fails for want of memory alone.
#![tactic(auto)]

mod cell;
mod inner;
mod open;
mod packing;
mod reader;
mod ring_in;
mod ring_linker;
mod ring_out;
mod ring_peer;
mod writer;

pub use open::open_ring;
pub use ring_in::RingIn;
pub use ring_linker::RingLinker;
pub use ring_out::RingOut;
pub use ring_peer::RingPeer;
