//! Where a seat stands with a call id: which step it makes next on the table of the ids, and how it goes on behind it.
//! What a seat does behind all that is its own; here it is any program.
//!
//! The next step is that of the program which the point means, and the point behind it means the program that goes on
//! by the word or the call that the step found.
#![tactic(auto)]

pub mod aside;
pub mod deciding;
pub mod ending;
pub mod locking;
pub mod posting;
pub mod word_step;

pub use aside::Aside;
pub use deciding::{DecideNext, DecideStep, OnCall};
pub use ending::EndStep;
pub use locking::Locker;
pub use word_step::WordStep;
