//! Where the reader of a link stands in its program: which step it makes next, and how it goes on behind it.
//!
//! Each point means a program (`point_program`, specs/ReaderPoints), whose next step is the reader's; behind a frame
//! that was cut it goes on as the definitions do (`next_program`, specs/CutsInHand).
#![tactic(auto)]

pub mod answering;
pub mod closing;
pub mod cutting;
pub mod failing;
pub mod follows;
pub mod keeping;
pub mod point;
pub mod posting;
pub mod reading;
pub mod steps;

pub use cutting::Cut;
pub use keeping::first_kept;
pub use point::{
    AnswerStep, Behind, ByteCount, CloseStep, Closing, FailStep, Lost, ReadNext, ReadPoint,
    ReadStep, Reader, Taken,
};
pub use reading::discarded;
