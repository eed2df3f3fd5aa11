//! Where a seat stands in its program, its next step from there, and where it goes on by what that step found.
//!
//! A `Point` means a program (`point_program`, specs/ProgramAtPoint): its next step is the program's (`step_as`), and
//! it goes on as the program does by the word, the message, the link or the answer that the step found. `TableStep` is
//! a step by its family: its kind, the index of its word and the word behind it are those of the definitions
//! (`kind_of`, `word_of` and `word_after` of `seat_programs`).
#![tactic(auto)]

pub mod asking;
pub mod calling;
pub mod chain_step;
pub mod follows;
pub mod link_step;
pub mod name_step;
pub mod opening;
pub mod place_step;
pub mod point;
pub mod releasing;
pub mod retrying;
pub mod seeking;
pub mod sending;
pub mod slot_step;
pub mod steps;
pub mod table_step;
pub mod writing;

pub use calling::Calling;
pub use chain_step::ChainStep;
pub use link_step::LinkStep;
pub use name_step::NameStep;
pub use place_step::PlaceStep;
pub use point::{
    AfterStep, Aim, Attempt, AttemptStep, Author, CallStep, Continuation, FailStep, Failing,
    Holder, JoinStep, MessageInHand, Next, OpenStep, Opening, Point, ReleaseStep, Released,
    RetryStep, Retrying, SeekStep, SendStep, Sending, Step, WriteStep, Writer,
};
pub use slot_step::SlotStep;
pub use table_step::TableStep;
