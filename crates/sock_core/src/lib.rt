//! The whole product on one thread, under any schedule: a machine of seats, made for a script, ticked by a schedule,
//! played to its end and taken apart.
//!
//! `Machine::tick` makes exactly the next step of a seat, with what its link answered if it was asked (`Ticked`, by
//! `ticked` of `seat_programs`), and tells the kind of the step, for what the seat waits, or that it has no step left.
//! `tick_until` ticks up to the first step of a kind (`Led`); `settle` makes rounds until nothing moves, then the
//! ending, and such rounds again (`Settled`), and always returns, since each tick that moves leaves fewer
//! (`LastsAtMost`). `new` takes all its memory before it touches a link. `finish` gives the outcome of each operation,
//! the place words and the links. Behind every tick the rules of the sockets and of the ids hold (`IsSoundMachine`),
//! and a link that was offered what belongs to it stays so (`KeepOffers`). A machine in which memory ran out (`short`)
//! is only to be taken apart.
#![tactic(auto)]

mod finished;
mod inputs;
mod machine;
mod prepared;

pub use finished::Finished;
pub use machine::{Machine, NotMade};
pub use machine_model::{On, Tick};
pub use prepared::Prepared;
