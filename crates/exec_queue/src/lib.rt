//! The tasks of many threads, run one after another without a thread of its own: whoever finds the head of the chain idle runs what
//! came. bRPC's execution queue (execution_queue.md), over any writing half (`TaskQueue`); `ExecOut` is the half that runs tasks.
//!
//! `new` hands out submitters without tasks (`AreNewFrom`), or the half back. `submit` is `Ok` where the task stands behind the
//! submitter's earlier ones (`IsSubmitter`), `Stopped`, `Full` or `NoMemory` by what this call found (`RefusedFor`). `stop` is
//! `Ok` only where this call failed the socket. `finish` tells the order of the accepted tasks and how many of them were run
//! (`Ran`): the runner ran just the first so many, each once, and all of them where no `stop` answered `Ok`; one `stop` at most
//! did, and each refusal has its cause (`AnswersFit`, specs/EndedQueue). That one task at most is still begun behind the step of
//! `stop` is said by the calls of `write_chain`. Not said: that a submit ends.
#![tactic(auto)]

mod exec;
mod finishing;
mod half;
mod making;
mod order;
mod queue;
mod runner;
mod stopping;
mod submitting;
mod task;

pub use exec::{ExecEnd, ExecParts, ExecQueue, NoQueue, NotEnded, Submitter, exec_queue, finish};
pub use finishing::{TaskEnd, TasksLeft};
pub use half::ExecOut;
pub use making::{NoTasks, TaskParts};
pub use order::Counts;
pub use queue::{TaskQueue, TaskSubmitter};
pub use runner::Runner;
pub use stopping::Already;
pub use submitting::{NotSubmitted, Submitted};
pub use task::Task;
