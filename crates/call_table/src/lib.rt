//! Calls, as bRPC's bthread_id.md and baidu_std.md have them: the frame of each attempt, what is done about an error,
//! and how a response ends a call.
//!
//! `issue` makes exactly the frame of the attempt, whose correlation id is the call's id, the attempt's number and 1
//! together; payload and attachment are shared. `on_error` says exactly which error ends a call and which is retried
//! (`decision_of`, specs/DecisionOnError), `on_response` exactly how a response ends it (`response_ending`,
//! specs/ResponseEndsCall).
#![tactic(auto)]

mod errors;
mod issuing;
mod responses;

pub use errors::{Decision, on_error};
pub use issuing::issue;
pub use responses::{Ending, on_response};
pub use sock_message::Call;
