//! Each step, move and put is one event of the plain model of messages, or none.
//!
//! The model (specs/MessageModel): which messages each link accepted, in which order, how many have places, what the
//! link took, which requests are taken. specs/MessageEventOfStep says which event a step is, specs/MessageStanding how
//! the model is read off words, homes and views. `each_call` and `takes_bytes`: the events may come where they do, and
//! change just that.
#![tactic(auto)]
