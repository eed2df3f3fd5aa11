//! Each step of a seat is one event of the plain model of references at most, and what the rule says of lives and
//! holders. The definitions are in specs/, the theorems in proofs/.
//!
//! `each_tick`: each tick is one event (birth, hold, drop, fail, end) or none (specs/LifeEventOfStep, over `PlainLaw`
//! of `sock_model`), which may come there. `plain_law` and `given_unheld` are the laws of lives; `stale_probe`:
//! whoever adds a reference for an id of an ended life gets no reference to any life.
#![tactic(auto)]
