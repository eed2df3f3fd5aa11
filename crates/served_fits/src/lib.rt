//! The report of a run with calls fits its script and its links, and where nothing went wrong it is complete. The
//! definitions are in `specs/`, the proofs in `proofs/`. There is no code here.
//!
//! Of a whole run in which each take is offered what belongs to its link: `any_serves`: its report fits, each link
//! that was served gave the replies, and to each call its own (`ServesAll`). `joinless_serves`: without `join` the
//! report is complete too (`FitsServed`); `serves_fits`: of each script so, over the one premise `CallsAreOver`, which
//! `calls_over` proves.
#![tactic(auto)]
