//! In runs of scripts that were read, a link with the built-in server gives less than the most that is read. The
//! definitions are in `specs/`, the proofs in `proofs/`. There is no code here.
//!
//! `few`: where a script of at most 1,048,576 bytes was read and has no more attempts than requests, each link with
//! the server gave less than 16,777,216 bytes. `front_few`: so did a link whose bytes are a front of what the server
//! gives for a front of what it took.
#![tactic(auto)]
