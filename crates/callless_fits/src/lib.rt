//! What is told of a run of a script without calls, and that its report fits: by what is told of its sockets, whatever
//! its links gave. The definitions are in `specs/`, the proofs in `proofs/`. There is no code here.
//!
//! `text_is_whole`: what is told of the sockets of a run without calls (`ToldSockets`) makes its report fit the script
//! and the links that were given back, with nothing late, and where nothing went wrong and no link with the server
//! gave anything every send is placed (`IsWholeText`, specs/WholeCalllessReport). `sends_done`: of any script, where
//! nothing went wrong and no reading ended early each send is placed, or its name had no socket yet (`SendDone`).
#![tactic(auto)]
