//! No two messages of a run with calls on threads have one place word, so what the words tell is an order of each
//! link. The definitions are in `specs/`, the proofs in `proofs/`. There is no code here.
//!
//! `closed_places`: of all clients run and both tables closed behind them, with at most 65,536 links and operations,
//! the place words are places (`ArePlaces`). A client's own list of accepted messages is that of its deeds
//! (`own_list`); over all clients no two have one place index (`log_differs`), since that is eight times the
//! operation's number, plus the attempt, and an id is advanced to an attempt once.
#![tactic(auto)]
