//! What seats do at the table of sockets, whoever sits there and whatever he does besides: each deed with what the
//! seat had before and behind it, and what follows of the closed table. The definitions are in `specs/`, the proofs in
//! `proofs/`. There is no code here.
//!
//! Of seats of clients whose deeds are each for a task, of readers of links, of one seat more that ends the sockets,
//! and of the table closed with them (`DeedRun`, specs/SocketTableRun), where no two accepted messages have one place
//! word and there are at most 65,536 operations, `told_of_deeds` tells `ToldSockets` (specs/SocketsTold): the order of
//! each link, and why each `open`, `send`, `hold`, `drop`, `fail` and unopened call has its outcome. That the sockets
//! are ended in the end is no cause of any of this. `broken_noted`: a link that so failed comes back with a count of
//! faults.
#![tactic(auto)]
