//! What the clients of a run with calls do at the table of sockets: each client's deeds, and those of a whole run. The
//! definitions are in `specs/`, the proofs in `proofs/`. There is no code here.
//!
//! `deed_run_with`: a run with calls whose links are read beside the clients (`RanWith`, `AreReaders` of `call_run`)
//! is a run of deeds of `sock_deeds`; so `told_of_run_with` tells `ToldSockets` of it, where no two messages have one
//! place word and there are at most 65,536 operations. An attempt of a call is at the table the send of a client that
//! asks for the link first (`attempt_message`).
#![tactic(auto)]
