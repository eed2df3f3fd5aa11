//! That the programs of clients and of the ending are allowed by what their seats have, and that a run begins so: the
//! proofs in `proofs/`. There is no code here.
//!
//! `client_goes_on` (AllowedClients): every step of a client's program, whatever its steps find, is one that its view
//! allows; so it is with readers (ReaderAllowed), calls and retries (CallProgramAllowed, RetryAllowed). `opens_sound`
//! (AllowedRunOpening): a run begins with the rule holding. LastingTicksOfRuns: how many ticks a run has at most.
#![tactic(auto)]
