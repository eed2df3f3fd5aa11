//! Of runs on threads: why an error is posted to a call, and what clients and readers tell of it. Definitions in
//! `specs/`, the proofs in `proofs/`. There is no code here.
//!
//! `Reason` (specs/ErrorReasons): an `expire`, an attempt that came to nothing, a message that was dropped.
//! AttemptLosses: an attempt came to nothing since its socket's life was dead, each request was taken, or no socket
//! stood under the name. ErrorsQueuedByReading and ReadCodes: whoever reads the links queues and tells no codes but
//! 1014 and 2002. `EndedByReading` (specs/CallsEndedByReading) says how a call was ended by whoever read the links,
//! `LeftAt` where the last attempt of a call that was left over went.
#![tactic(auto)]
