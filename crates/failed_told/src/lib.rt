//! Of runs on threads: why calls failed, each by what is told of its last attempt. The proofs are in `proofs/`. There
//! is no code here.
//!
//! `missed_why`: of an attempt that came to nothing no link accepted the frame, and its socket's life had been failed,
//! or each request was taken, or the name had no socket. `ends_with`, `again_with`: each end that a client told has
//! its cause (`FailedBy`), or its code is one of a reader's; each attempt but the last was dropped, or lost its
//! socket, or found each request taken. `told_on`, `read_dropped`, `left_at`: each end with 1014 or 2002 goes back to
//! the reading of one link, its end, its fault or a drop, or the call was left over (`LeftAt`). `silent`: where that
//! link's reading ended with 1014 it gave no response of the call. Not proved: that no response was given of a call
//! that ended with 1014 since its message was dropped.
#![tactic(auto)]
