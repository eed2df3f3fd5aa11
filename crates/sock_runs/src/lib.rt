//! That every tick of a seat keeps the rule of the sockets: the proofs in `proofs/`. There is no code here.
//!
//! `sound_ticks` (TicksKeepSeatsSound): a tick of any seat keeps the rule and every seat's view, which still allows
//! all that the seat has left to do. `sound_allows` (AllowedNextSteps): its next step reads a word that is there, and
//! no count of references or version leaves its range. `is_over` (FailedLivesEnded): where nothing is left to do and
//! every life was failed, nobody refers to any slot, its version is even, and it is free unless its versions are used
//! up. A tick of a seat that waits changes nothing, and where links are prompt nobody waits where nothing moves
//! (TicksOfWaitingSeats).
#![tactic(auto)]
