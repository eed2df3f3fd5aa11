//! That every run ends: how many moves each seat has left at most, and that each that it makes is one of them. The
//! proofs are in `proofs/`. There is no code here.
//!
//! Each tick that moves leaves a smaller number (`LastsFor`, `Lasts` of `program_steps`): of steps on sockets
//! (StepsLeaveFewer), of walks and of messages that are left (WalksLeft), of loops on ids (IdsLeft), of a reading,
//! where each byte pays for the steps that it may make (ReadCosts).
#![tactic(auto)]
