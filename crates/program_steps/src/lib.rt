//! What a seat may ask for and find at each step, by where it stands in its program, and how it goes on: definitions
//! in `specs/`, the proofs in `proofs/`. There is no code here.
//!
//! `GoesOn` is a program that a view allows, whatever its steps find (specs/ProgramGoesOn); `Sound` is the rule of the
//! sockets with a view of each seat that allows all that it has still to do (specs/SoundSeats); `Lasts` tells how many
//! ticks that move are left at most (specs/TicksLeftAtMost). What each step leaves alone: every word but its own
//! (proofs/WordFrame), and the parts of the view that its kind doesn't touch (proofs/Leaves).
#![tactic(auto)]
