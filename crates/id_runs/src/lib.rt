//! What the programs do with ids: the rule of the table of ids holds behind each tick, and what each seat has locked
//! allows what it has still to do.
//!
//! `ids_ticks` (TicksKeepIdRule): whatever its links give, each tick of any seat keeps the rule of the ids and what
//! each seat may do with them (`SoundIds`, specs/Goes). What the sockets say to the ids at a tick is a premise of it
//! (`IsFittingIds`).
#![tactic(auto)]
