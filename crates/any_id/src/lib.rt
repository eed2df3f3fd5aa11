//! A socket addressed by any 64-bit number, on a table of sockets for threads: each slot has a name, of its own number, under which
//! the id of its last socket stands. So no caller has to know that a number is an id (bRPC's `Address`, memory_management.md).
//!
//! `address` answers a reference to just the life that the number is the id of (`Addressed`, specs/AnyNumber), `Foreign` where this
//! call found another id under the slot's name, or none, or there is no such slot, and `Gone` with the word that it found, of another
//! version (`NotAddressed`). `create` makes a socket and stores its id so (`MadeAndNamed`). Not said: that the id of a life that
//! lives, once it stands under its slot's name, is never refused.
#![tactic(auto)]

mod addressing;

pub use addressing::{NoSocket, address, create};
