//! Opens the links of a script, in order and in one mode, and gives them back.
//!
//! `open_links` asks of each link just what its `open` line asks (`specs_of`); the ends of each are those of one link,
//! with a new other end that is what was asked for (`AreOpened`); where one can't be opened, those before it are
//! untouched (`AreUntouched`). `give_back` gives all back in order.
#![tactic(auto)]

mod links;

pub use links::{give_back, open_links, spec_of};
