//! Both tables together: what the rule of the ids says of a tick is what the table of the sockets relies on, and both
//! hold behind each tick.
//!
//! `joint_ticks` (BothTablesSound): each tick keeps both rules, since each gives what the other relies on
//! (`is_fitting`, `fits_both`); so both hold at each moment of a whole run with calls (RunsOfBothTables).
#![tactic(auto)]
