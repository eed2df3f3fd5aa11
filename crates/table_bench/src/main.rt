//! `add_reference` with `release` of one id, by 1, 2 or 4 threads that share a table: so many pairs by each. It prints
//! how many references were got.
//!
//! Proved is that it is safe, and that what it calls is called as its contract asks. bench/table/run builds it and
//! times it.
#![tactic(auto)]

mod pairs;

use bench_rows::{number, tell_row};
use std::io;
use std::process::ExitCode;

fn main(rt: HostRuntime) -> io::Result<ExitCode> {
    let (threads, count) = (number(&rt, 0), number(&rt, 1));
    let got = pairs::on_threads(&rt, rt.alloc(), threads, count);
    tell_row(&rt, &[threads, count], got, "pairs")
}
