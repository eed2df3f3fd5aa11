//! Call ids that are made, locked and ended by 1 to 64 threads that share a table: so many by each. It prints how many
//! did.
//!
//! Proved is that it is safe, and that what it calls is called as its contract asks. bench/ids/run builds it and times
//! it.
#![tactic(auto)]

mod ids;

use bench_rows::{number, tell_row};
use std::io;
use std::process::ExitCode;

fn main(rt: HostRuntime) -> io::Result<ExitCode> {
    let (threads, count) = (number(&rt, 0), number(&rt, 1));
    let done = ids::on_threads(&rt, rt.alloc(), threads, count);
    tell_row(&rt, &[threads, count], done, "ids")
}
