//! The program, over the standard streams: `main` is one call of `run_program` of `brpc_main`, which is `run_with`
//! there over the real streams, with links over rings, over TCP or in memory as the command asks. What it does is what
//! `run_with` says; that it is wired so is shown by running it.
//!
//! The gate runs it as two compilers build it, with an argument, an input, lines to print, and status 9.
#![tactic(auto)]

use brpc_main::run_program;
use std::process::ExitCode;

fn main(rt: HostRuntime) -> ExitCode {
    let errors = rt.stderr();
    run_program(&rt, &errors)
}
