//! The program as it is built: the report of a script that is run on threads, status 0.
//!
//! It is the same `main` as that of `brpc_run`. A program crate has one input in the gate, so this one has a script
//! that is run on threads over the rings that `main` makes.
#![tactic(auto)]

use brpc_main::run_program;
use std::process::ExitCode;

fn main(rt: HostRuntime) -> ExitCode {
    let errors = rt.stderr();
    run_program(&rt, &errors)
}
