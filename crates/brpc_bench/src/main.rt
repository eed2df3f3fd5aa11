//! Loops over the library layer, to be timed from outside: `encode`, `cut`, `buffer` or `malloc`, the bytes of a
//! message, and how often; `read` or `print`, the sends of each of 31 clients, and how often. It prints how many bytes
//! went through.
//!
//! Proved is that it is safe, and that what it calls is called as its contract asks. bench/run builds it and times it.
#![tactic(auto)]

mod buffers;
mod frames;
mod memory;
mod scripts;

use bench_rows::{number, tell_row, word};
use io_buf::NoMemory;
use std::alloc::Global;
use std::io;
use std::process::ExitCode;

/// Runs the loop of this name; how many bytes went through.
fn run(alloc: Global, name: &str, size: u32, count: u32) -> Result<u64, NoMemory> {
    match name {
        "encode" => frames::encode_all(alloc, size, count),
        "cut" => frames::cut_all(alloc, size, count),
        "malloc" => memory::take_all(alloc, size, count),
        "read" => scripts::read_all(alloc, size, count),
        "print" => scripts::print_all(alloc, size, count),
        _ => buffers::pass_all(alloc, size, count),
    }
}

fn main(rt: HostRuntime) -> io::Result<ExitCode> {
    let (size, count) = (number(&rt, 1), number(&rt, 2));
    let Some(name) = word(&rt, 0) else {
        return Ok(ExitCode::from(2));
    };
    let bytes = run(rt.alloc(), &name, size, count).ok();
    if bytes.is_some() {
        print!(rt; "{name} ")?;
    }
    tell_row(&rt, &[size, count], bytes, "bytes")
}
