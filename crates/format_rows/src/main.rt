//! Rows of what is read and printed: it answers each line of its standard input by the call that the line's first word
//! names, and writes other lines as they are. What it has to answer stands in the file `stdout`. Rows of what comes
//! over a wire give bytes in hexadecimal, and those of scripts and reports their texts between quotes.
//!
//! Tests alone: its contracts say no more than that it is safe. The gate compares its answers as two compilers build
//! it.
#![tactic(auto)]

mod bytes;
mod execs;
mod frames;
mod metas;
mod reports;
mod rows;
mod scripts;
mod wires;

use std::io;

fn main(rt: HostRuntime) -> io::Result<()> {
    for row in rt.lines(rt.alloc()) {
        let said = rows::answer(rt.alloc(), row?.as_str())?;
        println!(rt; "{said}")?;
    }
    Ok(())
}
