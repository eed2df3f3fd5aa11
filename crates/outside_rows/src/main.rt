//! Rows of the top call: it answers each line of its standard input by the links that the line's first word names, and
//! writes comments as they are. What it has to answer stands in the file `stdout`. The rows are each command, an
//! outside that isn't kind, links whose other ends give bytes that nobody would send, and outside calls that fail in
//! turn, step by step and on threads, over links whose other ends move by themselves; clients on threads that make
//! their operations at once; and a server and a client beside each other, over TCP.
//!
//! Tests alone: its contracts say no more than that it is safe. The gate compares its answers as two compilers build
//! it.
#![tactic(auto)]

mod answer;
mod between;
mod crowd;
mod held;
mod noting;
mod over;
mod ports;
mod rows;
mod together;
mod waits;

use crate::ports::over_ports;
use crate::rows::said;
use std::alloc::{AllocError, Global};
use std::io;
use std::net::{Net, TcpListener, TcpStream};
use std::sync::Wait;
use std::thread::Threads;
use std::time::Clock;

/// What is said of a row, or what `ports` says.
fn answer_to<
    R: Threads + Wait + Sync + Alloc<A = Global> + Net<Stream = TcpStream, Listener = TcpListener>,
    C: Clock + Sync,
>(rt: &R, clock: &C, row: &str) -> Result<String, AllocError> {
    if row == "ports" {
        return over_ports(rt, clock);
    }
    said(rt, row)
}

fn main(rt: HostRuntime) -> io::Result<()> {
    for row in rt.lines(rt.alloc()) {
        let answer = answer_to(&rt, &rt, row?.as_str())?;
        println!(rt; "{answer}")?;
    }
    Ok(())
}
