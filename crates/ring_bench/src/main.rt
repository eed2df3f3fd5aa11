//! Bytes through rings between threads: bytes|calls SIZE COUNT LINKS. Over each link go so many pieces of so many
//! bytes, to an other end that throws them away, or so many calls with so many bytes, to one that answers them. It
//! prints how many bytes came over, or how many the replies have.
//!
//! Proved is that it is safe, and that what it calls is called as its contract asks. bench/ring/run builds it and
//! times it.
#![tactic(auto)]

mod request;
mod ring;

use crate::ring::{called, carried};
use bench_rows::{has_word, number, tell_row};
use std::alloc::Global;
use std::io;
use std::process::ExitCode;
use std::sync::Wait;
use std::thread::Threads;

/// What the words ask for.
#[derive(Clone, Copy)]
struct Asked {
    calls: bool,
    size: u32,
    count: u32,
    links: u32,
}

/// Goes over so many links, one behind the other: how many bytes came over all of them.
fn by_links<R: Threads + Wait + Sync>(rt: &R, alloc: Global, asked: Asked) -> Option<u64> {
    let mut bytes = 0u64;
    for _ in 0..asked.links {
        let more = if asked.calls {
            called(rt, alloc, asked.size, asked.count)?
        } else {
            carried(rt, alloc, asked.size, asked.count)?
        };
        bytes = bytes.wrapping_add(more);
    }
    Some(bytes)
}

fn main(rt: HostRuntime) -> io::Result<ExitCode> {
    let asked = Asked {
        calls: has_word(&rt, 0, "calls"),
        size: number(&rt, 1),
        count: number(&rt, 2),
        links: number(&rt, 3),
    };
    let bytes = by_links(&rt, rt.alloc(), asked);
    tell_row(&rt, &[asked.size, asked.count, asked.links], bytes, "bytes")
}
