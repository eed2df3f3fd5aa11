//! Messages of 32 bytes through one socket, by 1, 2 or 4 threads that share a table: THREADS COUNT PUT_NANOS REQUESTS
//! [rate|latency]. Each thread sends so many, and a put takes so long. It prints how many messages the link took; with
//! `rate` also how many a second these were, and with `latency` how long a send took, at p50, p99 and p99.9.
//!
//! Proved is that it is safe, and that what it calls is called as its contract asks (specs/SenderWithOneReference).
//! bench/chain/run builds it and times it.
#![tactic(auto)]

mod crew;
mod out;
mod sending;
mod taken;

use crate::crew::{Told, on_threads};
use crate::out::spin;
use crate::sending::{Load, nanos_of};
use crate::taken::{count_of, time_at};
use bench_rows::{has_word, number, print_row};
use sock_io::Out;
use std::env::Env;
use std::io;
use std::process::ExitCode;
use std::time::{Clock, Instant};

/// How many turns are timed, to know how many a put takes.
const SAMPLE: u64 = 1_000_000;

/// What the words ask for.
#[derive(Clone, Copy)]
struct Asked {
    threads: u32,
    count: u32,
    nanos: u32,
    requests: u16,
    rate: bool,
    latency: bool,
}

fn read_words<R: AllocGlobal + Env>(rt: &R) -> Asked {
    Asked {
        threads: number(rt, 0),
        count: number(rt, 1),
        nanos: number(rt, 2),
        requests: number(rt, 3).min(65_535) as u16,
        rate: has_word(rt, 4, "rate"),
        latency: has_word(rt, 4, "latency"),
    }
}

/// How many turns take so long.
fn turns_for<R: Clock>(rt: &R, nanos: u32) -> io::Result<u64> {
    if nanos == 0 {
        return Ok(0);
    }
    let begun = Instant::now(rt)?;
    spin(SAMPLE);
    let taken = nanos_of(begun.elapsed(rt)?).max(1);
    Ok(u64::from(nanos) * SAMPLE / taken)
}

/// Prints what came of it; `nanos` is how long all of it took.
fn tell<R: Print>(rt: &R, asked: Asked, told: Told, nanos: u64) -> io::Result<ExitCode> {
    let Told { out, mut times } = told;
    let Some(count) = count_of(out.taken()) else {
        return Ok(ExitCode::from(1));
    };
    print_row(rt, &[asked.threads, asked.count], count, "messages")?;
    if asked.rate || asked.latency {
        let rate = u128::from(count) * 1_000_000_000 / u128::from(nanos.max(1));
        print!(rt; " {rate} a second")?;
    }
    if asked.latency && times.sort().is_ok() {
        let (half, most, nearly) = (
            time_at(&times, 500),
            time_at(&times, 990),
            time_at(&times, 999),
        );
        print!(rt; ", a send {half} {most} {nearly} ns")?;
    }
    println!(rt; "")?;
    Ok(ExitCode::from(0))
}

fn main(rt: HostRuntime) -> io::Result<ExitCode> {
    let asked = read_words(&rt);
    if asked.threads != 1 && asked.threads != 2 && asked.threads != 4 {
        return Ok(ExitCode::from(2));
    }
    let load = Load {
        count: asked.count,
        turns: turns_for(&rt, asked.nanos)?,
        timed: asked.latency,
    };
    let bytes = 32 * asked.threads as usize * asked.count as usize;
    let Ok(room) = Vec::with_capacity(rt.alloc(), bytes) else {
        return Ok(ExitCode::from(7));
    };
    let begun = Instant::now(&rt)?;
    let told = on_threads(&rt, rt.alloc(), room, asked.threads, asked.requests, load);
    let nanos = nanos_of(begun.elapsed(&rt)?);
    match told {
        Some(told) => tell(&rt, asked, told, nanos),
        None => Ok(ExitCode::from(7)),
    }
}
