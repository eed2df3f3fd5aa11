//! What the programs that are timed share: the words of the command line, and the row that tells what came of a loop.
//!
//! Proved is that it is safe, and that what it calls is called as its contract asks; no contract says what it prints.
#![tactic(auto)]

use std::env::Env;
use std::process::ExitCode;
use std::{env, io};

/// The status of want of memory.
const NO_MEMORY: u8 = 7;

/// The word that stands there behind the program's name.
pub fn word<R: AllocGlobal + Env>(rt: &R, place: usize) -> Option<String> {
    let mut words = env::args(rt).ok()?.skip(1);
    words.nth(place)
}

/// Whether it is this one.
pub fn has_word<R: AllocGlobal + Env>(rt: &R, place: usize, wanted: &str) -> bool {
    match word(rt, place) {
        Some(word) => word.as_str() == wanted,
        None => false,
    }
}

/// The number that stands there; 0 where none does.
pub fn number<R: AllocGlobal + Env>(rt: &R, place: usize) -> u32 {
    match word(rt, place) {
        Some(word) => word.parse::<u32>().unwrap_or(0),
        None => 0,
    }
}

/// Prints what was asked for and what came of it, as in `2 1000: 2000 ids`. The line doesn't end there.
pub fn print_row<R: Print>(rt: &R, asked: &[u32], done: u64, what: &str) -> io::Result<()> {
    let mut gap = "";
    for number in asked {
        print!(rt; "{gap}{number}")?;
        gap = " ";
    }
    print!(rt; ": {done} {what}")
}

/// The same as a whole line, where there was memory for the loop. It answers the status of the program.
pub fn tell_row<R: Print>(
    rt: &R,
    asked: &[u32],
    done: Option<u64>,
    what: &str,
) -> io::Result<ExitCode> {
    let Some(done) = done else {
        return Ok(ExitCode::from(NO_MEMORY));
    };
    print_row(rt, asked, done, what)?;
    println!(rt; "")?;
    Ok(ExitCode::from(0))
}
