use io_buf::NoMemory;
use script_lang::{Line, Script, read_script};
use script_report::print_report;
use sock_words::{Outcome, PlaceWord};
use std::alloc::{AllocError, Global};

/// The most clients of a script.
const CLIENTS: u32 = 31;

/// The places of an operation, one for each attempt.
const PLACES: usize = 8;

/// A script of 31 clients, each with so many sends over one link.
fn script_text(alloc: Global, sends: u32) -> Result<Vec<u8>, AllocError> {
    let mut text = Vec::from_slice(alloc, b"open a\n")?;
    for _ in 0..CLIENTS {
        text.extend_from_slice(b"client\n")?;
        for _ in 0..sends {
            text.extend_from_slice(b"send a 00112233445566778899aabbccddeeff\n")?;
        }
    }
    Ok(text)
}

fn read(alloc: Global, text: &[u8]) -> Result<Script, NoMemory> {
    if text.len() > 1_000_000_000 {
        return Err(NoMemory);
    }
    match read_script(alloc, text) {
        Ok(script) => Ok(script),
        Err(_) => Err(NoMemory),
    }
}

/// Reads such a script so many times; how many bytes were read.
pub fn read_all(alloc: Global, sends: u32, count: u32) -> Result<u64, NoMemory> {
    let text = script_text(alloc, sends)?;
    let mut sum = 0u64;
    for _ in 0..count {
        let script = read(alloc, &text)?;
        if !script.lines().is_empty() {
            sum = sum.wrapping_add(text.len() as u64);
        }
    }
    Ok(sum)
}

/// That nothing was accepted, for so many lines.
fn nothing(alloc: Global, lines: usize) -> Result<Vec<Option<Outcome>>, AllocError> {
    let mut said = Vec::new(alloc);
    for _ in 0..lines {
        said.push(Some(Outcome::SlotsFull))?;
    }
    Ok(said)
}

/// The place words for so many lines, none of which was accepted.
fn no_places(alloc: Global, lines: usize) -> Result<Vec<PlaceWord>, AllocError> {
    let mut words = Vec::new(alloc);
    for _ in 0..lines {
        for _ in 0..PLACES {
            words.push(PlaceWord::NONE)?;
        }
    }
    Ok(words)
}

/// Prints a report: how many bytes it has.
fn print_one(
    alloc: Global,
    lines: &[Line],
    said: &[Option<Outcome>],
    words: &[PlaceWord],
) -> Result<u64, AllocError> {
    let report = print_report(alloc, lines, said, words, &[])?;
    Ok(report.len() as u64)
}

/// Prints the report of such a script, in which nothing was accepted, so many times; how many bytes were printed.
pub fn print_all(alloc: Global, sends: u32, count: u32) -> Result<u64, NoMemory> {
    let text = script_text(alloc, sends)?;
    let script = read(alloc, &text)?;
    let lines = script.lines();
    let said = nothing(alloc, lines.len())?;
    let words = no_places(alloc, lines.len())?;
    let mut sum = 0u64;
    for _ in 0..count {
        let size = print_one(alloc, lines, &said, &words)?;
        sum = sum.wrapping_add(size);
    }
    Ok(sum)
}
