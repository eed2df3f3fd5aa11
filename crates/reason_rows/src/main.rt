//! Rows of the reasons: it answers each line of its standard input by the line that stands on the standard error where the program is
//! given these words, or this script, `|` for the end of a line; and writes comments as they are. What it has to answer stands in the
//! file `stdout`.
#![tactic(auto)]

use brpc_reasons::tell_words;
use row_text::expanded;
use script_reasons::tell_script;
use sock_io::MemSink;
use std::alloc::{AllocError, Global};
use std::{io, str};

/// So much may be written.
const ROOM: usize = 4_096;

/// A sink that takes all that is written.
fn sink(alloc: Global) -> Result<MemSink, AllocError> {
    match MemSink::new(alloc, ROOM, Vec::new(alloc)) {
        Ok(sink) => Ok(sink),
        Err(_) => Err(AllocError),
    }
}

/// What it took, without the end of the line.
fn taken(alloc: Global, sink: &MemSink) -> Result<String, AllocError> {
    match str::from_utf8(sink.bytes()) {
        Ok(text) => String::from_str(alloc, text.trim_end()),
        Err(_) => String::from_str(alloc, "no text"),
    }
}

/// What is said of these words, parted by spaces.
fn words_said(alloc: Global, row: &str) -> Result<String, AllocError> {
    let mut words = Vec::new(alloc);
    for word in row.split(' ') {
        if !word.is_empty() {
            words.push(String::from_str(alloc, word)?)?;
        }
    }
    let mut errors = sink(alloc)?;
    let _ = tell_words(&mut errors, &words);
    taken(alloc, &errors)
}

/// What is said of this script.
fn script_said(alloc: Global, row: &str) -> Result<String, AllocError> {
    let text = expanded(alloc, row)?;
    let mut errors = sink(alloc)?;
    if text.len() < 1_048_576 {
        let _ = tell_script(alloc, &mut errors, text.as_bytes());
    }
    taken(alloc, &errors)
}

/// What is said of a row.
fn said(alloc: Global, row: &str) -> Result<String, AllocError> {
    let Some((word, rest)) = row.split_once(" ") else {
        return String::from_str(alloc, row);
    };
    match word {
        "words" => words_said(alloc, rest),
        "script" => script_said(alloc, rest),
        _ => String::from_str(alloc, row),
    }
}

fn main(rt: HostRuntime) -> io::Result<()> {
    for row in rt.lines(rt.alloc()) {
        let answer = said(rt.alloc(), row?.as_str())?;
        println!(rt; "{answer}")?;
    }
    Ok(())
}
