//! Reports of a script with two links, a send, and a call with a second attempt.
use script_items::{Line, read_line};
use script_report::{Load, print_report, print_summary};
use sock_words::{Outcome, PlaceWord};
use std::alloc::{AllocError, Global};
use std::str;

fn lines(alloc: Global, text: &str) -> Result<Vec<Line>, AllocError> {
    let mut lines = Vec::new(alloc);
    for row in text.lines() {
        if let Ok(Some(line)) = read_line(alloc, 0, 0, row.as_bytes()) {
            lines.push(line)?;
        }
    }
    Ok(lines)
}

/// The place words of 1.1.0, 2.1.0 and 2.1.1: the call's first attempt comes before the send, which is dropped; its second
/// goes to the other link.
fn words() -> [PlaceWord; 26] {
    let mut words = [PlaceWord::NONE; 26];
    words[16] = PlaceWord::pack(true, 0, 1);
    words[24] = PlaceWord::pack(false, 0, 0);
    words[25] = PlaceWord::pack(false, 1, 0);
    words
}

fn opened(link: u16) -> Outcome {
    Outcome::Opened {
        slot: u32::from(link),
        version: 0,
        link,
    }
}

fn failed() -> Outcome {
    Outcome::CallFailed { id: 1, code: 1014 }
}

fn text_of(alloc: Global, bytes: &[u8]) -> Result<String, AllocError> {
    match str::from_utf8(bytes) {
        Ok(text) => String::from_str(alloc, text),
        Err(_) => String::from_str(alloc, "no text"),
    }
}

/// The report of each label.
pub fn report(alloc: Global, text: &str) -> Result<String, AllocError> {
    let lines = lines(alloc, text)?;
    let said = [Some(opened(0)), Some(opened(1)), None, Some(failed())];
    match print_report(alloc, &lines, &said, &words(), &[b"hh", b"b"]) {
        Ok(text) => text_of(alloc, text.as_slice()),
        Err(_) => Err(AllocError),
    }
}

/// The report where nothing was said, and no word tells a position.
pub fn untold(alloc: Global, text: &str) -> Result<String, AllocError> {
    let lines = lines(alloc, text)?;
    let words = [PlaceWord(9_223_372_036_854_775_808); 32];
    match print_report(alloc, &lines, &[None, None, None, None], &words, &[]) {
        Ok(text) => text_of(alloc, text.as_slice()),
        Err(_) => Err(AllocError),
    }
}

/// The sums, where the links told nothing of their opening.
pub fn summary(alloc: Global, text: &str) -> Result<String, AllocError> {
    let lines = lines(alloc, text)?;
    let said = [None, None, None, Some(failed())];
    let load = Load {
        seed: 7,
        clients: 2,
        operations: 1,
    };
    match print_summary(alloc, load, &lines, &said, &words()) {
        Ok(text) => text_of(alloc, text.as_slice()),
        Err(_) => Err(AllocError),
    }
}
