//! What a row asks.
use crate::answer::Asked;
use crate::over::{
    back_of_rings, back_of_sinks, both, over_between, over_connection, over_crowd, over_given,
    over_held, over_loops, over_meeting, over_rings, over_sinks,
};
use row_text::expanded;
use std::alloc::{AllocError, Global};
use std::sync::Wait;
use std::thread::Threads;

/// What the call says over the links that the row's first word names, or the row itself.
pub fn said<R: Threads + Wait + Sync + Alloc<A = Global>>(
    rt: &R,
    row: &str,
) -> Result<String, AllocError> {
    let Some((word, rest)) = row.split_once(" ") else {
        return String::from_str(rt.alloc(), row);
    };
    match word {
        "#" => String::from_str(rt.alloc(), row),
        "race" => one_of(rt, rest),
        "both" => both_said(rt, rest),
        "bytes" => bytes_said(rt, rest),
        "given" => given_said(rt, rest),
        "connection" => connection_said(rt, rest),
        _ => over(rt, word, asked_by(rt.alloc(), rest)?),
    }
}

/// The same where the row states the words and the input.
fn over<R: Threads + Wait + Sync + Alloc<A = Global>>(
    rt: &R,
    word: &str,
    asked: Asked,
) -> Result<String, AllocError> {
    match word {
        "sinks" => over_sinks(rt, asked),
        "loops" => over_loops(rt, asked),
        "rings" => over_rings(rt, asked),
        "back" => back_of_sinks(rt, asked),
        "back-rings" => back_of_rings(rt, asked),
        "crowd" => over_crowd(rt, asked),
        "held" => over_held(rt, asked),
        "together" => over_meeting(rt, asked),
        "between" => over_between(rt, asked),
        _ => String::from_str(rt.alloc(), "no such links"),
    }
}

/// The bytes of these digits, none for other letters.
fn bytes_of(alloc: Global, digits: &str) -> Vec<u8> {
    match hex::decode(alloc, digits.as_bytes()) {
        Ok(bytes) => bytes,
        Err(_) => Vec::new(alloc),
    }
}

/// The words of a command.
fn words_of(alloc: Global, text: &str) -> Result<Vec<String>, AllocError> {
    let mut words = Vec::new(alloc);
    for word in text.split(' ') {
        words.push(String::from_str(alloc, word)?)?;
    }
    Ok(words)
}

/// These words over this input, with room for all, where nothing fails.
pub fn asked_in(alloc: Global, words: &str, input: Vec<u8>) -> Result<Asked, AllocError> {
    let words = words_of(alloc, words)?;
    Ok(Asked {
        read: 0,
        write: 0,
        room: 8192,
        open: 0,
        put: 0,
        words,
        input,
    })
}

/// Of a row: the numbers of the read and the write that fail, the room, the numbers of the `open` and the put that fail, and
/// then between quotes the words, and the input.
fn asked_by(alloc: Global, rest: &str) -> Result<Asked, AllocError> {
    let mut parts = rest.split('"');
    let mut numbers = parts.next().unwrap_or("").split(' ');
    let words = words_of(alloc, parts.next().unwrap_or(""))?;
    let _ = parts.next();
    let input = expanded(alloc, parts.next().unwrap_or(""))?.into_bytes();
    Ok(Asked {
        read: u64::from(number(numbers.next())),
        write: u64::from(number(numbers.next())),
        room: size(numbers.next()),
        open: number(numbers.next()),
        put: number(numbers.next()),
        words,
        input,
    })
}

/// The number of these digits, 0 for others.
fn number(digits: Option<&str>) -> u32 {
    match digits {
        Some(digits) => row_text::number(digits),
        None => 0,
    }
}

fn size(digits: Option<&str>) -> usize {
    match digits {
        Some(digits) => digits.parse::<usize>().unwrap_or(0),
        None => 0,
    }
}

/// That the answer is one of those that stand between quotes behind the input, or it.
fn one_of<R: Threads + Wait + Sync + Alloc<A = Global>>(
    rt: &R,
    rest: &str,
) -> Result<String, AllocError> {
    let alloc = rt.alloc();
    let said = over_rings(rt, asked_by(alloc, rest)?)?;
    for text in rest.split('"') {
        if text == said.as_str() {
            return String::from_str(alloc, "one of these");
        }
    }
    Ok(said)
}

/// What is said of a stream of these bytes.
fn bytes_said<R: Threads + Wait + Sync + Alloc<A = Global>>(
    rt: &R,
    digits: &str,
) -> Result<String, AllocError> {
    let alloc = rt.alloc();
    over_sinks(rt, asked_in(alloc, "frames", bytes_of(alloc, digits))?)
}

/// How a script ends step by step and on threads.
fn both_said<R: Threads + Wait + Sync + Alloc<A = Global>>(
    rt: &R,
    script: &str,
) -> Result<String, AllocError> {
    let alloc = rt.alloc();
    let by_steps = asked_in(alloc, "replay", expanded(alloc, script)?.into_bytes())?;
    let threads = asked_in(alloc, "run", expanded(alloc, script)?.into_bytes())?;
    both(rt, by_steps, threads)
}

/// What becomes of a call over a link whose other end gives these bytes once the request was taken.
fn given_said<R: Threads + Wait + Sync + Alloc<A = Global>>(
    rt: &R,
    digits: &str,
) -> Result<String, AllocError> {
    let alloc = rt.alloc();
    let script = Vec::from_slice(alloc, b"open a\nclient\ncall a Echo.Echo 6869\n")?;
    let asked = asked_in(alloc, "replay", script)?;
    over_given(rt, asked, bytes_of(alloc, digits))
}

/// What `serve` answers to a connection that gives these bytes.
fn connection_said<R: Threads + Wait + Sync + Alloc<A = Global>>(
    rt: &R,
    digits: &str,
) -> Result<String, AllocError> {
    let alloc = rt.alloc();
    let asked = asked_in(alloc, "serve 1 1", Vec::new(alloc))?;
    over_connection(rt, asked, bytes_of(alloc, digits))
}
