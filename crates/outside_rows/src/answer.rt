//! What a row asks of the top call, and what that answers.
ghost use Rattle.brpc_eng.specs.ProgramAnswers.{UnusedLinker};

use brpc_further::{further, further_alone, may_wait};
use sock_io::{Gate, Linker, MemSink, MemSource};
use std::alloc::{AllocError, Global};
use std::str;
use std::sync::Wait;
use std::thread::Threads;

/// What a row states: the calls that fail, counted from 1 (0: none), of its streams and of its links, how much the sink takes, the
/// words and the input.
#[derive(Drop)]
pub struct Asked {
    pub read: u64,
    pub write: u64,
    pub room: usize,
    pub open: u32,
    pub put: u32,
    pub words: Vec<String>,
    pub input: Vec<u8>,
}

/// The status of a command, and what it wrote.
#[derive(Drop)]
pub struct Answer {
    pub status: u8,
    pub written: Vec<u8>,
}

/// The answer to it over these links, through this gate.
pub fn answered<R: Threads + Wait + Sync + Alloc<A = Global>, L: Linker, G: Gate + Sync>(
    rt: &R,
    asked: Asked,
    links: &mut L,
    gate: &G,
) -> Result<Answer, AllocError>
    requires unused { UnusedLinker (L.state links.old) }
{
    let alloc = rt.alloc();
    let reads = vec![in alloc; asked.read]?;
    let writes = vec![in alloc; asked.write]?;
    let mut source = MemSource::new(asked.input, reads);
    let Ok(mut out) = MemSink::new(alloc, asked.room, writes) else {
        return Err(AllocError);
    };
    let words = asked.words.as_slice();
    let status = if may_wait(words) {
        further(rt, alloc, words, &mut source, &mut out, links, gate)
    } else {
        further_alone(alloc, words, &mut source, &mut out, links)
    };
    let written = Vec::from_slice(alloc, out.bytes())?;
    Ok(Answer { status, written })
}

/// The status, and behind it what was written, `|` for the end of a line.
pub fn shown(alloc: Global, answer: &Answer) -> Result<String, AllocError> {
    let status = answer.status;
    let mut said = format!(in alloc; "{status}|")?;
    match str::from_utf8(answer.written.as_slice()) {
        Ok(text) => push_lines(&mut said, text)?,
        Err(_) => said.push_str("no text")?,
    }
    Ok(said)
}

fn push_lines(said: &mut String, text: &str) -> Result<(), AllocError> {
    for letter in text.chars() {
        said.push(if letter == '\n' { '|' } else { letter })?;
    }
    Ok(())
}
