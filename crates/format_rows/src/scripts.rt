//! What is said of whole scripts.
use script_draw::{DrawnSeats, generate};
use script_items::{Line, first_version, is_client, request_count, slot_count};
use script_lang::{Script, ScriptError, read_script};
use script_print::print_script;
use sock_io::MemSink;
use std::alloc::{AllocError, Global};
use std::str;

/// The script of a text, or what is wrong.
fn script_of(alloc: Global, text: &str) -> Result<Script, ScriptError> {
    if text.len() > 1_048_576 {
        return Err(ScriptError::Fault { line: 0, kind: 0 });
    }
    read_script(alloc, text.as_bytes())
}

/// The line and the kind of its first fault.
fn fault_said(alloc: Global, error: ScriptError) -> Result<String, AllocError> {
    match error {
        ScriptError::Fault { line, kind } => format!(in alloc; "fault {line} {kind}"),
        ScriptError::NoMemory => Err(AllocError),
    }
}

/// The first fault of a text, or how many of its lines say something.
pub fn fault_or_count(alloc: Global, text: &str) -> Result<String, AllocError> {
    match script_of(alloc, text) {
        Ok(script) => {
            let count = script.lines().len();
            format!(in alloc; "lines {count}")
        }
        Err(error) => fault_said(alloc, error),
    }
}

/// Its sizes, and the names of its links.
pub fn sizes(alloc: Global, text: &str) -> Result<String, AllocError> {
    let script = match script_of(alloc, text) {
        Ok(script) => script,
        Err(error) => return fault_said(alloc, error),
    };
    sizes_of(alloc, script.lines())
}

/// What these lines give or count, and the names of their links.
fn sizes_of(alloc: Global, lines: &[Line]) -> Result<String, AllocError> {
    let (slots, requests) = (slot_count(lines), request_count(lines));
    let first = first_version(lines);
    let clients = lines.iter().filter(|line| is_client(line)).count();
    let mut said = format!(in alloc;
        "slots {slots} requests {requests} first {first} clients {clients} links"
    )?;
    for line in lines {
        if let Line::Open(open) = line {
            let name = &open.name;
            said.push_str(format!(in alloc; " {name:?}")?.as_str())?;
        }
    }
    Ok(said)
}

/// How the script of these lines is printed.
fn text_of(alloc: Global, lines: &[Line]) -> Result<String, AllocError> {
    let Ok(mut sink) = MemSink::new(alloc, 2_000, Vec::new(alloc)) else {
        return Err(AllocError);
    };
    if print_script(alloc, lines, &mut sink).is_err() {
        return String::from_str(alloc, "not printed");
    }
    match str::from_utf8(sink.bytes()) {
        Ok(text) => String::from_str(alloc, text),
        Err(_) => String::from_str(alloc, "no text"),
    }
}

/// How the script of a text is printed.
pub fn printed(alloc: Global, text: &str) -> Result<String, AllocError> {
    match script_of(alloc, text) {
        Ok(script) => text_of(alloc, script.lines()),
        Err(error) => fault_said(alloc, error),
    }
}

/// The script that is generated of the seed 7 for a client with a round.
pub fn small(alloc: Global) -> Result<String, AllocError> {
    match generate(alloc, 7, 1, 1) {
        Ok(lines) => text_of(alloc, &lines),
        Err(_) => Err(AllocError),
    }
}

/// For two clients with five.
pub fn large(alloc: Global) -> Result<String, AllocError> {
    match generate(alloc, 7, 2, 5) {
        Ok(lines) => text_of(alloc, &lines),
        Err(_) => Err(AllocError),
    }
}

/// The first seats of two clients and three links, and how many are drawn for 4,096 operations; and of a link alone, and of
/// none, for none.
pub fn drawn_seats(alloc: Global) -> Result<String, AllocError> {
    let mut seats = DrawnSeats::new(2, 3, 1);
    let all = seats.count(4_096);
    let of_one = DrawnSeats::new(0, 1, 1).count(0);
    let of_none = DrawnSeats::new(0, 0, 1).count(0);
    let mut said = format!(in alloc; "counts {all} {of_one} {of_none} seats")?;
    'seats: for _ in 0..10u8 {
        let seat = seats.next_seat();
        said.push_str(format!(in alloc; " {seat}")?.as_str())?;
    }
    Ok(said)
}
