//! What a row asks.
use crate::bytes::said_of;
use crate::execs::{ended, fault_or_ops, played};
use crate::reports::{report, summary, untold};
use crate::scripts::{drawn_seats, fault_or_count, large, printed, sizes, small};
use row_text::{expanded, number};
use script_items::{LineFault, read_line};
use std::alloc::{AllocError, Global};

/// What the call says that the row's first word names, or the row itself.
pub fn answer(alloc: Global, row: &str) -> Result<String, AllocError> {
    let Some((word, rest)) = row.split_once(" ") else {
        return String::from_str(alloc, row);
    };
    match word {
        "line" => line_said(alloc, rest),
        "generate" => generated(alloc, rest),
        "seats" => drawn_seats(alloc),
        "ended" => ended_said(alloc, rest),
        _ => said_by(alloc, row, word, rest),
    }
}

/// What stands between the quotes.
fn unquoted(quoted: &str) -> &str {
    let opened = quoted.strip_prefix("\"").unwrap_or(quoted);
    opened.strip_suffix("\"").unwrap_or(opened)
}

/// The same of a text between quotes, or of bytes.
fn said_by(alloc: Global, row: &str, word: &str, rest: &str) -> Result<String, AllocError> {
    if !rest.starts_with("\"") {
        return said_of(alloc, row, word, rest);
    }
    let text = expanded(alloc, unquoted(rest))?;
    script_said(alloc, row, word, text.as_str())
}

/// What is said of a script.
fn script_said(alloc: Global, row: &str, word: &str, text: &str) -> Result<String, AllocError> {
    match word {
        "script" => fault_or_count(alloc, text),
        "sizes" => sizes(alloc, text),
        "print" => printed(alloc, text),
        _ => report_said(alloc, row, word, text),
    }
}

/// And of its reports.
fn report_said(alloc: Global, row: &str, word: &str, text: &str) -> Result<String, AllocError> {
    match word {
        "report" => report(alloc, text),
        "untold" => untold(alloc, text),
        "summary" => summary(alloc, text),
        _ => queue_said(alloc, row, word, text),
    }
}

/// And of a script of an execution queue.
fn queue_said(alloc: Global, row: &str, word: &str, text: &str) -> Result<String, AllocError> {
    match word {
        "ops" => fault_or_ops(alloc, text),
        "exec" => played(alloc, text),
        _ => String::from_str(alloc, row),
    }
}

/// What is printed of a queue that ended, by a letter for each line.
fn ended_said(alloc: Global, rest: &str) -> Result<String, AllocError> {
    let Some((letters, quoted)) = rest.split_once(" ") else {
        return String::from_str(alloc, "no text");
    };
    let text = expanded(alloc, unquoted(quoted))?;
    ended(alloc, letters, text.as_str())
}

fn generated(alloc: Global, size: &str) -> Result<String, AllocError> {
    if size == "small" {
        small(alloc)
    } else {
        large(alloc)
    }
}

/// What is read of a line behind so many clients and as many links; of a long one that it is read.
fn line_said(alloc: Global, rest: &str) -> Result<String, AllocError> {
    let Some((count, quoted)) = rest.split_once(" ") else {
        return String::from_str(alloc, "no text");
    };
    let text = expanded(alloc, unquoted(quoted))?;
    let line = text.as_bytes();
    match read_line(alloc, number(count), number(count), line) {
        Ok(said) => {
            if line.len() < 64 {
                format!(in alloc; "{said:?}")
            } else {
                String::from_str(alloc, "a long line")
            }
        }
        Err(LineFault::Kind(kind)) => format!(in alloc; "fault {kind}"),
        Err(LineFault::NoMemory) => Err(AllocError),
    }
}
