//! What a row asks of bytes.
use crate::frames::{cut, fed_again, printed, served};
use crate::metas::meta_said;
use crate::wires::{fields_said, varint_said, within_said, written};
use std::alloc::{AllocError, Global};

/// The bytes of these digits, none for other letters.
fn bytes_of(alloc: Global, digits: &str) -> Vec<u8> {
    match hex::decode(alloc, digits.as_bytes()) {
        Ok(bytes) => bytes,
        Err(_) => Vec::new(alloc),
    }
}

/// What the call says that the word names, or the row itself.
pub fn said_of(alloc: Global, row: &str, word: &str, rest: &str) -> Result<String, AllocError> {
    match word {
        "number" => written(alloc, rest.parse::<u64>().unwrap_or(0)),
        "stream" => printed(alloc, bytes_of(alloc, rest), 200),
        "full" => printed(alloc, bytes_of(alloc, rest), 0),
        "cut" => cut_said(alloc, row, rest),
        "serve" => served_said(alloc, row, rest),
        _ => bytes_said(alloc, row, word, bytes_of(alloc, rest).as_slice()),
    }
}

/// The same of all bytes at once.
fn bytes_said(alloc: Global, row: &str, word: &str, bytes: &[u8]) -> Result<String, AllocError> {
    match word {
        "varint" => varint_said(alloc, bytes),
        "fields" => fields_said(alloc, bytes),
        "within" => within_said(alloc, bytes),
        "meta" => meta_said(alloc, bytes),
        "again" => fed_again(alloc, bytes),
        _ => String::from_str(alloc, row),
    }
}

/// The size of the pieces that the bytes come in, and the bytes.
fn pieces_of(alloc: Global, rest: &str) -> Option<(usize, Vec<u8>)> {
    let (size, digits) = rest.split_once(" ")?;
    Some((size.parse::<usize>().unwrap_or(0), bytes_of(alloc, digits)))
}

/// What the cutter says of bytes that come in pieces of so many.
fn cut_said(alloc: Global, row: &str, rest: &str) -> Result<String, AllocError> {
    match pieces_of(alloc, rest) {
        Some((size, bytes)) => cut(alloc, bytes.as_slice(), size),
        None => String::from_str(alloc, row),
    }
}

/// And what a server does.
fn served_said(alloc: Global, row: &str, rest: &str) -> Result<String, AllocError> {
    match pieces_of(alloc, rest) {
        Some((size, bytes)) => served(alloc, bytes.as_slice(), size),
        None => String::from_str(alloc, row),
    }
}
