ghost use Rattle.std.specs.Prelude.{◌≡◌, ◌++◌, take, codes, decimal, Some, OnOk};
ghost use Rattle.script_report.specs.ReportLines.{label_at, label_words, labels_text, link_text, order_text, link_lines_text};

use crate::operations::OperationPlace;
use crate::writing::push_pair;
use script_items::{push_hex_word, push_number};
use std::alloc::{AllocError, Global};

/// How many of the bytes that a link took are shown.
const HEAD: usize = 32;

/// The label of a message, as a report tells it: the number of its operation in the whole script, counted from 0, and
/// its attempt.
#[derive(Clone, Copy)]
pub struct ReportLabel {
    pub operation: usize,
    pub attempt: u8,
}

// The front of the bytes.
fn front_of(bytes: &[u8], count: usize) -> &[u8]
    ensures { result.now ≡ take count bytes.now }
{
    match bytes.get(..count) {
        Some(front) => front,
        None => bytes,
    }
}

// Appends `link K NAME`.
fn push_front(text: &mut Vec<u8>, link: usize, name: &[u8]) -> Result<(), AllocError>
    ensures { OnOk result (text.new.items ≡ text.old.items ++ (codes "link " ++ decimal link ++ codes " " ++ name.now)) }
{
    text.extend_from_slice(b"link ")?;
    push_number(text, link as u64)?;
    text.extend_from_slice(b" ")?;
    text.extend_from_slice(name)
}

// Appends a word and a number.
fn push_count(text: &mut Vec<u8>, name: &[u8], count: usize) -> Result<(), AllocError>
    ensures { OnOk result (text.new.items ≡ text.old.items ++ (name.now ++ decimal count)) }
{
    text.extend_from_slice(name)?;
    push_number(text, count as u64)
}

// Appends the first line of a link.
fn push_counts(
    alloc: Global,
    text: &mut Vec<u8>,
    link: usize,
    name: &[u8],
    accepted: usize,
    placed: usize,
    took: &[u8],
) -> Result<(), AllocError>
    ensures { OnOk result (text.new.items ≡ text.old.items ++ link_text link name.now accepted placed took.now) }
{
    push_front(text, link, name)?;
    push_count(text, b" accepted ", accepted)?;
    push_count(text, b" placed ", placed)?;
    push_count(text, b" took ", took.len())?;
    push_hex_word(alloc, text, front_of(took, HEAD))?;
    text.extend_from_slice(b"\n")
}

// Appends `C.I.A`.
fn push_attempt(text: &mut Vec<u8>, place: OperationPlace, attempt: u8) -> Result<(), AllocError>
    ensures { OnOk result (text.new.items ≡ text.old.items ++ label_at (Some place) attempt) }
{
    push_pair(text, place.client as u64, b'.', place.number as u64)?;
    text.extend_from_slice(b".")?;
    push_number(text, u64::from(attempt))
}

// Appends the label of an accepted message, where there is such an operation.
fn push_label(
    text: &mut Vec<u8>,
    places: &[OperationPlace],
    accepted: ReportLabel,
) -> Result<(), AllocError>
    ensures { OnOk result (text.new.items ≡ text.old.items ++ label_words places.now accepted) }
{
    match places.get(accepted.operation) {
        Some(place) => push_attempt(text, *place, accepted.attempt),
        None => Ok(()),
    }
}

// Appends the labels in order.
fn push_labels(
    text: &mut Vec<u8>,
    places: &[OperationPlace],
    order: &[ReportLabel],
) -> Result<(), AllocError>
    ensures { OnOk result (text.new.items ≡ text.old.items ++ labels_text places.now order.now) }
{
    for accepted in order {
        text.extend_from_slice(b" ")?;
        push_label(text, places, *accepted)?;
    }
    Ok(())
}

// Appends the second line of a link.
fn push_order(
    text: &mut Vec<u8>,
    places: &[OperationPlace],
    link: usize,
    order: &[ReportLabel],
) -> Result<(), AllocError>
    ensures { OnOk result (text.new.items ≡ text.old.items ++ order_text places.now link order.now) }
{
    text.extend_from_slice(b"order ")?;
    push_number(text, link as u64)?;
    push_labels(text, places, order)?;
    text.extend_from_slice(b"\n")
}

/// Appends both lines of a link.
pub fn push_link(
    alloc: Global,
    text: &mut Vec<u8>,
    places: &[OperationPlace],
    link: usize,
    name: &[u8],
    order: &[ReportLabel],
    placed: usize,
    took: &[u8],
) -> Result<(), AllocError>
    ensures { OnOk result (text.new.items ≡ text.old.items ++ link_lines_text places.now link name.now order.now placed took.now) }
{
    push_counts(alloc, text, link, name, order.len(), placed, took)?;
    push_order(text, places, link, order)
}
