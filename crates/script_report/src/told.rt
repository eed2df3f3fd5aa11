ghost use Rattle.std.specs.Prelude.{◌≡◌, ◌*◌, ◌++◌, map, None, IfOk, OnOk};
ghost use Rattle.brpc_model.specs.Operations.{link_names};
ghost use Rattle.sock_words.specs.PackedWords.{HasPosition};
ghost use Rattle.script_items.specs.LineMeaning.{item};
ghost use Rattle.script_report.specs.ReportLines.{outcome_text_line, outcome_text_lines};
ghost use Rattle.brpc_model.specs.PlaceWords.{word_at, ArePlaces, HasEachOutcome, outcome_of, outcomes_from, took_at, IsReportText};
ghost use Rattle.script_report.specs.OrderRows.{row_at, rows_text};

use crate::links::{ReportLabel, push_link};
use crate::operations::{OperationPlace, places_of, push_outcome_line};
use crate::orders::orders_of;
use crate::words::{count_placed, first_word, outcome_by_word};
use script_items::Line;
use sock_words::{Outcome, PlaceWord};
use std::alloc::{AllocError, Global};

/// How many bytes the line of an operation has, as a guess.
const LINE_ROOM: usize = 24;

// Appends the line of an operation, by what was said of it or else by its place word; none where neither tells.
fn push_told_line(
    alloc: Global,
    text: &mut Vec<u8>,
    place: OperationPlace,
    operation: usize,
    said: &Option<Outcome>,
    words: &[PlaceWord],
) -> Result<(), AllocError>
    ensures { OnOk result ((said.now ≡ None → HasPosition (word_at words.now (8 * operation))) → text.new.items ≡ text.old.items ++ outcome_text_line place (outcome_of words.now operation said.now)) }
{
    match said {
        Some(outcome) => push_outcome_line(alloc, text, place, outcome),
        None => match outcome_by_word(first_word(words, operation)) {
            Some(outcome) => {
                let pushed = push_outcome_line(alloc, text, place, &outcome);
                drop(outcome);
                pushed
            }
            None => Ok(()),
        },
    }
}

// Appends the lines of all operations.
fn push_told(
    alloc: Global,
    text: &mut Vec<u8>,
    operations: &[OperationPlace],
    said: &[Option<Outcome>],
    words: &[PlaceWord],
) -> Result<(), AllocError>
    ensures { OnOk result (HasEachOutcome words.now said.now → text.new.items ≡ text.old.items ++ outcome_text_lines operations.now (outcomes_from words.now 0 said.now)) }
{
    let mut operation = 0usize;
    for outcome in said {
        let Some(place) = operations.get(operation) else {
            return Ok(());
        };
        push_told_line(alloc, text, *place, operation, outcome, words)?;
        operation = operation.saturating_add(1);
    }
    Ok(())
}

// The order of a link.
fn row_at(orders: &[Vec<ReportLabel>], link: usize) -> &[ReportLabel]
    ensures { result.now ≡ row_at (map (λ row. row.items) orders.now) link }
{
    match orders.get(link) {
        Some(order) => order.as_slice(),
        None => &[],
    }
}

// What a link took.
fn took_at<'a>(took: &[&'a [u8]], link: usize) -> &'a [u8]
    ensures { result.now ≡ took_at (map (λ bytes. bytes.now) took.now) link }
{
    match took.get(link) {
        Some(bytes) => *bytes,
        None => &[],
    }
}

// Appends the lines of all links.
fn push_rows(
    alloc: Global,
    text: &mut Vec<u8>,
    operations: &[OperationPlace],
    lines: &[Line],
    words: &[PlaceWord],
    orders: &[Vec<ReportLabel>],
    took: &[&[u8]],
) -> Result<(), AllocError>
    ensures { OnOk result (text.new.items ≡ text.old.items ++ rows_text operations.now words.now (map (λ row. row.items) orders.now) (map (λ bytes. bytes.now) took.now) 0 (link_names (map item lines.now))) }
{
    let mut link = 0usize;
    for line in lines {
        if let Line::Open(open) = line {
            let order = row_at(orders, link);
            let placed = count_placed(words, order);
            push_link(
                alloc,
                text,
                operations,
                link,
                open.name.as_slice(),
                order,
                placed,
                took_at(took, link),
            )?;
            link = link.saturating_add(1);
        }
    }
    Ok(())
}

/// The report of a run of these lines: of each operation the outcome that was said, or else that of its message, and of
/// each link the labels that it accepted, how many of them are placed, and what it took.
///
/// `said` has an entry for each operation in the order of the script, `words` eight place words for each of them, one for
/// each attempt, and `took` an entry for each link. An operation of which nothing was said and whose word tells no
/// position gets no line. Where the words are places, its time is linear in the lines, the words and the text.
pub fn print_report(
    alloc: Global,
    lines: &[Line],
    said: &[Option<Outcome>],
    words: &[PlaceWord],
    took: &[&[u8]],
) -> Result<Vec<u8>, AllocError>
    ensures { IfOk result (λ text. ArePlaces words.now → HasEachOutcome words.now said.now → IsReportText (map item lines.now) said.now words.now (map (λ bytes. bytes.now) took.now) text.items) }
{
    let operations = places_of(alloc, lines)?;
    let orders = orders_of(alloc, lines, words)?;
    let mut text = Vec::with_capacity(alloc, said.len().saturating_mul(LINE_ROOM))?;
    push_told(alloc, &mut text, &operations, said, words)?;
    push_rows(alloc, &mut text, &operations, lines, words, &orders, took)?;
    text.extend_from_slice(b"end\n")?;
    Ok(text)
}
