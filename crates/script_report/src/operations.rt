ghost use Rattle.std.specs.Prelude.{◌≡◌, ◌++◌, map, codes, decimal, IfOk, OnOk};
ghost use Rattle.sock_words.specs.OutcomeText.{outcome_text};
ghost use Rattle.sock_words.specs.PrintedWords.{word, hex_text};
ghost use Rattle.brpc_model.specs.Operations.{operations};
ghost use Rattle.script_items.specs.LineMeaning.{item};
ghost use Rattle.script_report.specs.ReportLines.{place_of, outcome_text_line};

use crate::writing::push_pair;
use script_items::{Line, is_operation, push_hex_word, push_number, push_number_word};
use sock_words::Outcome;
use std::alloc::{AllocError, Global};

/// An operation's client, 0 for the setup, and its number there, counted from 1.
#[derive(Clone, Copy)]
pub struct OperationPlace {
    pub client: usize,
    pub number: usize,
}

/// The places of all operations of a script, in its order.
pub fn places_of(alloc: Global, lines: &[Line]) -> Result<Vec<OperationPlace>, AllocError>
    ensures { IfOk result (λ places. places.items ≡ map place_of (operations (map item lines.now))) }
{
    let mut places = Vec::with_capacity(alloc, lines.len())?;
    let mut client = 0usize;
    let mut number = 1usize;
    for line in lines {
        if matches!(line, Line::Client) {
            client = client.saturating_add(1);
            number = 1;
        } else if is_operation(line) {
            places.push(OperationPlace { client, number })?;
            number = number.saturating_add(1);
        }
    }
    Ok(places)
}

// A word, a link and a position there.
fn push_position(
    text: &mut Vec<u8>,
    name: &[u8],
    link: u16,
    position: u32,
) -> Result<(), AllocError>
    ensures { OnOk result (text.new.items ≡ text.old.items ++ (name.now ++ decimal link ++ word (decimal position))) }
{
    text.extend_from_slice(name)?;
    push_pair(text, u64::from(link), b' ', u64::from(position))
}

// A space, and an outcome as it displays itself.
fn push_displayed(alloc: Global, text: &mut Vec<u8>, outcome: &Outcome) -> Result<(), AllocError>
    ensures { OnOk result (text.new.items ≡ text.old.items ++ word (outcome_text outcome.now)) }
{
    let words = format!(in alloc; " {outcome}")?;
    text.extend_from_slice(words.as_bytes())
}

// A space, and the socket that an `open` made.
fn push_opened(text: &mut Vec<u8>, slot: u32, version: u32, link: u16) -> Result<(), AllocError>
    ensures { OnOk result (text.new.items ≡ text.old.items
        ++ word (codes "open" ++ word (decimal slot) ++ word (decimal version) ++ word (decimal link))) }
{
    text.extend_from_slice(b" open ")?;
    push_pair(text, u64::from(slot), b' ', u64::from(version))?;
    push_number_word(text, u64::from(link))
}

// A space, and the answer to a call.
fn push_answered(
    alloc: Global,
    text: &mut Vec<u8>,
    id: u64,
    payload: &[u8],
    attachment: &[u8],
) -> Result<(), AllocError>
    ensures { OnOk result (text.new.items ≡ text.old.items
        ++ word (codes "call" ++ word (decimal id) ++ codes " answered" ++ word (hex_text payload.now) ++ word (hex_text attachment.now))) }
{
    text.extend_from_slice(b" call ")?;
    push_number(text, id)?;
    text.extend_from_slice(b" answered")?;
    push_hex_word(alloc, text, payload)?;
    push_hex_word(alloc, text, attachment)
}

// A space and an outcome. Those that a run has by the thousand are written with no memory of their own.
fn push_outcome(alloc: Global, text: &mut Vec<u8>, outcome: &Outcome) -> Result<(), AllocError>
    ensures { OnOk result (text.new.items ≡ text.old.items ++ word (outcome_text outcome.now)) }
{
    match outcome {
        Outcome::Opened {
            slot,
            version,
            link,
        } => push_opened(text, *slot, *version, *link),
        Outcome::SlotsFull => text.extend_from_slice(b" slots full"),
        Outcome::Placed { link, position } => push_position(text, b" placed ", *link, *position),
        Outcome::Dropped { link, position } => push_position(text, b" dropped ", *link, *position),
        Outcome::Answered {
            id,
            payload,
            attachment,
        } => push_answered(alloc, text, *id, payload.as_slice(), attachment.as_slice()),
        _ => push_displayed(alloc, text, outcome),
    }
}

/// Appends `C.I OUTCOME`.
pub fn push_outcome_line(
    alloc: Global,
    text: &mut Vec<u8>,
    place: OperationPlace,
    outcome: &Outcome,
) -> Result<(), AllocError>
    ensures { OnOk result (text.new.items ≡ text.old.items ++ outcome_text_line place outcome.now) }
{
    push_pair(text, place.client as u64, b'.', place.number as u64)?;
    push_outcome(alloc, text, outcome)?;
    text.extend_from_slice(b"\n")
}
