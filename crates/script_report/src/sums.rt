ghost use Rattle.std.specs.Prelude.{◌≡◌, ◌-◌, ◌^◌, map, unwrap_or, None};
ghost use Rattle.sock_words.specs.PackedWords.{HasPosition};
ghost use Rattle.brpc_model.specs.Items.{Send, Call};
ghost use Rattle.brpc_model.specs.PlaceWords.{HasEachOutcome, outcome_by_word, outcomes_from};
ghost use Rattle.script_items.specs.LineMeaning.{item, call_of};
ghost use Rattle.script_report.specs.RunSummary.{AreFew, one_of, together, told_of, sums_of};

use crate::words::{first_word, outcome_by_word};
use script_items::{CallLine, Line, SendLine, is_operation};
use sock_words::{Outcome, PlaceWord};

/// What became of the sends and the calls of a run: how many there were, how many sends were placed with how many bytes,
/// how many calls were answered with how many bytes of payload, and how many operations other than an `open` have
/// another outcome.
#[derive(Clone, Copy)]
pub struct Sums {
    pub sends: u64,
    pub placed: u64,
    pub placed_bytes: u128,
    pub calls: u64,
    pub answered: u64,
    pub answered_bytes: u128,
    pub other: u64,
}

/// Those of no operation.
const NONE: Sums = Sums {
    sends: 0,
    placed: 0,
    placed_bytes: 0,
    calls: 0,
    answered: 0,
    answered_bytes: 0,
    other: 0,
};

// Both together: those of fewer operations than a list may have, and those of one more.
fn together(sums: Sums, more: Sums) -> Sums
    requires few { AreFew (2 ^ 63 - 1) sums }
    requires one { AreFew 1 more }
    ensures { result ≡ together sums more }
{
    Sums {
        sends: sums.sends + more.sends,
        placed: sums.placed + more.placed,
        placed_bytes: sums.placed_bytes + more.placed_bytes,
        calls: sums.calls + more.calls,
        answered: sums.answered + more.answered,
        answered_bytes: sums.answered_bytes + more.answered_bytes,
        other: sums.other + more.other,
    }
}

// What a send counts.
fn of_send(send: &SendLine, outcome: &Outcome) -> Sums
    ensures is { result ≡ one_of (Send send.now.name send.now.bytes) outcome.now }
    ensures one { AreFew 1 result }
{
    match outcome {
        Outcome::Placed { .. } => Sums {
            sends: 1,
            placed: 1,
            placed_bytes: send.bytes.as_slice().len() as u128,
            ..NONE
        },
        _ => Sums {
            sends: 1,
            other: 1,
            ..NONE
        },
    }
}

// What a call counts.
fn of_call(call: &CallLine, outcome: &Outcome) -> Sums
    ensures is { result ≡ one_of (Call (call_of call.now)) outcome.now }
    ensures one { AreFew 1 result }
{
    match outcome {
        Outcome::Answered { payload, .. } => Sums {
            calls: 1,
            answered: 1,
            answered_bytes: payload.as_slice().len() as u128,
            ..NONE
        },
        _ => Sums {
            calls: 1,
            other: 1,
            ..NONE
        },
    }
}

// What an operation counts that has this outcome.
fn one_of(line: &Line, outcome: &Outcome) -> Sums
    ensures is { result ≡ one_of (item line.now) outcome.now }
    ensures one { AreFew 1 result }
{
    match line {
        Line::Send(send) => of_send(send, outcome),
        Line::Call(call) => of_call(call, outcome),
        Line::Open(_) => NONE,
        _ => Sums { other: 1, ..NONE },
    }
}

// What an operation counts, by what was said of it or else by its place word; nothing where neither tells.
fn told_one(line: &Line, said: &Option<Outcome>, word: PlaceWord) -> Sums
    ensures is { (said.now ≡ None → HasPosition word.0) → result ≡ one_of (item line.now) (unwrap_or said.now (outcome_by_word word.0)) }
    ensures one { AreFew 1 result }
{
    match said {
        Some(outcome) => one_of(line, outcome),
        None => match outcome_by_word(word) {
            Some(outcome) => {
                let sums = one_of(line, &outcome);
                drop(outcome);
                sums
            }
            None => NONE,
        },
    }
}

/// The sums of a run of these lines, by what was said of each operation, or else by its place word, as the report has it.
pub fn sums_of(lines: &[Line], said: &[Option<Outcome>], words: &[PlaceWord]) -> Sums
    ensures { HasEachOutcome words.now said.now → result ≡ sums_of (told_of (map item lines.now) (outcomes_from words.now 0 said.now)) }
{
    let mut sums = NONE;
    let mut operation = 0usize;
    for line in lines {
        if is_operation(line) {
            if let Some(outcome) = said.get(operation) {
                sums = together(sums, told_one(line, outcome, first_word(words, operation)));
            }
            operation = operation.saturating_add(1);
        }
    }
    sums
}
