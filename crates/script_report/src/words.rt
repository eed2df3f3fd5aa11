ghost use Rattle.std.specs.Prelude.{◌≡◌, ◌*◌, ◌↔◌, IsTrue, Some, None};
ghost use Rattle.sock_words.specs.PackedWords.{HasPosition};
ghost use Rattle.script_report.specs.ReportLines.{label_of};
ghost use Rattle.brpc_model.specs.PlaceWords.{word_at, is_placed, outcome_by_word};
ghost use Rattle.script_report.specs.OrderRows.{label_at, placed_in};

use crate::links::ReportLabel;
use sock_words::{Outcome, PlaceWord};

/// How many place words an operation has, one for each attempt.
const ATTEMPTS: usize = 8;

// The place word of this number, and none behind the last.
fn word_at(words: &[PlaceWord], number: usize) -> PlaceWord
    ensures { result.0 ≡ word_at words.now number }
{
    match words.get(number) {
        Some(word) => *word,
        None => PlaceWord::NONE,
    }
}

/// The place word of an operation's first attempt.
pub fn first_word(words: &[PlaceWord], operation: usize) -> PlaceWord
    ensures { result.0 ≡ word_at words.now (8 * operation) }
{
    word_at(words, operation.saturating_mul(ATTEMPTS))
}

/// The label of the place word of this number.
pub fn label_at(number: usize) -> ReportLabel
    ensures { result ≡ label_at number }
{
    ReportLabel {
        operation: number / ATTEMPTS,
        attempt: (number % ATTEMPTS) as u8,
    }
}

// Whether a label's message wasn't dropped.
fn is_placed(words: &[PlaceWord], label: ReportLabel) -> bool
    ensures { result ≡ is_placed words.now (label_of label) }
{
    let number = label
        .operation
        .saturating_mul(ATTEMPTS)
        .saturating_add(usize::from(label.attempt));
    !word_at(words, number).dropped()
}

/// How many of these messages weren't dropped.
pub fn count_placed(words: &[PlaceWord], order: &[ReportLabel]) -> usize
    ensures { result ≡ placed_in words.now order.now }
{
    order
        .iter()
        .filter(|label| is_placed(words, **label))
        .count()
}

/// Whether the word tells a position.
pub fn has_position(word: PlaceWord) -> bool
    ensures { IsTrue result ↔ HasPosition word.0 }
{
    word.0 % 4_294_967_296 > 0
}

/// What became of a message that was accepted; nothing where the word tells no position.
pub fn outcome_by_word(word: PlaceWord) -> Option<Outcome>
    ensures some { HasPosition word.0 → result ≡ Some (outcome_by_word word.0) }
    ensures none { (HasPosition word.0 → ⊥) → result ≡ None }
{
    if !has_position(word) {
        return None;
    }
    let link = word.link();
    let position = word.position();
    let outcome = if word.dropped() {
        Outcome::Dropped { link, position }
    } else {
        Outcome::Placed { link, position }
    };
    Some(outcome)
}
