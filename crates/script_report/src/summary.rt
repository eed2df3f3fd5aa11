ghost use Rattle.std.specs.Prelude.{◌≡◌, map, IfOk, string_bytes};
ghost use Rattle.brpc_model.specs.PlaceWords.{HasEachOutcome, outcomes_from};
ghost use Rattle.script_items.specs.LineMeaning.{item};
ghost use Rattle.script_report.specs.RunSummary.{told_of, sums_of, load_line, sends_line, calls_line, last_lines, summary_text};

use crate::sums::{Sums, sums_of};
use script_items::Line;
use sock_words::{Outcome, PlaceWord};
use std::alloc::{AllocError, Global};

/// Of which drawn script a run is summed up: `load SEED CLIENTS OPS`.
#[derive(Clone, Copy)]
pub struct Load {
    pub seed: u32,
    pub clients: u32,
    pub operations: u32,
}

// `load SEED CLIENTS OPS`.
fn load_line(alloc: Global, load: Load) -> Result<String, AllocError>
    ensures { IfOk result (λ text. string_bytes text ≡ load_line load.seed load.clients load.operations) }
{
    format!(in alloc; "load {} {} {}\n", load.seed, load.clients, load.operations)
}

// `sends N placed P bytes B`.
fn sends_line(alloc: Global, sums: &Sums) -> Result<String, AllocError>
    ensures { IfOk result (λ text. string_bytes text ≡ sends_line sums.now) }
{
    format!(in alloc;
        "sends {} placed {} bytes {}\n",
        sums.sends, sums.placed, sums.placed_bytes
    )
}

// `calls N answered A bytes B`.
fn calls_line(alloc: Global, sums: &Sums) -> Result<String, AllocError>
    ensures { IfOk result (λ text. string_bytes text ≡ calls_line sums.now) }
{
    format!(in alloc;
        "calls {} answered {} bytes {}\n",
        sums.calls, sums.answered, sums.answered_bytes
    )
}

// `other N`, and `end`.
fn last_lines(alloc: Global, other: u64) -> Result<String, AllocError>
    ensures { IfOk result (λ text. string_bytes text ≡ last_lines other) }
{
    format!(in alloc; "other {other}\nend\n")
}

// The lines of a summary.
fn summary_lines(alloc: Global, load: Load, sums: &Sums) -> Result<Vec<u8>, AllocError>
    ensures { IfOk result (λ text. text.items ≡ summary_text load.seed load.clients load.operations sums.now) }
{
    let mut text = Vec::new(alloc);
    text.extend_from_slice(load_line(alloc, load)?.as_bytes())?;
    text.extend_from_slice(sends_line(alloc, sums)?.as_bytes())?;
    text.extend_from_slice(calls_line(alloc, sums)?.as_bytes())?;
    text.extend_from_slice(last_lines(alloc, sums.other)?.as_bytes())?;
    Ok(text)
}

/// The summary of a run of a drawn script: its sends and how many are placed, its calls and how many are answered, with
/// their bytes, and how many other operations than an `open` have another outcome.
///
/// `said` and `words` are those of its report, and the summary has the numbers that the report shows.
pub fn print_summary(
    alloc: Global,
    load: Load,
    lines: &[Line],
    said: &[Option<Outcome>],
    words: &[PlaceWord],
) -> Result<Vec<u8>, AllocError>
    ensures { IfOk result (λ text. HasEachOutcome words.now said.now → text.items ≡ summary_text load.seed load.clients load.operations (sums_of (told_of (map item lines.now) (outcomes_from words.now 0 said.now)))) }
{
    summary_lines(alloc, load, &sums_of(lines, said, words))
}
