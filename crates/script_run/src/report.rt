ghost use Rattle.std.specs.Prelude.{◌≡◌, ℕ, List, Ok, IfOk, IfSome, map};
ghost use Rattle.brpc_model.specs.Script.{script_of};
ghost use Rattle.brpc_model.specs.PlaceWords.{ArePlaces, HasEachOutcome, AreTold};
ghost use Rattle.script_items.specs.LineMeaning.{item};
ghost use Rattle.sock_io.specs.LinkHalves.{end_of};
ghost use Rattle.script_run.specs.Played.{IsPrintOf};

use crate::outline::Outline;
use script_items::Line;
use script_report::{Load, print_report, print_summary};
use sock_io::{Ends, In, Out, Peer};
use sock_words::{Outcome, PlaceWord};
use std::alloc::{AllocError, Global};

/// What is printed of a run.
#[derive(Clone, Copy)]
pub enum Print {
    /// Its report.
    Report,
    /// The summary of a run of a drawn script.
    Summary(Load),
}

/// What a link took, as it tells.
fn taken<O: Out, I: In, P: Peer>(ends: &Ends<O, I, P>) -> &[u8]
    ensures { IfSome (end_of (O.state ends.now.out) (I.state ends.now.inn)).took (λ bytes. result.now ≡ bytes) }
{
    ends.out.taken()
}

/// What each link took, as it tells.
fn taken_by<'a, O: Out, I: In, P: Peer>(
    alloc: Global,
    ends: &'a [Ends<O, I, P>],
) -> Result<Vec<&'a [u8]>, AllocError>
    ensures { IfOk result (λ took. AreTold (map (λ e. end_of (O.state e.out) (I.state e.inn)) ends.now) (map (λ bytes. bytes.now) took.items)) }
{
    let mut took = Vec::new(alloc);
    for link in ends {
        took.push(taken(link))?;
    }
    Ok(took)
}

/// What is to be printed of a run of these lines, by what was said and the place words that it left.
fn printed(
    alloc: Global,
    print: Print,
    lines: &[Line],
    said: &[Option<Outcome>],
    places: &[PlaceWord],
    took: &[&[u8]],
) -> Result<Vec<u8>, AllocError>
    ensures { IfOk result (λ text. ArePlaces places.now → HasEachOutcome places.now said.now → IsPrintOf print (map item lines.now) said.now places.now (map (λ bytes. bytes.now) took.now) text.items) }
{
    match print {
        Print::Report => print_report(alloc, lines, said, places, took),
        Print::Summary(load) => print_summary(alloc, load, lines, said, places),
    }
}

/// The report of a run, or its summary, by the outcomes, the place words and the links that it left.
pub fn report<O: Out, I: In, P: Peer>(
    alloc: Global,
    script: Outline,
    print: Print,
    outcomes: &[Option<Outcome>],
    places: &[PlaceWord],
    ends: &[Ends<O, I, P>],
) -> Result<Vec<u8>, AllocError>
    requires script { (bytes : List ℕ) × (script_of bytes ≡ Ok script) }
    ensures { IfOk result (λ text. ArePlaces places.now → HasEachOutcome places.now outcomes.now →
        (took : List (List ℕ)) × AreTold (map (λ e. end_of (O.state e.out) (I.state e.inn)) ends.now) took × IsPrintOf print script outcomes.now places.now took text.items) }
{
    let lines = script.into_lines(alloc)?;
    let took = taken_by(alloc, ends)?;
    printed(alloc, print, &lines, outcomes, places, &took)
}
