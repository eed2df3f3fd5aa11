// The report of a run.
ghost use Rattle.std.specs.Prelude.{◌≡◌, Ok, IfOk, IfSome, IsErrOf, map};
ghost use Rattle.brpc_model.specs.PlaceWords.{ArePlaces, HasEachOutcome};
ghost use Rattle.sock_io.specs.declared.link.Ends.{Ends};
ghost use Rattle.sock_io.specs.LinkHalves.{end_of};
ghost use Rattle.script_parts.specs.HalvesApartAndTogether.{AreTaken};
ghost use Rattle.script_parts.specs.ThreadScriptTold.{IsReported, outcomes_of};

use crate::saying::said_of;
use rpc_client::Told;
use script_lang::{NoMemory, Script};
use script_report::print_report;
use sock_io::{Ends, In, OpenFault, Out, Peer};
use sock_words::{Outcome, PlaceWord};
use std::alloc::{AllocError, Global};

/// What became of so many operations, by what each client told of its own, what each told of the calls that it ended, and what was
/// told of those that main ended.
pub fn outcomes_of(
    alloc: Global,
    operations: u16,
    told: Vec<Vec<Told>>,
    mut ended: Vec<Vec<Told>>,
    read: Vec<Told>,
) -> Result<Vec<Option<Outcome>>, AllocError>
    ensures { IfOk result (λ said. said.items ≡ outcomes_of operations (map (λ own. own.items) told.items) (map (λ own. own.items) ended.items) read.items) }
{
    let mut all = told;
    all.append(&mut ended)?;
    all.push(read)?;
    said_of(alloc, operations, all)
}

/// What a link took, as it tells.
fn taken<O: Out, I: In, P: Peer>(link: &Ends<O, I, P>) -> &[u8]
    ensures { IfSome (O.state link.now.out).took (λ bytes. result.now ≡ bytes) }
{
    link.out.taken()
}

/// What each link took, as it tells.
fn taken_by<O: Out, I: In, P: Peer>(
    alloc: Global,
    ends: &[Ends<O, I, P>],
) -> Result<Vec<&[u8]>, AllocError>
    ensures { IfOk result (λ took. AreTaken (λ (e : Ends O I P). O.state e.out) ends.now (map (λ bytes. bytes.now) took.items)) }
{
    let mut took = Vec::new(alloc);
    'takes: for link in ends {
        took.push(taken(link))?;
    }
    Ok(took)
}

/// The text of the report of these outcomes and place words.
pub fn report<O: Out, I: In, P: Peer>(
    alloc: Global,
    script: &Script,
    said: &[Option<Outcome>],
    places: &[PlaceWord],
    ends: &[Ends<O, I, P>],
) -> Result<Vec<u8>, NoMemory>
    requires places { ArePlaces places.now }
    requires each { HasEachOutcome places.now said.now }
    ensures { IfOk result (λ text. IsReported script.now text.items said.now places.now (map (λ e. end_of (O.state e.out) (I.state e.inn)) ends.now)) }
{
    let took = taken_by(alloc, ends)?;
    let text = print_report(alloc, script.lines(), said, places, &took)?;
    Ok(text)
}

/// The text, unless memory was wanting.
pub fn or_no_memory(text: Result<Vec<u8>, NoMemory>) -> Result<Vec<u8>, OpenFault>
    ensures ok { IfOk result (λ t. text ≡ Ok t) }
    ensures known { IsErrOf result OpenFault.Failed → ⊥ }
{
    match text {
        Ok(text) => Ok(text),
        Err(NoMemory) => Err(OpenFault::NoMemory),
    }
}
