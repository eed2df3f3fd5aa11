ghost use Rattle.std.specs.Prelude.{◌≡◌, ◌≤◌, ℕ, List, Ok, true, false, [], map, length, IfOk, IfSome, OnOk, IsOk, IsErrOf};
ghost use Rattle.std.specs.List.{list_all, AllByRecursion};
ghost use Rattle.brpc_model.specs.Script.{script_of};
ghost use Rattle.brpc_model.specs.Operations.{link_names};
ghost use Rattle.brpc_model.specs.PlaceWords.{ArePlaces, HasEachOutcome, AreTold};
ghost use Rattle.sock_io.specs.declared.link.Ends.{Ends};
ghost use Rattle.sock_io.specs.FaultCauses.{OpenCause};
ghost use Rattle.sock_io.specs.LinkHalves.{end_of};
ghost use Rattle.script_links.specs.LinksGivenBack.{AreNumbered, AreUntouched, IsBeginning, SameConnections, has_piece, specs_of};
ghost use Rattle.script_links.specs.OfferedLinks.{AreAsked, TellOffers};
ghost use Rattle.script_run.specs.Played.{IsPrintOf, IsPrinted, TellClosed, turns_of};

use crate::outline::Outline;
use crate::report::{Print, report};
use crate::schedule::{Schedule, play};
use script_lang::Script;
use script_links::{give_back, open_links};
use sock_core::{Finished, Machine, NotMade, Prepared};
use sock_io::{Ends, In, Linker, Mode, NoMemory, OpenFault, Out, Peer};
use sock_words::{Outcome, PlaceWord};
use std::alloc::Global;

/// Runs a script by a schedule: the text of its report, or of its summary.
///
/// Its links are opened in order and all given back, in order, whatever becomes of the run. Where one can't be opened,
/// nothing is run, and nothing is put on the others.
pub fn run_script<L: Linker>(
    alloc: Global,
    script: Script,
    schedule: Schedule,
    print: Print,
    links: &mut L,
) -> Result<Vec<u8>, OpenFault>
    requires script { (bytes : List ℕ) × (script_of bytes ≡ Ok script) }
    requires pieces { list_all has_piece script ≡ true }
    requires asked { (L.state links.old).asked ≡ [] }
    requires back { (L.state links.old).back ≡ [] }
    ensures text { IfOk result (λ text. (L.state links.old).always_ready ≡ true → TellClosed L.I.state → IsPrinted (TellOffers L.goes_by_shape L.O.state L.I.state) print script (turns_of script schedule) text.items (L.state links.new).back) }
    ensures unopened { IsErrOf result OpenFault.Failed → AreUntouched 0 (L.state links.new).back }
    ensures all { OnOk result (length (L.state links.new).back ≡ length (link_names script)) }
    // What is asked of the links is what the lines of the script ask, all of it unless one could not be opened.
    ensures asked { OnOk result ((L.state links.new).asked ≡ specs_of Mode.Loop script) }
    ensures front { IsBeginning (L.state links.new).asked (specs_of Mode.Loop script) }
    ensures given_back { length (L.state links.new).back ≡ length (L.state links.new).asked }
    ensures numbered { AreNumbered 0 (L.state links.new).back }
    ensures always_ready { (L.state links.new).always_ready ≡ (L.state links.old).always_ready }
    ensures connections { SameConnections (L.state links.old) (L.state links.new) }
    ensures cause { OpenCause (L.state links.old).faults (L.state links.new).faults result }
{
    let mut ends = Vec::new(alloc);
    let opened = open_links(Mode::Loop, script.lines(), links, &mut ends);
    match opened {
        Ok(()) => match run_over(alloc, script, schedule, print, links, ends) {
            Ok(text) => Ok(text),
            Err(NoMemory) => Err(OpenFault::NoMemory),
        },
        Err(fault) => {
            give_back(links, ends);
            Err(fault)
        }
    }
}

/// What a machine wants of a script, and what the run wants of it besides.
fn prepare(alloc: Global, script: Script) -> Result<(Prepared, Outline), NoMemory>
    requires { (bytes : List ℕ) × (script_of bytes ≡ Ok script) }
    ensures { IfOk result (λ both. (both.0 ≡ script) × (both.1 ≡ script)) }
{
    let prepared = Prepared::of(alloc, &script)?;
    let outline = Outline::of(alloc, script, prepared.plan())?;
    Ok((prepared, outline))
}

/// Runs a script over its links, and gives them back.
fn run_over<L: Linker>(
    alloc: Global,
    script: Script,
    schedule: Schedule,
    print: Print,
    links: &mut L,
    ends: Vec<Ends<L::O, L::I, L::P>>,
) -> Result<Vec<u8>, NoMemory>
    requires script { (bytes : List ℕ) × (script_of bytes ≡ Ok script) }
    requires untouched { AreUntouched 0 (map (λ e. end_of (L.O.state e.out) (L.I.state e.inn)) ends.items) }
    requires unfinished { AllByRecursion (λ (e : Ends L.O L.I L.P). (L.O.state e.out).finished ≡ false) ends.items }
    requires unclosed { AllByRecursion (λ (e : Ends L.O L.I L.P). IfSome (L.I.state e.inn).closing (λ closing. closing ≡ false)) ends.items }
    requires always_ready { (L.state links.old).always_ready ≡ true → AllByRecursion (λ (e : Ends L.O L.I L.P). (L.O.state e.out).always_ready ≡ true) ends.items }
    requires offers { TellOffers L.goes_by_shape L.O.state L.I.state → AreAsked L.goes_by_shape (specs_of Mode.Loop script) (map (λ e. L.O.state e.out) ends.items) (map (λ e. L.I.state e.inn) ends.items) }
    requires all { length ends.items ≡ length (link_names script) }
    requires few { length ends.items ≤ 256 }
    requires opened { length (L.state links.old).asked ≡ length ends.items }
    requires back { (L.state links.old).back ≡ [] }
    ensures text { IfOk result (λ text. (L.state links.old).always_ready ≡ true → TellClosed L.I.state → IsPrinted (TellOffers L.goes_by_shape L.O.state L.I.state) print script (turns_of script schedule) text.items (L.state links.new).back) }
    ensures back { length (L.state links.new).back ≡ length ends.items }
    ensures numbered { AreNumbered 0 (L.state links.new).back }
    ensures asked { (L.state links.new).asked ≡ (L.state links.old).asked }
    ensures faults { (L.state links.new).faults ≡ (L.state links.old).faults }
    ensures always_ready { (L.state links.new).always_ready ≡ (L.state links.old).always_ready }
    ensures connections { SameConnections (L.state links.old) (L.state links.new) }
{
    // Behind this its lines aren't there any more.
    let Ok((prepared, outline)) = prepare(alloc, script) else {
        give_back(links, ends);
        return Err(NoMemory);
    };
    let mut machine = match Machine::of(alloc, prepared, ends) {
        Ok(machine) => machine,
        Err(NotMade { ends: unused }) => {
            give_back(links, unused);
            return Err(NoMemory);
        }
    };
    let played = play(&mut machine, links, &outline, schedule);
    let Finished {
        outcomes,
        places,
        ends,
    } = machine.finish();
    let text = report_played(alloc, outline, print, played, &outcomes, &places, &ends);
    give_back(links, ends);
    text
}

/// The report of a run that was played, or its summary, by what it left.
fn report_played<O: Out, I: In, P: Peer>(
    alloc: Global,
    script: Outline,
    print: Print,
    played: Result<(), NoMemory>,
    outcomes: &[Option<Outcome>],
    places: &[PlaceWord],
    ends: &[Ends<O, I, P>],
) -> Result<Vec<u8>, NoMemory>
    requires script { (bytes : List ℕ) × (script_of bytes ≡ Ok script) }
    ensures played { IsOk result → IsOk played }
    ensures text { IfOk result (λ text. ArePlaces places.now → HasEachOutcome places.now outcomes.now →
        (took : List (List ℕ)) × AreTold (map (λ e. end_of (O.state e.out) (I.state e.inn)) ends.now) took × IsPrintOf print script outcomes.now places.now took text.items) }
{
    if played.is_err() {
        return Err(NoMemory);
    }
    let text = report(alloc, script, print, outcomes, places, ends)?;
    Ok(text)
}
