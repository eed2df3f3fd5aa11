// A script on threads whose links are read beside its clients, from its links to its report.
ghost use Rattle.std.specs.Prelude.{◌≡◌, ◌≤◌, ◌<◌, ◌+◌, ◌++◌, ℕ, List, Ok, true, false, [], map, length, All, IfOk, OnOk, IsErrOf};
ghost use Rattle.std.specs.List.{list_all, flat_map, AllByRecursion};
ghost use Rattle.brpc_model.specs.Script.{script_of};
ghost use Rattle.brpc_model.specs.Operations.{link_names};
ghost use Rattle.sock_io.specs.declared.link.Ends.{Ends};
ghost use Rattle.sock_io.specs.FaultCauses.{Rose};
ghost use Rattle.sock_io.specs.LinkHalves.{end_of};
ghost use Rattle.sock_io.specs.MeetingOnOneThread.{AreEnds};
ghost use Rattle.script_links.specs.OpenedLinkEnds.{AreOpened};
ghost use Rattle.script_links.specs.LinksGivenBack.{AreNumbered, AreUntouched, IsBeginning, SameConnections, has_piece, specs_of};
ghost use Rattle.seat_programs.specs.Tasks.{plan_of, calls};
ghost use Rattle.call_run.specs.CrewOfRun.{AreLeft};
ghost use Rattle.call_run.specs.link_crew.specs.ComparedLinkEnds.{MetBelow};
ghost use Rattle.script_parts.specs.ThreadScriptTold.{IsReported, outcomes_of};
ghost use Rattle.script_threads.specs.GaveWhatWasOffered.{GaveOffers};
ghost use Rattle.script_threads.specs.ServedLinksOfReport.{IsServedText};
ghost use Rattle.script_threads.specs.ServedScriptTold.{seated_ids, HasEnded, IsLeftByThreads, IsThreadsRun, IsThreadsText};
ghost use Rattle.sock_words.specs.Totals.{total};

use crate::ending::end_calls;
use call_run::{NoneBeside, Ran, RanBeside, meet_all, run_beside};
use corr_id::{IdSeat, IdTable};
use prpc_frame::Frame;
use rpc_client::Told;
use script_lang::Script;
use script_links::{give_back, open_links};
use script_parts::{
    Halves, NoMemory, Ready, join, or_no_memory, outcomes_of, part, prepare, report,
};
use sock_io::{Ends, Gate, In, Linker, Mode, OpenFault, Out, Peer};
use sock_message::Call;
use sock_words::{PlaceWord, Plan};
use std::alloc::Global;
use std::sync::Wait;
use std::thread::Threads;

/// What the clients of a run left, and what the readers of its links left behind it, but for the halves of the links.
#[derive(Drop)]
struct Left {
    told: Vec<Vec<Told>>,
    ended: Vec<Vec<Told>>,
    places: Vec<PlaceWord>,
    ids: IdTable<Call>,
    seats: Vec<IdSeat<Call>>,
    read: Vec<Vec<Told>>,
    readers: Vec<IdSeat<Call>>,
    kept: Vec<Vec<Frame>>,
}

/// The sizes of the tables with a seat more for the reader of each link.
fn seated(plan: &Plan, links: usize) -> Plan
    requires { links + plan.now.seats ≤ 64 }
    ensures { result ≡ record plan.now { seats = links + plan.now.seats } }
{
    Plan {
        seats: links as u16 + plan.seats,
        ..*plan
    }
}

/// The report of a run over these links, once no call is left: those of these numbers.
fn finish<O: Out, I: In, P: Peer, R: Wait>(
    rt: &R,
    alloc: Global,
    script: &Script,
    operations: u16,
    numbers: &[u16],
    left: Left,
    ends: &[Ends<O, I, P>],
) -> Result<Vec<u8>, NoMemory>
    requires seats { AreLeft left.ids.table.shared.table_id (left.seats.items ++ left.readers.items) }
    requires all { total (λ s. s.me.0.share) (left.seats.items ++ left.readers.items) ≡ left.ids.plan.seats }
    requires some { (1 ≤ left.ids.plan.seats) × (1 ≤ left.ids.plan.operations) }
    requires calls { All (λ o. o < left.ids.plan.operations) numbers.now }
    requires script { (bytes : List ℕ) × (script_of bytes ≡ Ok script.now) }
    requires plan { (operations ≡ (plan_of script.now).operations) × (left.ids.plan ≡ seated_ids script.now) × (numbers.now ≡ calls script.now) }
    requires ran { IsLeftByThreads O.Out O.state script.now (map (λ own. own.items) left.told.items) (map (λ own. own.items) left.ended.items) (map (λ own. own.items) left.read.items) (map (λ own. own.items) left.kept.items) left.places.items left.seats.items left.readers.items }
    ensures { IfOk result (λ text. (last : List Told) × HasEnded (seated_ids script.now) (calls script.now) (left.seats.items ++ left.readers.items) (flat_map (λ fs. fs) (map (λ own. own.items) left.kept.items)) last
        × IsReported script.now text.items (outcomes_of operations (map (λ own. own.items) left.told.items) (map (λ own. own.items) left.ended.items ++ map (λ own. own.items) left.read.items) last) left.places.items (map (λ e. end_of (O.state e.out) (I.state e.inn)) ends.now)) }
{
    let Left {
        told,
        mut ended,
        places,
        ids,
        mut seats,
        mut read,
        mut readers,
        kept,
    } = left;
    seats.append(&mut readers)?;
    ended.append(&mut read)?;
    let last = end_calls(rt, alloc, ids, seats, numbers, kept)?;
    let said = outcomes_of(alloc, operations, told, ended, last)?;
    report(alloc, script, &said, &places, ends)
}

/// The ends of each link are compared, and the links are given back, in order. They show what they showed before.
fn meet_and_give_back<L: Linker>(links: &mut L, mut ends: Vec<Ends<L::O, L::I, L::P>>)
    requires ends { All (λ e. AreEnds (L.O.state e.out) (L.P.state e.peer) (L.I.state e.inn)) ends.items }
    requires numbered { AreNumbered 0 (map (λ e. end_of (L.O.state e.out) (L.I.state e.inn)) ends.items) }
    requires opened { length (L.state links.old).asked ≡ length ends.items }
    requires back { (L.state links.old).back ≡ [] }
    requires few { length ends.items ≤ 256 }
    ensures back { (L.state links.new).back ≡ map (λ e. end_of (L.O.state e.out) (L.I.state e.inn)) ends.items }
    ensures numbered { AreNumbered 0 (L.state links.new).back }
    ensures met { (met : List (Ends L.O L.I L.P)) × (length met ≡ length ends.items) × MetBelow L.O.state L.P.state L.I.state (length ends.items) ends.items met × ((L.state links.new).back ≡ map (λ e. end_of (L.O.state e.out) (L.I.state e.inn)) met) }
    ensures asked { (L.state links.new).asked ≡ (L.state links.old).asked }
    ensures faults { (L.state links.new).faults ≡ (L.state links.old).faults }
    ensures always_ready { (L.state links.new).always_ready ≡ (L.state links.old).always_ready }
    ensures connections { SameConnections (L.state links.old) (L.state links.new) }
{
    meet_all(links, &mut ends);
    give_back(links, ends);
}

/// Runs a script over its links, compares their ends, and gives them back.
fn run_over<L: Linker, G: Gate + Sync, R: Threads + Wait + Sync>(
    rt: &R,
    alloc: Global,
    script: &Script,
    links: &mut L,
    ends: Vec<Ends<L::O, L::I, L::P>>,
    gate: &G,
) -> Result<Vec<u8>, OpenFault>
    requires script { (bytes : List ℕ) × (script_of bytes ≡ Ok script.now) }
    requires untouched { AreUntouched 0 (map (λ e. end_of (L.O.state e.out) (L.I.state e.inn)) ends.items) }
    requires unfinished { AllByRecursion (λ (e : Ends L.O L.I L.P). (L.O.state e.out).finished ≡ false) ends.items }
    requires ends { AreOpened L.tells_in L.O.state L.P.state L.I.state (L.state links.old).asked ends.items }
    requires all { length ends.items ≡ length (link_names script.now) }
    requires few { length ends.items ≤ 256 }
    requires opened { length (L.state links.old).asked ≡ length ends.items }
    requires back { (L.state links.old).back ≡ [] }
    ensures ran { IfOk result (λ text. IsThreadsRun L.P L.O.Out L.O.state L.I.state script.now text.items (L.state links.new).back) }
    ensures gave { OnOk result (GaveOffers L.tells_in (L.state links.old).asked (L.state links.new).back) }
    ensures back { length (L.state links.new).back ≡ length ends.items }
    ensures numbered { AreNumbered 0 (L.state links.new).back }
    ensures asked { (L.state links.new).asked ≡ (L.state links.old).asked }
    ensures faults { (L.state links.new).faults ≡ (L.state links.old).faults }
    ensures always_ready { (L.state links.new).always_ready ≡ (L.state links.old).always_ready }
    ensures connections { SameConnections (L.state links.old) (L.state links.new) }
    ensures known { IsErrOf result OpenFault.Failed → ⊥ }
{
    let count = ends.len();
    let Ok(ready) = prepare(alloc, script, count) else {
        give_back(links, ends);
        return Err(OpenFault::NoMemory);
    };
    let Ready {
        plan,
        slots,
        setup,
        clients,
        opens,
        calls,
        mut halves,
    } = ready;
    part(ends, &mut halves);
    let Halves {
        outs,
        rests,
        mut back,
    } = halves;
    let plan = seated(&plan, count);
    match run_beside(
        rt, alloc, &plan, slots, setup, clients, &opens, &calls, outs, rests, gate,
    ) {
        Ok(
            RanBeside {
                ran,
                rests,
                ids: readers,
                told: read,
                early: kept,
            },
        ) => {
            let Ran {
                told,
                ended,
                places,
                vrefs: _,
                outs,
                ids,
                seats,
            } = ran;
            join(outs, rests, &mut back);
            let left = Left {
                told,
                ended,
                places,
                ids,
                seats,
                read,
                readers,
                kept,
            };
            let text = finish(rt, alloc, script, plan.operations, &calls, left, &back);
            meet_and_give_back(links, back);
            or_no_memory(text)
        }
        Err(NoneBeside { outs, rests }) => {
            join(outs, rests, &mut back);
            give_back(links, back);
            Err(OpenFault::NoMemory)
        }
    }
}

/// Runs a script on threads, with its calls, its links read beside its clients: the text of its report. It may wait for ever, as a
/// client does that waits for a call that nobody ends.
///
/// Its links are opened in order and all given back, in order, whatever becomes of the run. Where one can't be opened, nothing
/// is run, and nothing is put on the others.
pub fn run_on_threads<L: Linker, G: Gate + Sync, R: Threads + Wait + Sync>(
    rt: &R,
    alloc: Global,
    mode: Mode,
    script: &Script,
    links: &mut L,
    gate: &G,
) -> Result<Vec<u8>, OpenFault>
    requires script { (bytes : List ℕ) × (script_of bytes ≡ Ok script.now) }
    requires pieces { list_all has_piece script.now ≡ true }
    requires asked { (L.state links.old).asked ≡ [] }
    requires back { (L.state links.old).back ≡ [] }
    ensures ran { IfOk result (λ text. IsThreadsRun L.P L.O.Out L.O.state L.I.state script.now text.items (L.state links.new).back) }
    ensures text { IfOk result (λ text. IsThreadsText script.now text.items (L.state links.new).back) }
    ensures gave { OnOk result (GaveOffers L.tells_in (specs_of mode script.now) (L.state links.new).back) }
    ensures served { IfOk result (λ text. IsServedText (L.tells_in mode ≡ true) script.now text.items (L.state links.new).back) }
    ensures unopened { IsErrOf result OpenFault.Failed → AreUntouched 0 (L.state links.new).back }
    ensures all { OnOk result (length (L.state links.new).back ≡ length (link_names script.now)) }
    ensures asked { OnOk result ((L.state links.new).asked ≡ specs_of mode script.now) }
    ensures front { IsBeginning (L.state links.new).asked (specs_of mode script.now) }
    ensures given_back { length (L.state links.new).back ≡ length (L.state links.new).asked }
    ensures numbered { AreNumbered 0 (L.state links.new).back }
    ensures always_ready { (L.state links.new).always_ready ≡ (L.state links.old).always_ready }
    ensures connections { SameConnections (L.state links.old) (L.state links.new) }
    ensures later { (L.state links.old).faults ≤ (L.state links.new).faults }
    ensures failed { IsErrOf result OpenFault.Failed → Rose (L.state links.old).faults (L.state links.new).faults }
    ensures kept { (¬ IsErrOf result OpenFault.Failed) → (L.state links.new).faults ≡ (L.state links.old).faults }
{
    let mut ends = Vec::new(alloc);
    match open_links(mode, script.lines(), links, &mut ends) {
        Ok(()) => run_over(rt, alloc, script, links, ends, gate),
        Err(fault) => {
            give_back(links, ends);
            Err(fault)
        }
    }
}
