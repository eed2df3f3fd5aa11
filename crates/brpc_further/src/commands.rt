ghost use Rattle.std.specs.Prelude.{◌≡◌, map, string_bytes, false};
ghost use Rattle.script_links.specs.OfferedLinks.{TellOffers};
ghost use Rattle.brpc_eng.specs.script_run.specs.Played.{TellClosed};
ghost use Rattle.brpc_eng.specs.ProgramAnswers.{UnusedLinker, CountsStand, faults_over, linker_over, sink_over, source_over};
ghost use Rattle.brpc_further.specs.FurtherAnswers.{FurtherAnswers, FurtherAnswersAlone, may_wait, usage_text};

use brpc_eng::{asks_to_wait, brpc, brpc_alone};
use sock_io::{Gate, Linker, Sink, Source};
use std::alloc::Global;
use std::sync::Wait;
use std::thread::Threads;

/// What words are told that ask for no command: the form of each.
fn usage() -> &'static str
    ensures { result.now ≡ usage_text }
{
    "usage: replay | sim SEED | run [PORT] | gen SEED CLIENTS OPS | load SEED CLIENTS OPS | frames | serve PORT N\n"
}

/// Whether the words ask for a command that may wait for ever. Others are called by `further_alone`, which ends.
pub fn may_wait(words: &[String]) -> bool
    ensures { result ≡ may_wait (map string_bytes words.now) }
{
    asks_to_wait(words)
}

/// All that the program does, as `brpc` says of each command.
pub fn further<R: Threads + Wait + Sync, S: Source, K: Sink, L: Linker, G: Gate + Sync>(
    rt: &R,
    alloc: Global,
    words: &[String],
    source: &mut S,
    out: &mut K,
    links: &mut L,
    gate: &G,
) -> u8
    requires unused { UnusedLinker (L.state links.old) }
    ensures answers { FurtherAnswers (map string_bytes words.now) (source_over (S.state source.old) (S.state source.new)) (sink_over (K.state out.old) (K.state out.new)) (linker_over (TellClosed L.I.state) (TellOffers L.goes_by_shape L.O.state L.I.state) L.tells_in (L.state links.old) (L.state links.new)) result }
    ensures counts { CountsStand (faults_over (S.state source.old).faults (S.state source.new).faults) (faults_over (L.state links.old).faults (L.state links.new).faults) result }
{
    brpc(rt, alloc, usage(), words, source, out, links, gate)
}

/// The same where the words ask for nothing that may wait. It has no right to wait, so it ends.
pub fn further_alone<S: Source, K: Sink, L: Linker>(
    alloc: Global,
    words: &[String],
    source: &mut S,
    out: &mut K,
    links: &mut L,
) -> u8
    requires alone { may_wait (map string_bytes words.now) ≡ false }
    requires unused { UnusedLinker (L.state links.old) }
    ensures answers { FurtherAnswersAlone (map string_bytes words.now) (source_over (S.state source.old) (S.state source.new)) (sink_over (K.state out.old) (K.state out.new)) (linker_over (TellClosed L.I.state) (TellOffers L.goes_by_shape L.O.state L.I.state) L.tells_in (L.state links.old) (L.state links.new)) result }
    ensures counts { CountsStand (faults_over (S.state source.old).faults (S.state source.new).faults) (faults_over (L.state links.old).faults (L.state links.new).faults) result }
{
    brpc_alone(alloc, usage(), words, source, out, links)
}
