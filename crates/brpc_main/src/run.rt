ghost use Rattle.std.specs.Prelude.{◌≡◌, map, string_bytes, false};
ghost use Rattle.std.specs.Process.{exit_status};
ghost use Rattle.script_links.specs.OfferedLinks.{TellOffers};
ghost use Rattle.brpc_eng.specs.script_run.specs.Played.{TellClosed};
ghost use Rattle.brpc_eng.specs.ProgramAnswers.{UnusedLinker, Wrote, linker_over, sink_over, source_over};
ghost use Rattle.brpc_further.specs.FurtherAnswers.{FurtherAnswers, FurtherAnswersAlone, may_wait};
ghost use Rattle.script_reasons.specs.KeptSource.{kept_of};
ghost use Rattle.brpc_main.specs.EarlyEndReasons.{Explained, status_text};

use crate::reasons::{explain, explain_status};
use brpc_further::{further, further_alone};
use script_reasons::Kept;
use sock_io::{Gate, Linker, Sink, Source};
use std::alloc::Global;
use std::process::ExitCode;
use std::sync::Wait;
use std::thread::Threads;

/// The status of want of memory.
const NO_MEMORY: u8 = 7;

/// Does what the words ask for, and ends with the number that the top call answers. Why it ends with a number that the output
/// doesn't explain is written to `errors`, in one line.
pub fn run_with<
    R: Threads + Wait + Sync,
    S: Source + Drop,
    K: Sink,
    L: Linker,
    G: Gate + Sync,
    E: Sink,
>(
    rt: &R,
    alloc: Global,
    words: &[String],
    source: &mut Kept<S>,
    out: &mut K,
    links: &mut L,
    gate: &G,
    errors: &mut E,
) -> ExitCode
    requires unused { UnusedLinker (L.state links.old) }
    ensures answers { FurtherAnswers (map string_bytes words.now) (source_over (S.state source.old.inner) (S.state source.new.inner)) (sink_over (K.state out.old) (K.state out.new)) (linker_over (TellClosed L.I.state) (TellOffers L.goes_by_shape L.O.state L.I.state) L.tells_in (L.state links.old) (L.state links.new)) (exit_status result) }
    ensures explained { Explained (sink_over (E.state errors.old) (E.state errors.new)) (map string_bytes words.now) (kept_of source.new) (exit_status result) }
{
    let status = further(rt, alloc, words, source, out, links, gate);
    ended(alloc, status, words, source, errors)
}

/// The same where the words ask for nothing that may wait. It has no right to wait, so it ends.
pub fn run_alone<S: Source + Drop, K: Sink, L: Linker, E: Sink>(
    alloc: Global,
    words: &[String],
    source: &mut Kept<S>,
    out: &mut K,
    links: &mut L,
    errors: &mut E,
) -> ExitCode
    requires alone { may_wait (map string_bytes words.now) ≡ false }
    requires unused { UnusedLinker (L.state links.old) }
    ensures answers { FurtherAnswersAlone (map string_bytes words.now) (source_over (S.state source.old.inner) (S.state source.new.inner)) (sink_over (K.state out.old) (K.state out.new)) (linker_over (TellClosed L.I.state) (TellOffers L.goes_by_shape L.O.state L.I.state) L.tells_in (L.state links.old) (L.state links.new)) (exit_status result) }
    ensures explained { Explained (sink_over (E.state errors.old) (E.state errors.new)) (map string_bytes words.now) (kept_of source.new) (exit_status result) }
{
    let status = further_alone(alloc, words, source, out, links);
    ended(alloc, status, words, source, errors)
}

/// Says why the program ends with this number, and ends with it.
fn ended<S: Source + Drop, E: Sink>(
    alloc: Global,
    status: u8,
    words: &[String],
    source: &Kept<S>,
    errors: &mut E,
) -> ExitCode
    ensures code { exit_status result ≡ status }
    ensures explained { Explained (sink_over (E.state errors.old) (E.state errors.new)) (map string_bytes words.now) (kept_of source.now) (exit_status result) }
{
    explain(alloc, errors, words, source, status);
    ExitCode::from(status)
}

/// Says that memory ran out before the words were had, and ends with 7.
pub fn out_of_memory<E: Sink>(errors: &mut E) -> ExitCode
    ensures code { exit_status result ≡ 7 }
    ensures explained { Wrote (sink_over (E.state errors.old) (E.state errors.new)) (status_text 7) }
{
    explain_status(errors, NO_MEMORY);
    ExitCode::from(NO_MEMORY)
}
