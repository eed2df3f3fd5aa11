// What the program does where it waits for nobody.
ghost use Rattle.std.specs.Prelude.{◌≡◌, map, string_bytes, false};
ghost use Rattle.script_links.specs.OfferedLinks.{TellOffers};
ghost use Rattle.script_run.specs.Played.{TellClosed};
ghost use Rattle.brpc_eng.specs.CommandWords.{asks_to_wait};
ghost use Rattle.brpc_eng.specs.ProgramAnswers.{UnusedLinker, AnswersAlone, CountsStand, Wrote, faults_over, linker_over, sink_over, source_over};
ghost use Rattle.brpc_eng.specs.StatusNumbers.{number_of};

use crate::commands::{Command, read_command};
use crate::frames::frames;
use crate::generated::print_generated;
use crate::load::load;
use crate::replay::{replay, write_answer};
use crate::status::Status;
use script_run::Schedule;
use sock_io::{Linker, Sink, Source};
use std::alloc::Global;

/// What `brpc` does where the words ask for nothing that may wait. It has no right to wait, so it ends.
pub fn brpc_alone<S: Source, K: Sink, L: Linker>(
    alloc: Global,
    usage: &str,
    words: &[String],
    source: &mut S,
    out: &mut K,
    links: &mut L,
) -> u8
    requires alone { asks_to_wait (map string_bytes words.now) ≡ false }
    requires unused { UnusedLinker (L.state links.old) }
    ensures answers { AnswersAlone usage.now (map string_bytes words.now) (source_over (S.state source.old) (S.state source.new)) (sink_over (K.state out.old) (K.state out.new)) (linker_over (TellClosed L.I.state) (TellOffers L.goes_by_shape L.O.state L.I.state) L.tells_in (L.state links.old) (L.state links.new)) result }
    ensures counts { CountsStand (faults_over (S.state source.old).faults (S.state source.new).faults) (faults_over (L.state links.old).faults (L.state links.new).faults) result }
{
    answer_alone(alloc, usage, words, source, out, links).number()
}

/// What the words ask for is done.
pub fn answer_alone<S: Source, K: Sink, L: Linker>(
    alloc: Global,
    usage: &str,
    words: &[String],
    source: &mut S,
    out: &mut K,
    links: &mut L,
) -> Status
    requires alone { asks_to_wait (map string_bytes words.now) ≡ false }
    requires unused { UnusedLinker (L.state links.old) }
    ensures answers { AnswersAlone usage.now (map string_bytes words.now) (source_over (S.state source.old) (S.state source.new)) (sink_over (K.state out.old) (K.state out.new)) (linker_over (TellClosed L.I.state) (TellOffers L.goes_by_shape L.O.state L.I.state) L.tells_in (L.state links.old) (L.state links.new)) (number_of result) }
    ensures counts { CountsStand (faults_over (S.state source.old).faults (S.state source.new).faults) (faults_over (L.state links.old).faults (L.state links.new).faults) (number_of result) }
{
    match read_command(words) {
        None => tell_usage(usage, out),
        Some(command) => match command {
            Command::Replay => replay(alloc, source, out, links, Schedule::Own),
            Command::Sim(seed) => {
                replay(alloc, source, out, links, Schedule::Drawn(u64::from(seed)))
            }
            Command::Gen(draw) => print_generated(alloc, &draw, out),
            Command::Load(draw) => load(alloc, &draw, out, links),
            Command::Frames => frames(alloc, source, out),
            Command::Run(_) => unreachable!(),
            Command::Serve(_) => unreachable!(),
        },
    }
}

/// Writes the usage text.
fn tell_usage<K: Sink>(usage: &str, out: &mut K) -> Status
    ensures told { Wrote (sink_over (K.state out.old) (K.state out.new)) usage.now }
    ensures wrong { number_of result ≡ 2 }
{
    write_answer(out, usage.as_bytes());
    Status::WrongWords
}
