ghost use Rattle.std.specs.Prelude.{◌≡◌, ◌⊎◌, Result, String, map, string_bytes, false};
ghost use Rattle.std.specs.Process.{exit_status};
ghost use Rattle.std.specs.declared.alloc.Global.{Global};
ghost use Rattle.std.specs.declared.io.Error.{Error};
ghost use Rattle.std.specs.declared.vec.IntoIter.{IntoIter};
ghost use Rattle.brpc_eng.specs.ProgramAnswers.{UnusedLinker};
ghost use Rattle.brpc_further.specs.FurtherAnswers.{may_wait};
ghost use Rattle.brpc_main.specs.CommandLineWords.{words_behind};
ghost use Rattle.brpc_main.specs.ProgramEnding.{Ends, EndsAlone, EndsBy};

use crate::arguments::{all_of, behind_first, is_serve};
use crate::run::{out_of_memory, run_alone, run_with};
use brpc_further::may_wait;
use loop_link::{LoopIn, LoopLinker};
use net_link::{TcpHalf, TcpIn, TcpLinker};
use prog_link::{ProgIn, ProgLinker, ProgOut};
use script_reasons::Kept;
use sock_io::{In, Linker, MemOut, OpenGate, Out, Shaped, StdEdge};
use std::alloc::Global;
use std::env::{Args, Env};
use std::net::{Net, TcpListener, TcpStream};
use std::process::ExitCode;
use std::sync::Wait;
use std::thread::Threads;
use std::{env, io};

/// The program over its standard streams, with the arguments that it was started with: what std reads of these no contract says, so
/// here they are some arguments, and `run_arguments` is the program at any.
pub fn run_program<
    R: Threads
        + Wait
        + Sync
        + Alloc<A = Global>
        + Env
        + Input
        + Print
        + Net<Stream = TcpStream, Listener = TcpListener>,
    E: Print,
>(rt: &R, errors: &E) -> ExitCode
    ensures { (args : Result (IntoIter (String Global) Global) Error) × ((exit_status result ≡ 7) ⊎ EndsBy (EndsAlone ⟦<LoopLinker as Linker>⟧.goes_by_shape ⟦<Shaped<MemOut> as Out>⟧.state ⟦<LoopIn as In>⟧.state ⟦<LoopLinker as Linker>⟧.tells_in) (Ends ⟦<ProgLinker<&'static R> as Linker>⟧.goes_by_shape ⟦<ProgOut as Out>⟧.state ⟦<ProgIn as In>⟧.state ⟦<ProgLinker<&'static R> as Linker>⟧.tells_in) (Ends ⟦<TcpLinker<&'static R> as Linker>⟧.goes_by_shape ⟦<TcpHalf as Out>⟧.state ⟦<TcpIn as In>⟧.state ⟦<TcpLinker<&'static R> as Linker>⟧.tells_in) (words_behind args) (exit_status result)) }
{
    run_arguments(rt, env::args(rt), errors)
}

/// The program with these arguments. Its words are those behind the first, which is the program's name, byte for byte; arguments that
/// can't be had as text are no words. Where memory runs out for the list of words it ends with 7, and nothing is read, written or
/// opened.
pub fn run_arguments<
    R: Threads
        + Wait
        + Sync
        + Alloc<A = Global>
        + Input
        + Print
        + Net<Stream = TcpStream, Listener = TcpListener>,
    E: Print,
>(rt: &R, args: io::Result<Args>, errors: &E) -> ExitCode
    ensures { (exit_status result ≡ 7) ⊎ EndsBy (EndsAlone ⟦<LoopLinker as Linker>⟧.goes_by_shape ⟦<Shaped<MemOut> as Out>⟧.state ⟦<LoopIn as In>⟧.state ⟦<LoopLinker as Linker>⟧.tells_in) (Ends ⟦<ProgLinker<&'static R> as Linker>⟧.goes_by_shape ⟦<ProgOut as Out>⟧.state ⟦<ProgIn as In>⟧.state ⟦<ProgLinker<&'static R> as Linker>⟧.tells_in) (Ends ⟦<TcpLinker<&'static R> as Linker>⟧.goes_by_shape ⟦<TcpHalf as Out>⟧.state ⟦<TcpIn as In>⟧.state ⟦<TcpLinker<&'static R> as Linker>⟧.tells_in) (words_behind args) (exit_status result) }
{
    match all_of(rt.alloc(), args) {
        Ok(args) => run_words(rt, behind_first(&args), errors),
        Err(_) => out_of_memory(&mut StdEdge::new(io::writer(errors))),
    }
}

/// The program with these words, over links of the kind that they ask for: over TCP where they are `serve` ones, over rings or TCP
/// where they are other ones that may wait, and else in memory.
fn run_words<
    R: Threads
        + Wait
        + Sync
        + Alloc<A = Global>
        + Input
        + Print
        + Net<Stream = TcpStream, Listener = TcpListener>,
    E: Print,
>(rt: &R, words: &[String], errors: &E) -> ExitCode
    ensures { EndsBy (EndsAlone ⟦<LoopLinker as Linker>⟧.goes_by_shape ⟦<Shaped<MemOut> as Out>⟧.state ⟦<LoopIn as In>⟧.state ⟦<LoopLinker as Linker>⟧.tells_in) (Ends ⟦<ProgLinker<&'static R> as Linker>⟧.goes_by_shape ⟦<ProgOut as Out>⟧.state ⟦<ProgIn as In>⟧.state ⟦<ProgLinker<&'static R> as Linker>⟧.tells_in) (Ends ⟦<TcpLinker<&'static R> as Linker>⟧.goes_by_shape ⟦<TcpHalf as Out>⟧.state ⟦<TcpIn as In>⟧.state ⟦<TcpLinker<&'static R> as Linker>⟧.tells_in) (map string_bytes words.now) (exit_status result) }
{
    let alloc = rt.alloc();
    if !may_wait(words) {
        let mut links = LoopLinker::new(alloc, Vec::new(alloc));
        return alone_over(rt, words, &mut links, errors);
    }
    if is_serve(words) {
        let mut links = TcpLinker::accepting(rt, alloc, connections(words));
        return run_over(rt, words, &mut links, errors);
    }
    run_over(rt, words, &mut ProgLinker::new(rt, alloc), errors)
}

/// How many connections `serve PORT N` accepts; behind the last nobody listens any more. 256 where the words aren't these.
fn connections(words: &[String]) -> u16 {
    match words.get(2) {
        Some(count) => count.as_str().parse::<u16>().unwrap_or(256),
        None => 256,
    }
}

/// Whether the words may ask for a script to be read: the first is none of those that read none.
fn reads_script(words: &[String]) -> bool {
    match words.first() {
        Some(word) => word.as_str() != "frames",
        None => false,
    }
}

/// The program with these words over these links and the standard streams.
fn run_over<R: Threads + Wait + Sync + Alloc<A = Global> + Input + Print, L: Linker, E: Print>(
    rt: &R,
    words: &[String],
    links: &mut L,
    errors: &E,
) -> ExitCode
    requires unused { UnusedLinker (L.state links.old) }
    ensures { Ends L.goes_by_shape L.O.state L.I.state L.tells_in (map string_bytes words.now) (exit_status result) }
{
    let edge = StdEdge::new(rt.reader());
    let mut source = Kept::new(rt.alloc(), edge, reads_script(words));
    let mut out = StdEdge::new(io::writer(rt));
    let mut errors = StdEdge::new(io::writer(errors));
    run_with(
        rt,
        rt.alloc(),
        words,
        &mut source,
        &mut out,
        links,
        &OpenGate,
        &mut errors,
    )
}

/// The same where the words ask for nothing that may wait: it has no right to wait, so it ends.
fn alone_over<R: Alloc<A = Global> + Input + Print, L: Linker, E: Print>(
    rt: &R,
    words: &[String],
    links: &mut L,
    errors: &E,
) -> ExitCode
    requires alone { may_wait (map string_bytes words.now) ≡ false }
    requires unused { UnusedLinker (L.state links.old) }
    ensures { EndsAlone L.goes_by_shape L.O.state L.I.state L.tells_in (map string_bytes words.now) (exit_status result) }
{
    let edge = StdEdge::new(rt.reader());
    let mut source = Kept::new(rt.alloc(), edge, reads_script(words));
    let mut out = StdEdge::new(io::writer(rt));
    let mut errors = StdEdge::new(io::writer(errors));
    run_alone(rt.alloc(), words, &mut source, &mut out, links, &mut errors)
}
