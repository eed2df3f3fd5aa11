ghost use Rattle.std.specs.Prelude.{◌≡◌, ◌⊎◌, ◌<◌, ◌^◌, length, map, string_bytes};
ghost use Rattle.frame_print.specs.TextWrittenToSink.{Writes};
ghost use Rattle.brpc_eng.specs.ProgramAnswers.{Wrote, sink_over};
ghost use Rattle.script_reasons.specs.KeptSource.{kept_of};
ghost use Rattle.script_reasons.specs.ScriptFaultWords.{script_text, unknown_text};
ghost use Rattle.brpc_main.specs.EarlyEndReasons.{Explained, frame_text, kept_text, other_text, status_text};

use crate::arguments::is_serve;
use brpc_reasons::tell_words;
use script_reasons::{Kept, tell_script, tell_unknown};
use sock_io::{Failed, Sink, Source, write_all};
use std::alloc::Global;

/// Why the program ends with this status, where its output doesn't say it; else nothing.
fn reason(status: u8) -> &'static [u8]
    ensures { result.now ≡ status_text status }
{
    match status {
        4 => b"brpc: the input failed\n",
        5 => b"brpc: the output failed\n",
        6 => b"brpc: the input is longer than the command takes\n",
        7 => b"brpc: memory ran out\n",
        8 => b"brpc: a link could not be opened, or a connection failed\n",
        _ => b"",
    }
}

/// Where a faulty frame came from.
fn frame_reason(words: &[String]) -> &'static [u8]
    ensures { result.now ≡ frame_text (map string_bytes words.now) }
{
    if is_serve(words) {
        b"brpc: a connection gave a faulty frame\n"
    } else {
        b"brpc: the input has a faulty frame\n"
    }
}

/// Writes the line of a status.
fn tell_status<E: Sink>(errors: &mut E, status: u8) -> Result<(), Failed>
    ensures { Writes (E.state errors.old) (E.state errors.new) (status_text status) result }
{
    write_all(errors, reason(status))
}

/// Says why the program ends with this status by the status alone.
pub fn explain_status<E: Sink>(errors: &mut E, status: u8)
    ensures { Wrote (sink_over (E.state errors.old) (E.state errors.new)) (status_text status) }
{
    match tell_status(errors, status) {
        Ok(()) => {}
        Err(Failed) => {}
    }
}

/// Writes that line, or what is wrong with the words, or where a faulty frame came from.
fn tell_other<E: Sink>(errors: &mut E, words: &[String], status: u8) -> Result<(), Failed>
    ensures { Writes (E.state errors.old) (E.state errors.new) (other_text (map string_bytes words.now) status) result }
{
    if status == 2 {
        tell_words(errors, words)
    } else if status == 9 {
        write_all(errors, frame_reason(words))
    } else {
        write_all(errors, reason(status))
    }
}

/// Says why the program ends with a status that the script doesn't explain.
fn explain_other<E: Sink>(errors: &mut E, words: &[String], status: u8)
    ensures { Wrote (sink_over (E.state errors.old) (E.state errors.new)) (other_text (map string_bytes words.now) status) }
{
    match tell_other(errors, words, status) {
        Ok(()) => {}
        Err(Failed) => {}
    }
}

/// Says what is wrong with this script.
fn explain_bytes<E: Sink>(alloc: Global, errors: &mut E, bytes: &[u8])
    requires { length bytes.now < 2 ^ 32 }
    ensures { Wrote (sink_over (E.state errors.old) (E.state errors.new)) (script_text bytes.now) ⊎ Wrote (sink_over (E.state errors.old) (E.state errors.new)) unknown_text }
{
    match tell_script(alloc, errors, bytes) {
        Ok(()) => {}
        Err(Failed) => {}
    }
}

/// Says that a script is faulty of which nothing was kept.
fn explain_unknown<E: Sink>(errors: &mut E)
    ensures { Wrote (sink_over (E.state errors.old) (E.state errors.new)) unknown_text }
{
    match tell_unknown(errors) {
        Ok(()) => {}
        Err(Failed) => {}
    }
}

/// Says what is wrong with the script that this source kept.
fn explain_script<S: Source + Drop, E: Sink>(alloc: Global, errors: &mut E, source: &Kept<S>)
    ensures { Wrote (sink_over (E.state errors.old) (E.state errors.new)) (kept_text (kept_of source.now)) ⊎ Wrote (sink_over (E.state errors.old) (E.state errors.new)) unknown_text }
{
    match source.bytes() {
        Some(bytes) => explain_bytes(alloc, errors, bytes),
        None => explain_unknown(errors),
    }
}

/// Writes why the program ends with this status: whole, or a beginning of it where the count of faults rose.
pub fn explain<S: Source + Drop, E: Sink>(
    alloc: Global,
    errors: &mut E,
    words: &[String],
    source: &Kept<S>,
    status: u8,
)
    ensures { Explained (sink_over (E.state errors.old) (E.state errors.new)) (map string_bytes words.now) (kept_of source.now) status }
{
    if status == 3 {
        explain_script(alloc, errors, source);
    } else {
        explain_other(errors, words, status);
    }
}
