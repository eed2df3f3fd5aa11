ghost use Rattle.std.specs.Prelude.{◌≡◌, ◌⊎◌, ◌<◌, ◌^◌, length};
ghost use Rattle.frame_print.specs.TextWrittenToSink.{Writes};
ghost use Rattle.script_reasons.specs.ScriptFaultWords as model;

use crate::forms::{nearest_form, place_of};
use crate::places::{line_at, word_at};
use brpc_reasons::{Piece, print_pieces};
use script_lang::{ScriptError, read_script};
use sock_io::{Failed, Sink};
use std::alloc::Global;

/// What a kind of fault means.
fn kind_text(kind: u8) -> &'static [u8]
    ensures { result.now ≡ model.kind_text kind }
{
    match kind {
        1 => b"a byte that is neither a space nor a printable ASCII character",
        2 => b"an unknown first word",
        3 => b"a wrong number of words, an unknown option or one given twice",
        4 =>
            b"a number that is malformed or out of its range, or a seat that the script doesn't have",
        5 => b"bad hexadecimal",
        6 => b"a length out of its limits",
        7 => b"a malformed name, service, method or kind of step",
        8 => b"a line at a wrong place",
        9 => b"too many clients, operations, links, names or schedule lines",
        10 => b"no such call in the script",
        11 => b"a join in a script in which an open lacks serve",
        12 => b"a drop of a name that is not held, or a second hold without a drop",
        _ => b"a fault",
    }
}

/// The word of a line that has a fault of this kind; nothing where no word alone has it.
fn faulty_word(kind: u8, line: &[u8]) -> &[u8]
    ensures { result.now ≡ model.faulty_word kind line.now }
{
    let place = place_of(kind, word_at(line, 1));
    if place == 0 {
        &[]
    } else {
        word_at(line, place)
    }
}

/// Writes that a line has a fault.
fn tell_line<'x, E: Sink>(
    errors: &mut E,
    number: u32,
    line: &'x [u8],
    word: &'x [u8],
    what: &'x [u8],
    form: &'x [u8],
) -> Result<(), Failed>
    ensures { Writes (E.state errors.old) (E.state errors.new) (model.line_text number line.now word.now what.now form.now) result }
{
    if word.is_empty() {
        tell_whole(errors, number, line, what, form)
    } else {
        tell_word(errors, number, line, word, what, form)
    }
}

/// Writes that a line has a fault as a whole.
fn tell_whole<'x, E: Sink>(
    errors: &mut E,
    number: u32,
    line: &'x [u8],
    what: &'x [u8],
    form: &'x [u8],
) -> Result<(), Failed>
    ensures { Writes (E.state errors.old) (E.state errors.new) (model.whole_text number line.now what.now form.now) result }
{
    print_pieces(
        errors,
        &[
            Piece::Text(b"brpc: line "),
            Piece::Number(number),
            Piece::Text(b" of the script, "),
            Piece::Shown(line),
            Piece::Text(b": "),
            Piece::Text(what),
            Piece::Text(form),
        ],
    )
}

/// Writes which word of a line has a fault.
fn tell_word<'x, E: Sink>(
    errors: &mut E,
    number: u32,
    line: &'x [u8],
    word: &'x [u8],
    what: &'x [u8],
    form: &'x [u8],
) -> Result<(), Failed>
    ensures { Writes (E.state errors.old) (E.state errors.new) (model.at_word_text number line.now word.now what.now form.now) result }
{
    print_pieces(
        errors,
        &[
            Piece::Text(b"brpc: line "),
            Piece::Number(number),
            Piece::Text(b" of the script, "),
            Piece::Shown(line),
            Piece::Text(b", at "),
            Piece::Shown(word),
            Piece::Text(b": "),
            Piece::Text(what),
            Piece::Text(form),
        ],
    )
}

/// The same of the kind of the fault.
fn tell_fault<E: Sink>(errors: &mut E, number: u32, kind: u8, line: &[u8]) -> Result<(), Failed>
    ensures { Writes (E.state errors.old) (E.state errors.new) (model.fault_text number kind line.now) result }
{
    let word = faulty_word(kind, line);
    let form = nearest_form(word_at(line, 1));
    tell_line(errors, number, line, word, kind_text(kind), form)
}

/// Writes that the script is faulty.
pub fn tell_unknown<E: Sink>(errors: &mut E) -> Result<(), Failed>
    ensures { Writes (E.state errors.old) (E.state errors.new) model.unknown_text result }
{
    print_pieces(errors, &[Piece::Text(b"brpc: the script is faulty\n")])
}

/// Writes what is wrong with the script that these bytes are; where memory runs out as they are read, no more than that it is faulty.
pub fn tell_script<E: Sink>(alloc: Global, errors: &mut E, bytes: &[u8]) -> Result<(), Failed>
    requires { length bytes.now < 2 ^ 32 }
    ensures { Writes (E.state errors.old) (E.state errors.new) (model.script_text bytes.now) result ⊎ Writes (E.state errors.old) (E.state errors.new) model.unknown_text result }
{
    match read_script(alloc, bytes) {
        Err(ScriptError::Fault { line, kind }) => {
            tell_fault(errors, line, kind, line_at(bytes, line))
        }
        Err(ScriptError::NoMemory) => tell_unknown(errors),
        Ok(script) => {
            drop(script);
            tell_unknown(errors)
        }
    }
}
