ghost use Rattle.std.specs.Prelude.{◌≡◌, ◌∷◌, ◌≤◌, [], IfNone, IfSome, map, option_map, string_bytes};
ghost use Rattle.frame_print.specs.TextWrittenToSink.{Writes};
ghost use Rattle.brpc_reasons.specs.WrongWords as model;
ghost use Rattle.brpc_reasons.specs.WrongWordsMeaning.{meaning};

use crate::forms::{Form, Parameter, form_of, highest, lowest, nearest};
use crate::piece::{Piece, print_pieces};
use script_items::number;
use sock_io::{Failed, Sink};

/// What is wrong with the words of the command line.
#[derive(Clone, Copy)]
pub enum WordsFault<'a> {
    /// There is none.
    NoWord,
    /// The first is no command.
    NoCommand(&'a [u8]),
    /// The command lacks this one.
    Missing(Form, Parameter),
    /// This one isn't a number in its range.
    Wrong(Form, Parameter, &'a [u8]),
    /// This one is too many.
    TooMany(Form, &'a [u8]),
    /// So many clients with so many operations each are too many operations.
    TooMuch(Form, u32, u32),
}

/// The first word, and those behind it.
fn first_of(words: &[String]) -> Option<(&str, &[String])>
    ensures some { IfSome result (λ p. map string_bytes words.now ≡ p.0.now ∷ map string_bytes p.1.now) }
    ensures none { IfNone result (map string_bytes words.now ≡ []) }
{
    match words.split_first() {
        Some((word, more)) => Some((word.as_str(), more)),
        None => None,
    }
}

/// What is wrong first with the words behind a command's name, which takes these.
fn first_wrong<'a>(
    form: Form,
    parameters: &[Parameter],
    words: &'a [String],
) -> Option<WordsFault<'a>>
    ensures { option_map meaning result ≡ model.first_wrong form parameters.now (map string_bytes words.now) }
{
    let Some((parameter, others)) = parameters.split_first() else {
        return one_more(form, words);
    };
    let Some((word, more)) = first_of(words) else {
        return Some(WordsFault::Missing(form, *parameter));
    };
    if number(word.as_bytes(), lowest(*parameter), highest(*parameter)).is_none() {
        return Some(WordsFault::Wrong(form, *parameter, word.as_bytes()));
    }
    first_wrong(form, others, more)
}

/// The first of words that are too many.
fn one_more(form: Form, words: &[String]) -> Option<WordsFault<'_>>
    ensures { option_map meaning result ≡ model.first_wrong form [] (map string_bytes words.now) }
{
    let (word, _) = first_of(words)?;
    Some(WordsFault::TooMany(form, word.as_bytes()))
}

/// Whether so many operations in all are too many.
fn too_much<'a>(form: Form, words: &'a [String]) -> Option<WordsFault<'a>>
    ensures { option_map meaning result ≡ model.too_much form (map string_bytes words.now) }
{
    let (_, more) = first_of(words)?;
    let (clients, more) = first_of(more)?;
    let (operations, _) = first_of(more)?;
    let clients = number(clients.as_bytes(), 1, 31)?;
    let operations = number(operations.as_bytes(), 1, 4_092)?;
    if clients * operations > 4_092 {
        Some(WordsFault::TooMuch(form, clients, operations))
    } else {
        None
    }
}

/// What is wrong with the words behind `gen` or `load`.
fn drawn<'a>(form: Form, words: &'a [String]) -> Option<WordsFault<'a>>
    ensures { option_map meaning result ≡ model.drawn form (map string_bytes words.now) }
{
    let taken = [Parameter::Seed, Parameter::Clients, Parameter::Operations];
    match first_wrong(form, &taken, words) {
        Some(fault) => Some(fault),
        None => too_much(form, words),
    }
}

/// What is wrong with the words behind `run`, which may stand alone.
fn run_wrong(words: &[String]) -> Option<WordsFault<'_>>
    ensures { option_map meaning result ≡ model.run_wrong (map string_bytes words.now) }
{
    if words.is_empty() {
        return None;
    }
    first_wrong(Form::Run, &[Parameter::Port], words)
}

/// What is wrong with the words behind the name of a command.
fn behind<'a>(form: Form, words: &'a [String]) -> Option<WordsFault<'a>>
    ensures { option_map meaning result ≡ model.behind form (map string_bytes words.now) }
{
    match form {
        Form::Replay => first_wrong(Form::Replay, &[], words),
        Form::Sim => first_wrong(Form::Sim, &[Parameter::Seed], words),
        Form::Run => run_wrong(words),
        Form::Gen => drawn(Form::Gen, words),
        Form::Load => drawn(Form::Load, words),
        Form::Frames => first_wrong(Form::Frames, &[], words),
        Form::Serve => {
            let taken = [Parameter::Port, Parameter::Connections];
            first_wrong(Form::Serve, &taken, words)
        }
    }
}

/// What is wrong with the words of the command line.
fn words_fault(words: &[String]) -> Option<WordsFault<'_>>
    ensures { option_map meaning result ≡ model.words_fault (map string_bytes words.now) }
{
    let Some((word, more)) = first_of(words) else {
        return Some(WordsFault::NoWord);
    };
    match form_of(word) {
        Some(form) => behind(form, more),
        None => Some(WordsFault::NoCommand(word.as_bytes())),
    }
}

/// Writes what is wrong with the words, and which form is nearest; nothing where they are a command.
pub fn tell_words<E: Sink>(errors: &mut E, words: &[String]) -> Result<(), Failed>
    ensures { Writes (E.state errors.old) (E.state errors.new) (model.words_text (map string_bytes words.now)) result }
{
    match words_fault(words) {
        Some(fault) => tell_fault(errors, fault),
        None => print_pieces(errors, &[]),
    }
}

fn tell_fault<E: Sink>(errors: &mut E, fault: WordsFault) -> Result<(), Failed>
    ensures { Writes (E.state errors.old) (E.state errors.new) (model.fault_text (meaning fault.entry)) result }
{
    match fault {
        WordsFault::NoWord => print_pieces(
            errors,
            &[Piece::Text(
                b"brpc: no command is given; there are replay, sim, run, gen, load, frames and serve\n",
            )],
        ),
        WordsFault::NoCommand(word) => tell_no_command(errors, word),
        WordsFault::Missing(form, parameter) => tell_missing(errors, form, parameter),
        WordsFault::Wrong(form, parameter, word) => tell_wrong(errors, form, parameter, word),
        WordsFault::TooMany(form, word) => tell_too_many(errors, form, word),
        WordsFault::TooMuch(form, clients, operations) => {
            tell_too_much(errors, form, clients, operations)
        }
    }
}

fn tell_no_command<E: Sink>(errors: &mut E, word: &[u8]) -> Result<(), Failed>
    ensures { Writes (E.state errors.old) (E.state errors.new) (model.no_command_text word.now) result }
{
    match nearest(word) {
        Some(form) => print_pieces(
            errors,
            &[
                Piece::Text(b"brpc: there is no command "),
                Piece::Shown(word),
                Piece::Text(b"; the nearest form is "),
                Piece::Form(form),
                Piece::Text(b"\n"),
            ],
        ),
        None => print_pieces(
            errors,
            &[
                Piece::Text(b"brpc: there is no command "),
                Piece::Shown(word),
                Piece::Text(b"; there are replay, sim, run, gen, load, frames and serve\n"),
            ],
        ),
    }
}

fn tell_missing<E: Sink>(errors: &mut E, form: Form, parameter: Parameter) -> Result<(), Failed>
    ensures { Writes (E.state errors.old) (E.state errors.new) (model.missing_text form parameter) result }
{
    print_pieces(
        errors,
        &[
            Piece::Text(b"brpc: "),
            Piece::Name(parameter),
            Piece::Text(b" is missing, "),
            Piece::Range(parameter),
            Piece::Text(b"; the form is "),
            Piece::Form(form),
            Piece::Text(b"\n"),
        ],
    )
}

fn tell_wrong<E: Sink>(
    errors: &mut E,
    form: Form,
    parameter: Parameter,
    word: &[u8],
) -> Result<(), Failed>
    ensures { Writes (E.state errors.old) (E.state errors.new) (model.wrong_text form parameter word.now) result }
{
    print_pieces(
        errors,
        &[
            Piece::Text(b"brpc: "),
            Piece::Name(parameter),
            Piece::Text(b" is "),
            Piece::Range(parameter),
            Piece::Text(b", and not "),
            Piece::Shown(word),
            Piece::Text(b"; the form is "),
            Piece::Form(form),
            Piece::Text(b"\n"),
        ],
    )
}

fn tell_too_many<E: Sink>(errors: &mut E, form: Form, word: &[u8]) -> Result<(), Failed>
    ensures { Writes (E.state errors.old) (E.state errors.new) (model.too_many_text form word.now) result }
{
    print_pieces(
        errors,
        &[
            Piece::Text(b"brpc: "),
            Piece::Shown(word),
            Piece::Text(b" is one word too many; the form is "),
            Piece::Form(form),
            Piece::Text(b"\n"),
        ],
    )
}

fn tell_too_much<E: Sink>(
    errors: &mut E,
    form: Form,
    clients: u32,
    operations: u32,
) -> Result<(), Failed>
    ensures { Writes (E.state errors.old) (E.state errors.new) (model.too_much_text form clients operations) result }
{
    print_pieces(
        errors,
        &[
            Piece::Text(b"brpc: CLIENTS times OPS is at most 4092, and not "),
            Piece::Number(clients),
            Piece::Text(b" times "),
            Piece::Number(operations),
            Piece::Text(b"; the form is "),
            Piece::Form(form),
            Piece::Text(b"\n"),
        ],
    )
}
