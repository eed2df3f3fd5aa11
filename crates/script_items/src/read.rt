ghost use Rattle.std.specs.Prelude.{◌≡◌, ◌∷◌, option_map};
ghost use Rattle.std.specs.List.{list_all};
ghost use Rattle.brpc_model.specs.Text.{words};
ghost use Rattle.brpc_model.specs.ScriptLineFaults.{item_of, operation_item, later_item, line_item, is_text_byte};
ghost use Rattle.script_items.specs.PartReaderAnswers.{Answers, Behind};
ghost use Rattle.script_items.specs.LineMeaning.{item};
ghost use Rattle.script_items.specs.FollowingLineWords.{says_nothing};

use crate::fault::{BAD_BYTE, LineFault, UNKNOWN_WORD};
use crate::forms::{
    read_alone, read_call_line, read_fail, read_first, read_one_name, read_one_number,
    read_one_target, read_open, read_send, read_tick, read_to,
};
use crate::line::Line;
use crate::words::first_word;
use std::alloc::Global;

/// Whether each byte is a space or a printable ASCII character.
fn has_text_bytes(line: &[u8]) -> bool
    ensures { result ≡ list_all is_text_byte line.now }
{
    line.iter().all(|b| 32 <= *b && *b <= 126)
}

/// What the words of a line say.
fn read_words(alloc: Global, clients: u32, links: u32, line: &[u8]) -> Result<Line, LineFault>
    ensures { Behind clients links (λ before. Answers item result (item_of before (words line.now))) }
{
    match first_word(line) {
        Some((first, args)) => {
            let words = LineWords {
                alloc,
                clients,
                links,
                first,
                args,
            };
            words.setup()
        }
        None => Err(UNKNOWN_WORD),
    }
}

/// The words of a line, behind lines that have so many clients and links.
#[derive(Clone, Copy)]
struct LineWords<'a> {
    alloc: Global,
    clients: u32,
    links: u32,
    first: &'a [u8],
    args: &'a [u8],
}

impl LineWords<'_> {
    /// What they say: a line of the setup, or one behind it.
    fn setup(&self) -> Result<Line, LineFault>
        ensures { Behind self.now.clients self.now.links (λ before. Answers item result (item_of before (self.now.first.now ∷ words self.now.args.now))) }
    {
        if self.first == b"slots".as_slice() {
            Ok(Line::Slots(read_one_number(self.args, 1, 31)?))
        } else if self.first == b"requests".as_slice() {
            Ok(Line::Requests(read_one_number(self.args, 1, 4096)?))
        } else if self.first == b"first".as_slice() {
            read_first(self.args)
        } else if self.first == b"open".as_slice() {
            read_open(self.alloc, self.args)
        } else {
            self.operation()
        }
    }

    /// What they say where the line isn't of the setup: the next client, a send, a call or what is
    /// done with one, or another line.
    fn operation(&self) -> Result<Line, LineFault>
        ensures { Behind self.now.clients self.now.links (λ before. Answers item result (operation_item before self.now.first.now (words self.now.args.now))) }
    {
        if self.first == b"client".as_slice() {
            read_alone(Line::Client, self.args)
        } else if self.first == b"send".as_slice() {
            read_send(self.alloc, self.args)
        } else if self.first == b"call".as_slice() {
            read_call_line(self.alloc, self.args)
        } else if self.first == b"expire".as_slice() {
            Ok(Line::Expire(read_one_target(self.args)?))
        } else if self.first == b"join".as_slice() {
            Ok(Line::Join(read_one_target(self.args)?))
        } else {
            self.later()
        }
    }

    /// What they say where the line is neither: a failing, a reference taken or given back, or a
    /// line of the schedule.
    fn later(&self) -> Result<Line, LineFault>
        ensures { Behind self.now.clients self.now.links (λ before. Answers item result (later_item before self.now.first.now (words self.now.args.now))) }
    {
        if self.first == b"fail".as_slice() {
            read_fail(self.alloc, self.args)
        } else if self.first == b"hold".as_slice() {
            Ok(Line::Hold(read_one_name(self.alloc, self.args)?))
        } else if self.first == b"drop".as_slice() {
            Ok(Line::Drop(read_one_name(self.alloc, self.args)?))
        } else if self.first == b"sched".as_slice() {
            read_alone(Line::Sched, self.args)
        } else if self.first == b"tick".as_slice() {
            read_tick(self.clients, self.links, self.args)
        } else if self.first == b"to".as_slice() {
            read_to(self.clients, self.links, self.args)
        } else {
            Err(UNKNOWN_WORD)
        }
    }
}

/// Whether a line says nothing: it is empty or begins with `#`.
fn is_comment(line: &[u8]) -> bool
    ensures { result ≡ says_nothing line.now }
{
    line.is_empty() || line[0] == b'#'
}

/// What one line of a script says, by itself: nothing where it is empty or begins with `#`. The
/// numbers of clients and links are those of the lines before; a seat has to be one of them. The
/// line comes without its end.
///
/// # Errors
///
/// The lowest kind of fault that the line has: 1 a byte other than a space or a printable ASCII
/// character; 2 an unknown first word, or none; 3 a wrong number of words, an unknown option, or
/// one given twice; 4 a number that is malformed or out of its range, or a seat that the script
/// doesn't have; 5 bad hexadecimal; 6 a length out of its limits; 7 a malformed name, service,
/// method or kind of step.
pub fn read_line(
    alloc: Global,
    clients: u32,
    links: u32,
    line: &[u8],
) -> Result<Option<Line>, LineFault>
    ensures { Behind clients links (λ before. Answers (option_map item) result (line_item before line.now)) }
{
    if is_comment(line) {
        return Ok(None);
    }
    if !has_text_bytes(line) {
        return Err(BAD_BYTE);
    }
    Ok(Some(read_words(alloc, clients, links, line)?))
}
