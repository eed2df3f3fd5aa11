ghost use Rattle.std.specs.Prelude.{ℕ, List};
ghost use Rattle.brpc_model.specs.Text.{words};
ghost use Rattle.brpc_model.specs.Items.{Item};
ghost use Rattle.brpc_model.specs.ScriptLineFaults.{shape_in, of_name, of_number, first_item, open_item, send_item, call_item, target_item, fail_item, tick_item, to_item, alone};
ghost use Rattle.script_items.specs.PartReaderAnswers.{Answers, Behind};
ghost use Rattle.script_items.specs.LineMeaning.{item};

use crate::calls::{read_call, read_target};
use crate::fault::{BAD_NUMBER, BAD_WORDS, LineFault, both};
use crate::line::{Line, Name, OpenLine, SendLine, Target};
use crate::numbers::read_number;
use crate::options::{Command, read_end, read_number_option, read_serve};
use crate::parts::{read_kind, read_message, read_name, read_seat};
use crate::words::{next_word, no_more_words};
use sock_words::Shape;
use std::alloc::Global;

/// `word NAME`: the name.
pub fn read_one_name(alloc: Global, args: &[u8]) -> Result<Name, LineFault>
    ensures { (make : List ℕ → Item) → Answers make result (of_name make (words args.now)) }
{
    let (name, args) = next_word(args)?;
    no_more_words(args)?;
    read_name(alloc, name)
}

/// `word N`: the number, in a range.
pub fn read_one_number(args: &[u8], low: u32, high: u32) -> Result<u32, LineFault>
    ensures { (make : ℕ → Item) → Answers make result (of_number make low high (words args.now)) }
{
    let (number, args) = next_word(args)?;
    no_more_words(args)?;
    read_number(number, low, high)
}

/// `word C.I`: the call that is meant.
pub fn read_one_target(args: &[u8]) -> Result<Target, LineFault>
    ensures { (make : ℕ → ℕ → Item) →
        Answers (λ t. make t.client t.number) result (target_item make (words args.now)) }
{
    let (target, args) = next_word(args)?;
    no_more_words(args)?;
    read_target(target)
}

/// A line that is its first word alone.
pub fn read_alone(line: Line, args: &[u8]) -> Result<Line, LineFault>
    ensures { Answers item result (alone (item line) (words args.now)) }
{
    no_more_words(args)?;
    Ok(line)
}

/// `first V`: an even number from 0 to 4,294,967,292.
pub fn read_first(args: &[u8]) -> Result<Line, LineFault>
    ensures { Answers item result (first_item (words args.now)) }
{
    let (number, args) = next_word(args)?;
    no_more_words(args)?;
    let version = read_number(number, 0, 4294967292)?;
    if version % 2 == 0 {
        Ok(Line::First(version))
    } else {
        Err(BAD_NUMBER)
    }
}

/// The options of an `open`.
fn read_shape(options: &[u8]) -> Result<Shape, LineFault>
    ensures { Answers (λ shape. shape) result (shape_in (words options.now)) }
{
    if !Command::Open.knows_all(options) {
        return Err(BAD_WORDS);
    }
    let piece = read_number_option(options, b"piece=", 1, 65536, 65536);
    let again = read_number_option(options, b"again=", 2, 65536, 0);
    let fail = read_number_option(options, b"fail=", 1, 65536, 0);
    let numbers = both(both(piece, again), fail);
    let (((piece, again), fail), (end, serve)) = both(
        numbers,
        both(read_end(options), read_serve(options)),
    )?;
    Ok(Shape {
        piece,
        again,
        fail,
        serve,
        end,
    })
}

/// `open NAME` and its options.
pub fn read_open(alloc: Global, args: &[u8]) -> Result<Line, LineFault>
    ensures { Answers item result (open_item (words args.now)) }
{
    let (name, options) = next_word(args)?;
    let (name, shape) = both(read_name(alloc, name), read_shape(options))?;
    Ok(Line::Open(OpenLine { name, shape }))
}

/// `send NAME HEX`.
pub fn read_send(alloc: Global, args: &[u8]) -> Result<Line, LineFault>
    ensures { Answers item result (send_item (words args.now)) }
{
    let (name, args) = next_word(args)?;
    let (bytes, args) = next_word(args)?;
    no_more_words(args)?;
    let (name, bytes) = both(read_name(alloc, name), read_message(alloc, bytes))?;
    Ok(Line::Send(SendLine { name, bytes }))
}

/// `call NAME[,NAME] SERVICE.METHOD HEX` and its options.
pub fn read_call_line(alloc: Global, args: &[u8]) -> Result<Line, LineFault>
    ensures { Answers item result (call_item (words args.now)) }
{
    let (names, args) = next_word(args)?;
    let (method, args) = next_word(args)?;
    let (payload, options) = next_word(args)?;
    let call = read_call(alloc, names, method, payload, options)?;
    Ok(Line::Call(call))
}

/// `fail NAME CODE`, of a code from 1500 to 1999.
pub fn read_fail(alloc: Global, args: &[u8]) -> Result<Line, LineFault>
    ensures { Answers item result (fail_item (words args.now)) }
{
    let (name, args) = next_word(args)?;
    let (code, args) = next_word(args)?;
    no_more_words(args)?;
    let (name, code) = both(read_name(alloc, name), read_number(code, 1500, 1999))?;
    Ok(Line::Fail {
        name,
        code: code as u16,
    })
}

/// `tick SEAT N`, of 1 to 65,536 ticks.
pub fn read_tick(clients: u32, links: u32, args: &[u8]) -> Result<Line, LineFault>
    ensures { Behind clients links (λ before. Answers item result (tick_item before (words args.now))) }
{
    let (seat, args) = next_word(args)?;
    let (ticks, args) = next_word(args)?;
    no_more_words(args)?;
    let (seat, ticks) = both(
        read_seat(clients, links, seat),
        read_number(ticks, 1, 65536),
    )?;
    Ok(Line::Tick { seat, ticks })
}

/// `to SEAT KIND`.
pub fn read_to(clients: u32, links: u32, args: &[u8]) -> Result<Line, LineFault>
    ensures { Behind clients links (λ before. Answers item result (to_item before (words args.now))) }
{
    let (seat, args) = next_word(args)?;
    let (kind, args) = next_word(args)?;
    no_more_words(args)?;
    let (seat, kind) = both(read_seat(clients, links, seat), read_kind(kind))?;
    Ok(Line::To { seat, kind })
}
