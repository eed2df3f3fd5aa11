ghost use Rattle.std.specs.Prelude.{◌≡◌, ◌∷◌, ◌++◌, codes, decimal, OnOk};
ghost use Rattle.std.specs.List.{join_with_byte};
ghost use Rattle.sock_words.specs.PrintedWords.{word};
ghost use Rattle.sock_words.specs.KindText.{kind_text};
ghost use Rattle.brpc_model.specs.ScriptText.{att_text, call_text, seat_text, target_text, item_text};
ghost use Rattle.script_items.specs.LineMeaning.{call_of, seat_of, item};

use crate::parts::{push_names, push_option, push_seat, push_shape, push_target};
use script_items::{
    CallLine, Line, Name, OpenLine, Seat, SendLine, Target, push_hex, push_hex_word,
    push_number_word, push_word,
};
use sock_words::Kind;
use std::alloc::{AllocError, Global};

/// Appends a word and a number: a line that gives a size.
pub fn push_size(text: &mut Vec<u8>, name: &[u8], number: u32) -> Result<(), AllocError>
    ensures { OnOk result (text.new.items ≡ text.old.items ++ (name.now ++ word (decimal number))) }
{
    text.extend_from_slice(name)?;
    push_number_word(text, u64::from(number))
}

/// Appends a word and a name.
fn push_named(text: &mut Vec<u8>, command: &[u8], name: &[u8]) -> Result<(), AllocError>
    ensures { OnOk result (text.new.items ≡ text.old.items ++ (command.now ++ word name.now)) }
{
    text.extend_from_slice(command)?;
    push_word(text, name)
}

/// Appends an `open`.
fn push_open(text: &mut Vec<u8>, link: &OpenLine) -> Result<(), AllocError>
    ensures { OnOk result (text.new.items ≡ text.old.items ++ item_text (item (Line.Open link.now))) }
{
    push_named(text, b"open", link.name.as_slice())?;
    push_shape(text, &link.shape)
}

/// Appends a `send`.
fn push_send(alloc: Global, text: &mut Vec<u8>, send: &SendLine) -> Result<(), AllocError>
    ensures { OnOk result (text.new.items ≡ text.old.items ++ item_text (item (Line.Send send.now))) }
{
    push_named(text, b"send", send.name.as_slice())?;
    push_hex_word(alloc, text, send.bytes.as_slice())
}

/// Appends ` att=HEX` where there are bytes.
fn push_attachment(alloc: Global, text: &mut Vec<u8>, bytes: &[u8]) -> Result<(), AllocError>
    ensures { OnOk result (text.new.items ≡ text.old.items ++ att_text bytes.now) }
{
    if bytes.is_empty() {
        return Ok(());
    }
    text.extend_from_slice(b" att=")?;
    push_hex(alloc, text, bytes)
}

/// Appends the word `call`, the names, the service and the method.
fn push_called(text: &mut Vec<u8>, call: &CallLine) -> Result<(), AllocError>
    ensures { OnOk result (text.new.items ≡ text.old.items
        ++ (codes "call" ++ word (join_with_byte 44 call.now.names) ++ word (call.now.service ++ 46 ∷ call.now.method))) }
{
    text.extend_from_slice(b"call")?;
    push_names(text, &call.names)?;
    push_word(text, call.service.as_slice())?;
    text.extend_from_slice(b".")?;
    text.extend_from_slice(call.method.as_slice())
}

/// Appends a `call`.
fn push_call(alloc: Global, text: &mut Vec<u8>, call: &CallLine) -> Result<(), AllocError>
    ensures { OnOk result (text.new.items ≡ text.old.items ++ call_text (call_of call.now)) }
{
    push_called(text, call)?;
    push_hex_word(alloc, text, call.payload.as_slice())?;
    push_attachment(alloc, text, call.attachment.as_slice())?;
    push_option(text, b"retry", 0, u32::from(call.retry))
}

/// Appends a word and the call that is meant.
fn push_aimed(text: &mut Vec<u8>, command: &[u8], target: &Target) -> Result<(), AllocError>
    ensures { OnOk result (text.new.items ≡ text.old.items
        ++ (command.now ++ target_text target.now.client target.now.number)) }
{
    text.extend_from_slice(command)?;
    push_target(text, target)
}

/// Appends a `fail`.
fn push_fail(text: &mut Vec<u8>, name: &Name, code: u16) -> Result<(), AllocError>
    ensures { OnOk result (text.new.items ≡ text.old.items
        ++ (codes "fail" ++ word name.now ++ word (decimal code))) }
{
    push_named(text, b"fail", name.as_slice())?;
    push_number_word(text, u64::from(code))
}

/// Appends a word and a seat.
fn push_seated(text: &mut Vec<u8>, command: &[u8], seat: &Seat) -> Result<(), AllocError>
    ensures { OnOk result (text.new.items ≡ text.old.items
        ++ (command.now ++ word (seat_text (seat_of seat.now)))) }
{
    text.extend_from_slice(command)?;
    push_seat(text, seat)
}

/// Appends a `tick`.
fn push_tick(text: &mut Vec<u8>, seat: &Seat, ticks: u32) -> Result<(), AllocError>
    ensures { OnOk result (text.new.items ≡ text.old.items
        ++ (codes "tick" ++ word (seat_text (seat_of seat.now)) ++ word (decimal ticks))) }
{
    push_seated(text, b"tick", seat)?;
    push_number_word(text, u64::from(ticks))
}

/// Appends a `to`.
fn push_to(text: &mut Vec<u8>, seat: &Seat, kind: Kind) -> Result<(), AllocError>
    ensures { OnOk result (text.new.items ≡ text.old.items
        ++ (codes "to" ++ word (seat_text (seat_of seat.now)) ++ word (kind_text kind))) }
{
    push_seated(text, b"to", seat)?;
    push_word(text, kind.text())
}

/// Appends a line, without its end: options that are not the defaults in their order, and
/// hexadecimal in lower case.
pub fn push_line(alloc: Global, text: &mut Vec<u8>, line: &Line) -> Result<(), AllocError>
    ensures { OnOk result (text.new.items ≡ text.old.items ++ item_text (item line.now)) }
{
    match line {
        Line::Slots(count) => push_size(text, b"slots", *count),
        Line::Requests(count) => push_size(text, b"requests", *count),
        Line::First(version) => push_size(text, b"first", *version),
        Line::Open(link) => push_open(text, link),
        Line::Client => text.extend_from_slice(b"client"),
        Line::Send(send) => push_send(alloc, text, send),
        Line::Call(call) => push_call(alloc, text, call),
        Line::Expire(target) => push_aimed(text, b"expire", target),
        Line::Join(target) => push_aimed(text, b"join", target),
        Line::Fail { name, code } => push_fail(text, name, *code),
        Line::Hold(name) => push_named(text, b"hold", name.as_slice()),
        Line::Drop(name) => push_named(text, b"drop", name.as_slice()),
        Line::Sched => text.extend_from_slice(b"sched"),
        Line::Tick { seat, ticks } => push_tick(text, seat, *ticks),
        Line::To { seat, kind } => push_to(text, seat, *kind),
    }
}
