ghost use Rattle.std.specs.Prelude.{◌≡◌, ◌++◌, filter, map, IfOk, OnOk};
ghost use Rattle.std.specs.List.{list_any};
ghost use Rattle.brpc_model.specs.Items.{is_turn};
ghost use Rattle.brpc_model.specs.Operations.{slots, requests, first_version};
ghost use Rattle.brpc_model.specs.ScriptText.{script_text};
ghost use Rattle.script_items.specs.LineMeaning.{item};
ghost use Rattle.script_print.specs.PrintedParts.{is_body, line, line_where, size_line, lines_text, size_items, body_items, schedule_items};

use crate::lines::{push_line, push_size};
use script_items::{
    DEFAULT_FIRST, DEFAULT_REQUESTS, DEFAULT_SLOTS, Line, first_version, request_count, slot_count,
};
use std::alloc::{AllocError, Global};

/// Whether the line is an operation or begins a client.
fn is_body(line: &Line) -> bool
    ensures { result ≡ is_body (item line.now) }
{
    !matches!(
        line,
        Line::Slots(_)
            | Line::Requests(_)
            | Line::First(_)
            | Line::Sched
            | Line::Tick { .. }
            | Line::To { .. }
    )
}

/// Whether the line is one of the schedule.
fn is_turn(line: &Line) -> bool
    ensures { result ≡ is_turn (item line.now) }
{
    matches!(line, Line::Tick { .. } | Line::To { .. })
}

/// Appends a line with its end, where it is wanted.
fn push_where(
    alloc: Global,
    text: &mut Vec<u8>,
    line: &Line,
    wanted: bool,
) -> Result<(), AllocError>
    ensures { OnOk result (
        text.new.items ≡ text.old.items ++ line_where wanted (item line.now)) }
{
    if !wanted {
        return Ok(());
    }
    push_line(alloc, text, line)?;
    text.extend_from_slice(b"\n")
}

/// Appends the line of a size with its end, where the size differs from its default.
fn push_size_line(
    text: &mut Vec<u8>,
    name: &[u8],
    default: u32,
    number: u32,
) -> Result<(), AllocError>
    ensures { OnOk result (
        text.new.items ≡ text.old.items ++ size_line name.now default number) }
{
    if number == default {
        return Ok(());
    }
    push_size(text, name, number)?;
    text.extend_from_slice(b"\n")
}

/// Appends the lines of the sizes that differ from their defaults.
fn push_sizes(text: &mut Vec<u8>, lines: &[Line]) -> Result<(), AllocError>
    ensures { OnOk result (
        text.new.items ≡ text.old.items ++ lines_text (size_items (map item lines.now))) }
{
    push_size_line(text, b"slots", DEFAULT_SLOTS, slot_count(lines))?;
    push_size_line(text, b"requests", DEFAULT_REQUESTS, request_count(lines))?;
    push_size_line(text, b"first", DEFAULT_FIRST, first_version(lines))
}

/// Appends the setup and the clients.
fn push_body(alloc: Global, text: &mut Vec<u8>, lines: &[Line]) -> Result<(), AllocError>
    ensures { OnOk result (
        text.new.items ≡ text.old.items ++ lines_text (body_items (map item lines.now))) }
{
    for line in lines {
        push_where(alloc, text, line, is_body(line))?;
    }
    Ok(())
}

/// Appends the lines of the schedule.
fn push_turns(alloc: Global, text: &mut Vec<u8>, lines: &[Line]) -> Result<(), AllocError>
    ensures { OnOk result (
        text.new.items ≡ text.old.items ++ lines_text (filter is_turn (map item lines.now))) }
{
    for line in lines {
        push_where(alloc, text, line, is_turn(line))?;
    }
    Ok(())
}

/// Whether the lines have a schedule.
fn has_turns(lines: &[Line]) -> bool
    ensures { result ≡ list_any is_turn (map item lines.now) }
{
    for line in lines {
        if is_turn(line) {
            return true;
        }
    }
    false
}

/// Appends the schedule behind its `sched`, where it has lines.
fn push_schedule(alloc: Global, text: &mut Vec<u8>, lines: &[Line]) -> Result<(), AllocError>
    ensures { OnOk result (
        text.new.items ≡ text.old.items ++ lines_text (schedule_items (map item lines.now))) }
{
    if !has_turns(lines) {
        return Ok(());
    }
    text.extend_from_slice(b"sched\n")?;
    push_turns(alloc, text, lines)
}

/// The text of the script of these lines: the sizes that differ from their defaults, the setup and
/// the clients, and the schedule where it has lines.
pub fn text_of(alloc: Global, lines: &[Line]) -> Result<Vec<u8>, AllocError>
    ensures { IfOk result (λ text. text.items ≡ script_text (map item lines.now)) }
{
    let mut text = Vec::new(alloc);
    push_sizes(&mut text, lines)?;
    push_body(alloc, &mut text, lines)?;
    push_schedule(alloc, &mut text, lines)?;
    Ok(text)
}
