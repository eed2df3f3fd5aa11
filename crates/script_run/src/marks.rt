ghost use Rattle.std.specs.Prelude.{◌≡◌, IfOk, map};
ghost use Rattle.brpc_model.specs.Items.{Open, Call};
ghost use Rattle.script_items.specs.LineMeaning.{item};
ghost use Rattle.script_run.specs.Outlines.{outlined, meant, bare_shape, bare_call};

use crate::mark::Mark;
use script_items::{CallLine, Line, Name, Names, OpenLine, SendLine, Target};
use sock_words::{OwnedBytes, Shape};
use std::alloc::{AllocError, Global};

/// What is wanted of a line.
fn mark_of(alloc: Global, line: Line) -> Result<Mark, AllocError>
    ensures { IfOk result (λ mark. meant mark ≡ outlined (item line)) }
{
    match line {
        Line::Open(open) => Ok(Mark::Open(Box::new(alloc, open.name)?)),
        Line::Client => Ok(Mark::Client),
        Line::Send(send) => Ok(Mark::Send(send.bytes.as_slice().len())),
        Line::Call(_) => Ok(Mark::Call),
        Line::Expire(_) | Line::Join(_) | Line::Fail { .. } => Ok(Mark::Other),
        Line::Hold(_) | Line::Drop(_) => Ok(Mark::Other),
        Line::Slots(_) | Line::Requests(_) | Line::First(_) | Line::Sched => Ok(Mark::Apart),
        Line::Tick { seat, ticks } => Ok(Mark::Tick { seat, ticks }),
        Line::To { seat, kind } => Ok(Mark::To { seat, kind }),
    }
}

/// What is wanted of each line. The memory of the lines is given back.
pub fn marks_of(alloc: Global, lines: Vec<Line>) -> Result<Vec<Mark>, AllocError>
    ensures { IfOk result (λ marks. map meant marks.items ≡ map outlined (map item lines.items)) }
{
    let mut marks = Vec::with_capacity(alloc, lines.len())?;
    for line in lines {
        marks.push(mark_of(alloc, line)?)?;
    }
    Ok(marks)
}

/// A link of which only the name is told.
fn bare_open(name: Name) -> Line
    ensures { item result ≡ Open name bare_shape }
{
    let shape = Shape {
        piece: 1,
        again: 0,
        fail: 0,
        serve: false,
        end: None,
    };
    Line::Open(OpenLine { name, shape })
}

/// A call of which nothing is told.
fn bare_call(alloc: Global) -> Line
    ensures { item result ≡ Call bare_call }
{
    Line::Call(CallLine {
        names: Names::new(Name::new(Vec::new(alloc)), None),
        service: OwnedBytes::new(Vec::new(alloc)),
        method: OwnedBytes::new(Vec::new(alloc)),
        payload: OwnedBytes::new(Vec::new(alloc)),
        attachment: OwnedBytes::new(Vec::new(alloc)),
        retry: 0,
    })
}

/// A line that has the mark.
fn line_of(alloc: Global, mark: Mark) -> Result<Line, AllocError>
    ensures { IfOk result (λ line. item line ≡ meant mark) }
{
    match mark {
        Mark::Open(name) => Ok(bare_open(Box::into_inner(name))),
        Mark::Client => Ok(Line::Client),
        Mark::Send(count) => {
            let bytes = OwnedBytes::new(vec![in alloc; 0u8; count]?);
            let name = Name::new(Vec::new(alloc));
            Ok(Line::Send(SendLine { name, bytes }))
        }
        Mark::Call => Ok(bare_call(alloc)),
        Mark::Other => Ok(Line::Expire(Target {
            client: 0,
            number: 0,
        })),
        Mark::Apart => Ok(Line::Sched),
        Mark::Tick { seat, ticks } => Ok(Line::Tick { seat, ticks }),
        Mark::To { seat, kind } => Ok(Line::To { seat, kind }),
    }
}

/// Lines that have these marks.
pub fn lines_of(alloc: Global, marks: Vec<Mark>) -> Result<Vec<Line>, AllocError>
    ensures { IfOk result (λ lines. map item lines.items ≡ map meant marks.items) }
{
    let mut lines = Vec::with_capacity(alloc, marks.len())?;
    for mark in marks {
        lines.push(line_of(alloc, mark)?)?;
    }
    Ok(lines)
}
