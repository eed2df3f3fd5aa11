ghost use Rattle.std.specs.Prelude.{◌≡◌, ◌<◌, ◌^◌, [], length, map, IfOk, OnOk};
ghost use Rattle.brpc_model.specs.Operations.{link_names};
ghost use Rattle.script_items.specs.LineMeaning.{item};
ghost use Rattle.brpc_model.specs.PlaceWords.{ArePlaces};
ghost use Rattle.script_report.specs.OrderRows.{IsPutAt, IsFiled, AreRows};

use crate::links::ReportLabel;
use crate::words::{has_position, label_at};
use script_items::Line;
use sock_words::PlaceWord;
use std::alloc::{AllocError, Global};

// Puts a label at its position. Positions that come later are filled up with it meanwhile.
fn put_at(
    order: &mut Vec<ReportLabel>,
    position: usize,
    label: ReportLabel,
) -> Result<(), AllocError>
    requires { position < 2 ^ 32 }
    ensures { OnOk result (IsPutAt position label order.old.items order.new.items) }
{
    if order.len() <= position {
        order.resize(position + 1, label)?;
    }
    order[position] = label;
    Ok(())
}

// Puts a label where its place word tells, if it tells a position.
fn file(
    orders: &mut Vec<Vec<ReportLabel>>,
    word: PlaceWord,
    label: ReportLabel,
) -> Result<(), AllocError>
    ensures { OnOk result (IsFiled word.0 label (map (λ row. row.items) orders.old.items) (map (λ row. row.items) orders.new.items)) }
{
    if !has_position(word) {
        return Ok(());
    }
    match orders.get_mut(usize::from(word.link())) {
        Some(order) => put_at(order, word.position() as usize, label),
        None => Ok(()),
    }
}

// An empty order for each link.
fn empty_orders(alloc: Global, lines: &[Line]) -> Result<Vec<Vec<ReportLabel>>, AllocError>
    ensures { IfOk result (λ orders. map (λ row. row.items) orders.items ≡ map (λ _. []) (link_names (map item lines.now))) }
{
    let mut orders = Vec::new(alloc);
    for line in lines {
        if let Line::Open(_) = line {
            orders.push(Vec::new(alloc))?;
        }
    }
    Ok(orders)
}

/// The labels that each link accepted, by their positions.
pub fn orders_of(
    alloc: Global,
    lines: &[Line],
    words: &[PlaceWord],
) -> Result<Vec<Vec<ReportLabel>>, AllocError>
    ensures links { IfOk result (λ orders. length orders.items ≡ length (link_names (map item lines.now))) }
    ensures rows { IfOk result (λ orders. ArePlaces words.now → AreRows words.now (length words.now) (map (λ row. row.items) orders.items)) }
{
    let mut orders = empty_orders(alloc, lines)?;
    let mut number = 0usize;
    for word in words {
        file(&mut orders, *word, label_at(number))?;
        number = number.saturating_add(1);
    }
    Ok(orders)
}
