ghost use Rattle.std.specs.Prelude.{◌≡◌, ℕ, List, bytes_eq, OnOk};
ghost use Rattle.std.specs.List.{list_any};
ghost use Rattle.brpc_model.specs.Items.{Item};
ghost use Rattle.brpc_model.specs.LinePlaceFaults.{is_held, held_behind, is_unpaired};
ghost use Rattle.script_items.specs.LineMeaning.{item};

use crate::names::NameList;
use script_items::Line;
use std::alloc::AllocError;

/// Whether the line is a second `hold` of a name without a `drop` between, or a `drop` of a name
/// that isn't held, where these are the names that the client in hand holds.
pub fn is_unpaired(held: &NameList, line: &Line) -> bool
    ensures { (before : List Item) → ((name : List ℕ) → is_held before name ≡ list_any (bytes_eq name) held.now) → result ≡ is_unpaired before (item line.now) }
{
    match line {
        Line::Hold(name) => held.contains(name),
        Line::Drop(name) => !held.contains(name),
        _ => false,
    }
}

/// The names that the client in hand holds behind one more line.
pub fn add(held: &mut NameList, line: &Line) -> Result<(), AllocError>
    ensures { OnOk result ((name : List ℕ) → list_any (bytes_eq name) held.new ≡ held_behind name (list_any (bytes_eq name) held.old) (item line.now)) }
{
    match line {
        Line::Client => held.clear(),
        Line::Hold(name) => held.add(name)?,
        Line::Drop(name) => held.remove(name),
        _ => {}
    }
    Ok(())
}
