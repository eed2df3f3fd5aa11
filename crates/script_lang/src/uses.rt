ghost use Rattle.std.specs.Prelude.{◌≡◌, ◌&&◌, ◌∷◌, ◌++◌, [], not, option_map, option_to_list, OnOk};
ghost use Rattle.std.specs.List.{find};
ghost use Rattle.script_items.specs.LineMeaning.{item};
ghost use Rattle.script_lang.specs.OperationNumbers.{has_call};
ghost use Rattle.script_lang.specs.CallsUsedByLines.{use_of};

use crate::numbering::Numbering;
use script_items::{Line, Target};
use std::alloc::AllocError;

/// A call that an `expire` or a `join` names.
#[derive(Clone, Copy, Drop)]
pub struct CallUse {
    pub target: Target,
    /// The number of the line, from 1.
    pub line: u32,
    /// Whether the line is a `join`.
    pub waits: bool,
}

/// Notes the call that a line of this number names, if it names one.
pub fn note_use(uses: &mut Vec<CallUse>, line: &Line, number: u32) -> Result<(), AllocError>
    ensures { OnOk result (uses.new.items ≡ uses.old.items ++ option_to_list (use_of number (item line.now))) }
{
    match line {
        Line::Expire(target) => push_use(uses, *target, number, false),
        Line::Join(target) => push_use(uses, *target, number, true),
        _ => Ok(()),
    }
}

fn push_use(
    uses: &mut Vec<CallUse>,
    target: Target,
    line: u32,
    waits: bool,
) -> Result<(), AllocError>
    ensures { OnOk result (uses.new.items ≡ uses.old.items ++ (record { target = target; line = line; waits = waits }) ∷ []) }
{
    uses.push(CallUse {
        target,
        line,
        waits,
    })?;
    Ok(())
}

/// The first line that names a call which isn't there.
pub fn first_lost(uses: &[CallUse], numbering: &Numbering) -> Option<u32>
    ensures { result ≡ option_map (λ u. u.line) (find (λ u. not (has_call numbering.now u.target.client u.target.number)) uses.now) }
{
    uses.iter()
        .find(|used| !numbering.is_call(used.target))
        .map(|used| used.line)
}

/// The first line that may wait for good: the first `join`, where a link has no server.
pub fn first_hanging(uses: &[CallUse], unserved: bool) -> Option<u32>
    ensures { result ≡ option_map (λ u. u.line) (find (λ u. u.waits && unserved) uses.now) }
{
    uses.iter()
        .find(|used| used.waits && unserved)
        .map(|used| used.line)
}
