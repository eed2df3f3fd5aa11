// The outcomes of operations, by their numbers.
ghost use Rattle.std.specs.Prelude.{◌≡◌, Some, None, replicate, slice_set, IfOk};

use sock_words::Outcome;
use std::alloc::{AllocError, Global};

/// So many operations of which nothing is told.
pub fn untold(alloc: Global, operations: u16) -> Result<Vec<Option<Outcome>>, AllocError>
    ensures { IfOk result (λ said. said.items ≡ replicate operations None) }
{
    let mut said = Vec::new(alloc);
    for _ in 0..operations {
        said.push(None)?;
    }
    Ok(said)
}

/// Notes the outcome of the operation of this number, if there is one.
pub fn say(said: &mut Vec<Option<Outcome>>, number: u16, outcome: Outcome)
    ensures { said.new.items ≡ slice_set said.old.items number (Some outcome) }
{
    if let Some(place) = said.get_mut(usize::from(number)) {
        *place = Some(outcome);
    }
}
