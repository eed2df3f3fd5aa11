ghost use Rattle.std.specs.Prelude.{◌≡◌};
ghost use Rattle.corr_core.specs.IdTableLayout.{tag_index, id_index, call_index, at_index, all_words};

use crate::marks::Plan;

/// The index of an id slot's tag among the words of a table.
#[inline(always)]
pub fn tag_index(slot: u16) -> usize
    ensures { result ≡ tag_index slot }
{
    2 * slot as usize
}

/// The index of an id slot's word.
#[inline(always)]
pub fn id_index(slot: u16) -> usize
    ensures { result ≡ id_index slot }
{
    2 * slot as usize + 1
}

/// The index of the word with the id of an operation's call.
#[inline(always)]
pub fn call_index(plan: &Plan, operation: u16) -> usize
    ensures { result ≡ call_index plan.now operation }
{
    2 * plan.slots as usize + 2 * operation as usize
}

/// The index of the word that tells where the current attempt of an operation's call went.
#[inline(always)]
pub fn at_index(plan: &Plan, operation: u16) -> usize
    ensures { result ≡ at_index plan.now operation }
{
    2 * plan.slots as usize + 2 * operation as usize + 1
}

/// How many words a table has.
pub fn word_count(plan: &Plan) -> usize
    ensures { result ≡ all_words plan.now }
{
    2 * plan.slots as usize + 2 * plan.operations as usize
}
