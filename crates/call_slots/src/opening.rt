ghost use Rattle.std.specs.Prelude.{◌≡◌, ◌*◌, ◌++◌, replicate, None, IfOk, OnOk};
ghost use Rattle.seat_programs.specs.ScriptSetupToEnding.{opening_ids};

use corr_core::{Plan, call_index, word_count};
use sock_message::Call;
use sock_words::IdWord;
use std::alloc::{AllocError, Global};

/// Appends the two words of a slot that was never used.
fn push_slot(words: &mut Vec<u64>) -> Result<(), AllocError>
    ensures { OnOk result (words.new.items ≡ words.old.items ++ opening_ids 1) }
{
    let free = IdWord::pack(1, IdWord::FREE, 1, 0, 0, 0);
    words.extend_from_slice(&[0, free.0])
}

/// Appends those of so many slots.
fn push_slots(words: &mut Vec<u64>, slots: u16) -> Result<(), AllocError>
    ensures { OnOk result (words.new.items ≡ words.old.items ++ opening_ids slots) }
{
    for _ in 0..slots {
        push_slot(words)?;
    }
    Ok(())
}

/// Appends so many zeros.
pub fn push_zeros(words: &mut Vec<u64>, count: usize) -> Result<(), AllocError>
    ensures { OnOk result (words.new.items ≡ words.old.items ++ replicate count 0) }
{
    for _ in 0..count {
        words.push(0)?;
    }
    Ok(())
}

/// The words of a table before its first step.
pub fn opening_words(alloc: Global, plan: Plan) -> Result<Vec<u64>, AllocError>
    ensures { IfOk result (λ words. words.items ≡ opening_ids plan.slots ++ replicate (2 * plan.operations) 0) }
{
    let mut words = Vec::new(alloc);
    push_slots(&mut words, plan.slots)?;
    push_zeros(&mut words, word_count(&plan) - call_index(&plan, 0))?;
    Ok(words)
}

/// So many homes at each of which no call is.
pub fn empty_homes(alloc: Global, count: u16) -> Result<Vec<Option<Call>>, AllocError>
    ensures { IfOk result (λ homes. homes.items ≡ replicate count None) }
{
    let mut homes = Vec::with_capacity(alloc, usize::from(count))?;
    for _ in 0..count {
        homes.push(None)?;
    }
    Ok(homes)
}
