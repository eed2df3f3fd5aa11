// What clients told, by the numbers of their operations.
ghost use Rattle.std.specs.Prelude.{◌≡◌, None, map, replicate, IfOk};
ghost use Rattle.script_parts.specs.OutcomesSaidByNumber.{said_by, said_by_each};

use rpc_client::Told;
use script_report::{say, untold};
use sock_words::Outcome;
use std::alloc::{AllocError, Global};

/// What a client told.
fn say_own(said: &mut Vec<Option<Outcome>>, told: Vec<Told>)
    ensures { said.new.items ≡ said_by said.old.items told.items }
{
    'tolds: for one in told {
        let Told { number, outcome } = one;
        say(said, number, outcome);
    }
}

/// What all clients told of so many operations; none where nothing is told.
pub fn said_of(
    alloc: Global,
    operations: u16,
    told: Vec<Vec<Told>>,
) -> Result<Vec<Option<Outcome>>, AllocError>
    ensures { IfOk result (λ said. said.items ≡ said_by_each (replicate operations None) (map (λ own. own.items) told.items)) }
{
    let mut said = untold(alloc, operations)?;
    'clients: for own in told {
        say_own(&mut said, own);
    }
    Ok(said)
}
