// The rule of the table, and the names of its steps.
ghost use Rattle.id_rule.specs.LawfulIdTable.{first_view, joined, spent, lighter, newcomer};
ghost use Rattle.id_rule.specs.IdPlays.{claim_told, take_told, give_told, make_told, end_told, free_told, store_told};
ghost use Rattle.corr_id.specs.Ruled.{Ruled, read_told, see_told, lock_told, queue_told, unlock_told, load_told};

use atomic_table::{Join, Play, Split, TableRule};
use corr_core::{Plan, View};

pub struct Rule;

impl<C> TableRule<Option<C>, View<C>, Plan> for Rule {
    ghost holds = { Ruled };

    ghost first = { first_view };
}

pub struct Claim;

impl<C> Play<Option<C>, View<C>> for Claim {
    ghost then = { claim_told };
}

pub struct Read;

impl<C> Play<Option<C>, View<C>> for Read {
    ghost then = { read_told };
}

pub struct See;

impl<C> Play<Option<C>, View<C>> for See {
    ghost then = { see_told };
}

pub struct Take;

impl<C> Play<Option<C>, View<C>> for Take {
    ghost then = { take_told };
}

pub struct Give;

impl<C> Play<Option<C>, View<C>> for Give {
    ghost then = { give_told };
}

pub struct Make;

impl<C> Play<Option<C>, View<C>> for Make {
    ghost then = { make_told };
}

pub struct Lock;

impl<C> Play<Option<C>, View<C>> for Lock {
    ghost then = { lock_told };
}

pub struct Queue;

impl<C> Play<Option<C>, View<C>> for Queue {
    ghost then = { queue_told };
}

pub struct Unlock;

impl<C> Play<Option<C>, View<C>> for Unlock {
    ghost then = { unlock_told };
}

pub struct End;

impl<C> Play<Option<C>, View<C>> for End {
    ghost then = { end_told };
}

pub struct Free;

impl<C> Play<Option<C>, View<C>> for Free {
    ghost then = { free_told };
}

pub struct Store;

impl<C> Play<Option<C>, View<C>> for Store {
    ghost then = { store_told };
}

pub struct Load;

impl<C> Play<Option<C>, View<C>> for Load {
    ghost then = { load_told };
}

pub struct TakeIn;

impl<C> Join<View<C>> for TakeIn {
    ghost both = { joined };

    ghost spent = { spent };
}

pub struct SeatOut;

impl<C> Split<View<C>> for SeatOut {
    ghost left = { lighter };

    ghost right = { λ v. newcomer };
}
