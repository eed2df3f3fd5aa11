ghost use Rattle.std.specs.Prelude.{IfSome};
ghost use Rattle.corr_id.specs.IdTableOpening.{AreNew};
ghost use Rattle.corr_id.specs.IdTableSeat.{Sits, IsFree};

use corr_id::{IdSeat, IdTable};
use std::alloc::Global;
use std::sync::Wait;
use std::thread;
use std::thread::Threads;

/// How many ids there may be at a time, so many that each thread always finds a free one.
const SLOTS: u16 = 256;

type Table = IdTable<u32>;

type Seat = IdSeat<u32>;

/// Makes an id of two versions, locks it and ends it: whether its content came back.
fn cycle<R: Wait>(rt: &R, table: &Table, seat: &mut Seat, content: u32) -> bool
    requires { Sits table.now.table.shared.table_id seat.old × IsFree seat.old.me.0 }
    ensures { Sits table.now.table.shared.table_id seat.new × IsFree seat.new.me.0 }
{
    let Ok(id) = table.create(seat, 2, content) else {
        return false;
    };
    let Ok(lock) = table.lock(rt, seat, id) else {
        return false;
    };
    table.destroy(seat, lock) == content
}

/// So many of them: how many brought their content back.
fn cycles<R: Wait>(rt: &R, table: &Table, mut seat: Seat, count: u32) -> u64
    requires { Sits table.now.table.shared.table_id seat × IsFree seat.me.0 }
{
    let mut done = 0u64;
    for round in 0..count {
        if cycle(rt, table, &mut seat, round) {
            done = done.wrapping_add(1);
        }
    }
    done
}

/// A table, and a seat for each thread.
fn begin(alloc: Global, threads: u32) -> Option<(Table, Vec<Seat>)>
    ensures { IfSome result (λ t. AreNew t.0.table.shared.table_id t.1.items) }
{
    if threads == 0 || threads > 64 {
        return None;
    }
    match IdTable::new(alloc, SLOTS, 0, threads as u16) {
        Ok(made) => Some(made),
        Err(_) => None,
    }
}

/// By so many threads, so many by each: how many ids brought their content back.
pub fn on_threads<R: Threads + Wait + Sync>(
    rt: &R,
    alloc: Global,
    threads: u32,
    count: u32,
) -> Option<u64> {
    let (table, seats) = begin(alloc, threads)?;
    let shared = &table;
    let all = thread::map_vec(
        rt,
        seats,
        &|seat: Seat| -> u64
            requires { Sits shared.now.table.shared.table_id seat × IsFree seat.me.0 }
        { cycles(rt, shared, seat, count) },
    );
    let Ok(counts) = all else {
        return None;
    };
    let mut total = 0u64;
    for done in counts {
        total = total.wrapping_add(done);
    }
    Some(total)
}
