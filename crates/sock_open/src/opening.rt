// A new table.
ghost use Rattle.std.specs.Prelude.{◌≡◌, ◌+◌, ◌*◌, ◌<◌, ◌≤◌, [], IfOk, IfErr, length};
ghost use Rattle.sock_open.specs.SocketTableOpening.{AreNewWords, AreFresh, AreNewHomes, IsRoom, MayBegin};
ghost use Rattle.sock_rule.specs.OnTable.{opener};
ghost use Rattle.sock_table.specs.ClosedSocketTable.{AreLinks, OutsOf, ways_of};
ghost use Rattle.sock_open.specs.NewTableContents.{AreMade};

use atomic_table::Refused;
use sock_io::Out;
use sock_model::{ref_index, word_count};
use sock_rule::{LinkHome, RuleTable, SockHome, SockSeat, Ways};
use sock_table::{LinkPass, SockTable};
use sock_words::{Plan, Vref};
use std::alloc::{AllocError, Global};
use std::mem;

/// A table with its seats and its passes, in the order of the links.
#[derive(Drop)]
pub struct Made<O: Out> {
    pub table: SockTable<O>,
    pub seats: Vec<SockSeat<O>>,
    pub passes: Vec<LinkPass<O>>,
}

/// There was no memory. The writing halves come back, in their order.
#[derive(Drop)]
pub struct NoTable<O: Out> {
    pub outs: Vec<O>,
}

/// The words of a table before any step.
fn new_words(alloc: Global, plan: &Plan) -> Result<Vec<u64>, AllocError>
    ensures { IfOk result (λ words. AreNewWords plan.now words.items) }
{
    let count = word_count(plan);
    let mut words = vec![in alloc; 0u64; count]?;
    let first = Vref::pack(plan.first, 0).0;
    for slot in 0..plan.slots as u32 {
        words[ref_index(slot)] = first;
    }
    Ok(words)
}

/// What a new table needs of memory.
struct Room<O: Out> {
    words: Vec<u64>,
    homes: Vec<SockHome<O>>,
    seats: Vec<SockSeat<O>>,
    passes: Vec<LinkPass<O>>,
    back: Vec<O>,
}

fn rooms<O: Out>(alloc: Global, plan: &Plan) -> Result<Room<O>, AllocError>
    ensures narrow { IfOk result (λ _. plan.now.requests ≤ 65535) }
    ensures words { IfOk result (λ r. AreNewWords plan.now r.words.items) }
    ensures homes { IfOk result (λ r. IsRoom (plan.now.requests + plan.now.links) r.homes) }
    ensures seats { IfOk result (λ r. IsRoom plan.now.seats r.seats) }
    ensures passes { IfOk result (λ r. IsRoom plan.now.links r.passes) }
    ensures back { IfOk result (λ r. IsRoom plan.now.links r.back) }
{
    let links = plan.links as usize;
    let words = new_words(alloc, plan)?;
    let homes = Vec::with_capacity(alloc, plan.requests as usize + links)?;
    let seats = Vec::with_capacity(alloc, plan.seats as usize)?;
    let passes = Vec::with_capacity(alloc, links)?;
    let back = Vec::with_capacity(alloc, links)?;
    Ok(Room {
        words,
        homes,
        seats,
        passes,
        back,
    })
}

/// The homes of a table: each request's is empty, and each link's has the half that was handed in for it.
fn house<O: Out>(plan: &Plan, outs: Vec<O>, homes: &mut Vec<SockHome<O>>)
    requires outs { AreFresh O.state plan.now outs.items }
    requires room { IsRoom (plan.now.requests + plan.now.links) homes.old }
    ensures new { AreNewHomes plan.now (ways_of O.state outs.items) homes.new.items }
    ensures outs { OutsOf plan.now.requests plan.now.links outs.items homes.new.items }
{
    for _ in 0..plan.requests {
        homes.push_reserved(SockHome::Empty);
    }
    for out in outs {
        homes.push_reserved(SockHome::Link(LinkHome::fresh(out)));
    }
}

/// The halves out of their homes again.
fn take_back<O: Out>(plan: &Plan, mut homes: Vec<SockHome<O>>, back: &mut Vec<O>)
    requires count { length homes.items ≡ plan.now.requests + plan.now.links }
    requires links { AreLinks plan.now.requests plan.now.links homes.items }
    requires room { IsRoom plan.now.links back.old }
    ensures outs { OutsOf plan.now.requests plan.now.links back.new.items homes.items }
    ensures count { length back.new.items ≡ plan.now.links }
{
    let requests = plan.requests as usize;
    let links = plan.links as usize;
    let mut k = 0;
    while k < links {
        let home = mem::replace(&mut homes[requests + k], SockHome::Empty);
        let SockHome::Link(home) = home else {
            unreachable!();
        };
        let LinkHome { out, .. } = home;
        back.push_reserved(out);
        k += 1;
    }
}

/// Splits the passes and the seats off the first seat.
fn deal<O: Out>(
    rule: &RuleTable<O>,
    mut first: SockSeat<O>,
    seats: &mut Vec<SockSeat<O>>,
    passes: &mut Vec<LinkPass<O>>,
)
    requires first { (first.table_id ≡ rule.now.table.shared.table_id) × (first.me ≡ (opener rule.now.plan, [])) }
    requires plan { MayBegin rule.now.plan }
    requires seats { IsRoom rule.now.plan.seats seats.old }
    requires passes { IsRoom rule.now.plan.links passes.old }
    ensures { AreMade rule.now.table.shared.table_id rule.now.plan seats.new.items passes.new.items }
{
    let links = rule.plan.links;
    for k in 0..links {
        let link = links - 1 - k;
        let seat = rule.pass_out(&mut first);
        passes.push_reserved(LinkPass { seat, link });
    }
    passes.reverse();
    for _ in 1..rule.plan.seats {
        let seat = rule.give(&mut first);
        seats.push_reserved(seat);
    }
    seats.push_reserved(first);
}

/// A table of this plan over these links. Where memory is wanting, the writing halves come back.
pub fn new_table<O: Out>(alloc: Global, plan: &Plan, outs: Vec<O>) -> Result<Made<O>, NoTable<O>>
    requires plan { MayBegin plan.now }
    requires outs { AreFresh O.state plan.now outs.items }
    ensures plan { IfOk result (λ m. m.table.rule.plan ≡ plan.now) }
    ensures made { IfOk result (λ m. AreMade m.table.rule.table.shared.table_id plan.now m.seats.items m.passes.items) }
    ensures ways { IfOk result (λ m. m.table.rule.ways.list ≡ ways_of O.state outs.items) }
    ensures back { IfErr result (λ e. e.outs.items ≡ outs.items) }
{
    let Ok(room) = rooms(alloc, plan) else {
        return Err(NoTable { outs });
    };
    let Room {
        words,
        mut homes,
        mut seats,
        mut passes,
        mut back,
    } = room;
    let ways = Ways::of(&outs);
    house(plan, outs, &mut homes);
    match RuleTable::open(alloc, *plan, ways, words.as_slice(), homes) {
        Ok((rule, first)) => {
            deal(&rule, first, &mut seats, &mut passes);
            let table = SockTable { rule };
            Ok(Made {
                table,
                seats,
                passes,
            })
        }
        Err(Refused { slots }) => {
            take_back(plan, slots, &mut back);
            Err(NoTable { outs: back })
        }
    }
}
