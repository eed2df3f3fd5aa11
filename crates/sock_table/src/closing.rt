// A table that ends.
ghost use Rattle.std.specs.Prelude.{◌≡◌, ◌+◌, ◌*◌, ◌<◌, ◌≤◌, ℕ, false, [], length, slice_index_or, vec_len, vec_capacity, IfOk, IfErr};
ghost use Rattle.std.specs.Mem.Slots.{slots_items, slots_filled, slots_len, IsFull};
ghost use Rattle.sock_words.specs.declared.vref.Vref.{Vref};
ghost use Rattle.sock_words.specs.declared.place_word.PlaceWord.{PlaceWord};
ghost use Rattle.sock_model.specs.SocketTableLayout.{all_words, ref_index, place_index};
ghost use Rattle.std.specs.List.{flat_map};
ghost use Rattle.sock_table.specs.ClosedSocketTable.{AllDone, IsDoneSeat, WordsAre, AreLinks, OutsOf, ways_of, ClosedBy, IsRoomOf, HasAll};
ghost use Rattle.sock_words.specs.Totals.{total};

use crate::table::SockTable;
use atomic_table::Closed as ClosedTable;
use sock_io::Out;
use sock_model::{place_count, place_index, ref_index};
use sock_rule::{LinkHome, RuleTable, SockHome, SockSeat};
use sock_words::{PlaceWord, Plan, Vref};
use std::alloc::{AllocError, Global};

/// What a table leaves: the place word of each label's place index, the reference word of each slot, and the writing half of
/// each link.
#[derive(Drop)]
pub struct Closed<O: Out> {
    pub places: Vec<PlaceWord>,
    pub vrefs: Vec<Vref>,
    pub outs: Vec<O>,
}

/// There was no memory. All is untouched.
#[derive(Drop)]
pub struct NotClosed<O: Out> {
    pub table: SockTable<O>,
    pub seats: Vec<SockSeat<O>>,
}

// From the last to the first, so that what they noted stands in their order.
fn join_all<O: Out>(rule: &RuleTable<O>, mut seats: Vec<SockSeat<O>>) -> SockSeat<O>
    requires seats { AllDone rule.now.table.shared.table_id rule.now.plan seats.items }
    requires some { 1 ≤ total (λ s. s.me.0.share) seats.items }
    ensures seat { IsDoneSeat rule.now.table.shared.table_id rule.now.plan result }
    ensures share { result.me.0.share ≡ total (λ s. s.me.0.share) seats.items }
    ensures marks { result.me.0.marks ≡ flat_map (λ s. s.me.0.marks) seats.items }
    ensures finds { result.me.0.finds ≡ flat_map (λ s. s.me.0.finds) seats.items }
    ensures histories { result.me.0.histories ≡ flat_map (λ s. s.me.0.histories) seats.items }
    ensures drops { result.me.0.drops ≡ flat_map (λ s. s.me.0.drops) seats.items }
    ensures stores { result.me.0.stores ≡ flat_map (λ s. s.me.0.stores) seats.items }
    ensures lists { result.me.0.lists ≡ flat_map (λ s. s.me.0.lists) seats.items }
    ensures found { result.me.0.found ≡ flat_map (λ s. s.me.0.found) seats.items }
{
    let Some(mut seat) = seats.pop() else {
        unreachable!();
    };
    while let Some(mut earlier) = seats.pop() {
        rule.take_in(&mut earlier, seat);
        seat = earlier;
    }
    seat
}

/// Room for what a table of this plan leaves.
pub fn rooms<O: Out>(alloc: Global, plan: &Plan) -> Result<Closed<O>, AllocError>
    ensures { IfOk result (IsRoomOf plan.now) }
{
    let places = vec![in alloc; PlaceWord::NONE; place_count(plan) as usize]?;
    let vrefs = vec![in alloc; Vref(0); plan.slots as usize]?;
    let outs = Vec::with_capacity(alloc, plan.links as usize)?;
    Ok(Closed {
        places,
        vrefs,
        outs,
    })
}

fn read_vrefs<S>(table: &ClosedTable<S, Global>, plan: &Plan, vrefs: &mut Vec<Vref>)
    requires full { IsFull table.now.words }
    requires words { slots_len table.now.words ≡ all_words plan.now }
    requires sized { length vrefs.old.items ≡ plan.now.slots }
    ensures words { WordsAre (λ (x : Vref). x.0) ref_index plan.now.slots vrefs.new.items (slots_items table.now.words) }
    ensures sized { length vrefs.new.items ≡ plan.now.slots }
{
    for slot in 0..plan.slots {
        vrefs[slot as usize] = Vref(table.word(ref_index(u32::from(slot))));
    }
}

fn read_places<S>(table: &ClosedTable<S, Global>, plan: &Plan, places: &mut Vec<PlaceWord>)
    requires full { IsFull table.now.words }
    requires words { slots_len table.now.words ≡ all_words plan.now }
    requires sized { length places.old.items ≡ 8 * plan.now.operations }
    ensures words { WordsAre (λ (x : PlaceWord). x.0) (place_index plan.now) (8 * plan.now.operations) places.new.items (slots_items table.now.words) }
    ensures sized { length places.new.items ≡ 8 * plan.now.operations }
{
    for place in 0..place_count(plan) {
        places[place as usize] = PlaceWord(table.word(place_index(plan, place)));
    }
}

// The writing halves, in order of the links, out of their homes.
fn take_outs<O: Out>(table: &mut ClosedTable<SockHome<O>, Global>, plan: &Plan, outs: &mut Vec<O>)
    requires full { IsFull table.old.slots }
    requires homes { slots_len table.old.slots ≡ plan.now.requests + plan.now.links }
    requires links { AreLinks plan.now.requests plan.now.links (slots_items table.old.slots) }
    requires empty { (outs.old.items ≡ []) × (vec_len outs.old ≡ 0) }
    requires room { vec_capacity outs.old ≡ plan.now.links }
    ensures outs { OutsOf plan.now.requests plan.now.links outs.new.items (slots_items table.old.slots) }
    ensures count { length outs.new.items ≡ plan.now.links }
    ensures taken { (k : ℕ) → k < slots_len table.new.slots → slice_index_or (slots_filled table.new.slots) k false ≡ false }
{
    let requests = plan.requests as usize;
    let links = plan.links as usize;
    let mut k = 0;
    while k < requests {
        drop(table.take(k));
        k += 1;
    }
    let mut link = 0;
    while link < links {
        let home = table.take(requests + link);
        let SockHome::Link(home) = home else {
            unreachable!();
        };
        let LinkHome { out, .. } = home;
        outs.push_reserved(out);
        link += 1;
    }
}

impl<O: Out> SockTable<O> {
    /// One seat that has what all of these noted, in their order. As `take_in`, for many.
    pub fn join_seats(&self, seats: Vec<SockSeat<O>>) -> SockSeat<O>
        requires seats { AllDone self.now.rule.table.shared.table_id self.now.rule.plan seats.items }
        requires some { 1 ≤ total (λ s. s.me.0.share) seats.items }
        ensures seat { IsDoneSeat self.now.rule.table.shared.table_id self.now.rule.plan result }
        ensures share { result.me.0.share ≡ total (λ s. s.me.0.share) seats.items }
        ensures all { HasAll seats.items result.me.0 }
    {
        join_all(&self.rule, seats)
    }

    /// The seats are all that the table has but those that were taken in, and hold nothing. The room is there already.
    pub fn close_in(self, left: Closed<O>, seats: Vec<SockSeat<O>>) -> Closed<O>
        requires room { IsRoomOf self.rule.plan left }
        requires seats { AllDone self.rule.table.shared.table_id self.rule.plan seats.items }
        requires all { total (λ s. s.me.0.share) seats.items ≡ self.rule.plan.seats }
        requires some { 1 ≤ self.rule.plan.seats }
        ensures closed { ClosedBy O.state self.rule.plan seats.items result.places.items result.vrefs.items result.outs.items }
        ensures ways { ways_of O.state result.outs.items ≡ self.rule.ways.list }
    {
        let seat = join_all(&self.rule, seats);
        let SockTable { rule } = self;
        let RuleTable { table, plan, .. } = rule;
        let mut table = table.close_with(seat);
        let Closed {
            mut places,
            mut vrefs,
            mut outs,
        } = left;
        read_vrefs(&table, &plan, &mut vrefs);
        read_places(&table, &plan, &mut places);
        take_outs(&mut table, &plan, &mut outs);
        table.free();
        Closed {
            places,
            vrefs,
            outs,
        }
    }

    /// As `close_in`. Where memory is wanting all is untouched.
    pub fn close(self, alloc: Global, seats: Vec<SockSeat<O>>) -> Result<Closed<O>, NotClosed<O>>
        requires seats { AllDone self.rule.table.shared.table_id self.rule.plan seats.items }
        requires all { total (λ s. s.me.0.share) seats.items ≡ self.rule.plan.seats }
        requires some { 1 ≤ self.rule.plan.seats }
        ensures closed { IfOk result (λ c. ClosedBy O.state self.rule.plan seats.items c.places.items c.vrefs.items c.outs.items) }
        ensures ways { IfOk result (λ c. ways_of O.state c.outs.items ≡ self.rule.ways.list) }
        ensures untouched { IfErr result (λ e. (e.table ≡ self) × (e.seats ≡ seats)) }
    {
        let Ok(left) = rooms(alloc, &self.rule.plan) else {
            return Err(NotClosed { table: self, seats });
        };
        Ok(self.close_in(left, seats))
    }
}
