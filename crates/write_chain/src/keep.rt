// Whoever has the right writes until the head is empty.
ghost use Rattle.std.specs.Prelude.{◌≡◌, ◌<◌, ◌==◌, cond, [], true};
ghost use Rattle.sock_rule.specs.SocketSeatSplits.{IsSeat};
ghost use Rattle.write_chain.specs.declared.right.Doing.TheVariants.{Back};
ghost use Rattle.write_chain.specs.NotingWhileWriting.{Wrote, WroteDrop};
ghost use Rattle.sock_model.specs.declared.chain.Stage.TheVariants.{Empties};
ghost use Rattle.write_chain.specs.WritingRightInHand.{MayGoOn, HasLink, HasPart, FoundDead, GoesBy, FaultsBy, HasMore};
ghost use Rattle.write_chain.specs.KeepingOnWriting.{IsCode, WentBy, WentWriting, KeptBy, KeptWriting, IsDropped, LeavesMore, KeptDropped};

use crate::hold::{Once, Tried};
use crate::right::{Doing, HeldChain, InHand, LinkInHand, Undelivered, Walk, WriteRight};
use crossbeam_utils::Backoff;
use link_pauses::Pauses;
use sock_io::{Out, Ready};
use sock_rule::SockSeat;
use sock_table::{SockRef, SockTable};
use sock_words::{EFAILEDSOCKET, PlaceWord, Ticket, UNCONNECTED};
use std::sync::Wait;

/// What writing came to: the head was emptied, or a message was dropped, after which the right goes on.
pub enum Kept<O: Out> {
    Done(SockRef),
    Dropped {
        right: WriteRight<O>,
        msg: Undelivered,
        code: u16,
    },
}

/// What one step of writing came to.
pub enum Went<O: Out> {
    Done(SockRef),
    Dropped(WriteRight<O>, Undelivered, u16),
    Further(WriteRight<O>),
}

/// The code with which a message is dropped, where this word was read.
#[inline(always)]
pub fn code_or(told: u16) -> u16
    ensures code { result ≡ cond (told == 0) EFAILEDSOCKET told }
{
    if told == 0 { EFAILEDSOCKET } else { told }
}

impl<O: Out> HeldChain<'_, O> {
    /// The message in hand is dropped, with the code of the socket, or EFAILEDSOCKET where none was stored yet.
    #[inline(always)]
    pub fn drop_one(&self, seat: &mut SockSeat<O>, hand: InHand<O>) -> (Doing<O>, Undelivered, u16)
        requires seat { IsSeat self.now.table.now.rule.table.shared.table_id self.now.table.now.rule.plan seat.old }
        requires may { HasPart self.now.table.now.rule.plan self.now.table.now.rule.ways.list self.now.sock.id.0 self.now.last.0 hand seat.old.me × FoundDead self.now.sock.id.0 seat.old.me.0 }
        ensures seat { IsSeat self.now.table.now.rule.table.shared.table_id self.now.table.now.rule.plan seat.new }
        ensures goes { GoesBy self.now.table.now.rule.plan self.now.table.now.rule.ways.list self.now.sock.id.0 self.now.last.0 result.0 seat.new.me }
        ensures message { (result.1.left ≡ hand.bytes) × (result.1.label ≡ hand.label) × (result.1.owner ≡ hand.owner) }
        ensures code { IsCode result.2 self.now.sock.id.0 seat.old.me.0 seat.new.me.0 }
        ensures dead { FoundDead self.now.sock.id.0 seat.new.me.0 }
        ensures wrote { WroteDrop O.state self.now.table.now.rule.plan self.now.sock.id.0 result.1 seat.old.me.0 seat.new.me.0 }
    {
        let told = self.table.code(seat, &self.sock);
        let InHand {
            link,
            home,
            now,
            bytes,
            label,
            owner,
            came: _,
            calls: _,
        } = hand;
        let place = PlaceWord::pack(true, link, home.next);
        let mut home = self
            .table
            .rule
            .drop_place(seat, label.place, place, now, home);
        home.count_place();
        let doing = self.go_past(seat, LinkInHand { link, home }, now);
        let code = code_or(told);
        let msg = Undelivered {
            left: bytes,
            label,
            owner,
        };
        (doing, msg, code)
    }

    /// The link is asked whether it takes more.
    #[inline(always)]
    pub fn ask(&self, seat: &mut SockSeat<O>, mut hand: InHand<O>) -> Doing<O>
        requires seat { IsSeat self.now.table.now.rule.table.shared.table_id self.now.table.now.rule.plan seat.old }
        requires may { HasPart self.now.table.now.rule.plan self.now.table.now.rule.ways.list self.now.sock.id.0 self.now.last.0 hand seat.old.me }
        ensures seat { IsSeat self.now.table.now.rule.table.shared.table_id self.now.table.now.rule.plan seat.new }
        ensures goes { GoesBy self.now.table.now.rule.plan self.now.table.now.rule.ways.list self.now.sock.id.0 self.now.last.0 result seat.new.me }
        ensures faults { FaultsBy (O.state hand.home.out).faults self.now.sock.id.0 result seat.new.me.0 }
        ensures more { HasMore result }
        ensures wrote { Wrote O.state self.now.sock.id.0 seat.old.me.0 seat.new.me.0 }
    {
        match hand.ready() {
            Ready::Now => Doing::Puts(hand),
            Ready::NotYet => Doing::Waits(hand),
            Ready::Failed => {
                self.fail_link(seat, &hand);
                Doing::Puts(hand)
            }
        }
    }

    /// C5 and C6: the walk goes one entry back and turns its next word round, or stays where that isn't connected yet. Behind
    /// the old last entry the first message in order comes next, and `top` is the last ticket then.
    /// bRPC's `Socket::IsWriteComplete` (socket.cpp).
    #[inline(always)]
    pub fn walk_back(
        self,
        seat: &mut SockSeat<O>,
        walk: Walk<O>,
        backoff: &Backoff,
    ) -> WriteRight<O>
        requires seat { IsSeat self.table.now.rule.table.shared.table_id self.table.now.rule.plan seat.old }
        requires may { GoesBy self.table.now.rule.plan self.table.now.rule.ways.list self.sock.id.0 self.last.0 (Back walk) seat.old.me }
        ensures seat { IsSeat self.entry.table.now.rule.table.shared.table_id self.entry.table.now.rule.plan seat.new }
        ensures goes { (result.sock ≡ self.entry.sock) × MayGoOn self.entry.table.now.rule.plan self.entry.table.now.rule.ways.list result seat.new.me }
        ensures more { HasMore result.doing }
        ensures others { seat.new.me.0 ≡ record seat.old.me.0 { rights = seat.new.me.0.rights } }
    {
        let HeldChain { table, sock, last } = self;
        let found = table.rule.read_back(seat, walk.at);
        if found == UNCONNECTED {
            backoff.snooze();
            let doing = Doing::Back(walk);
            return WriteRight { sock, last, doing };
        }
        let Walk {
            link,
            top,
            at,
            after,
        } = walk;
        table.rule.reverse_next(seat, at, after);
        let end = last.0;
        if found == end {
            return WriteRight {
                sock,
                last: top,
                doing: Doing::Next(link, at),
            };
        }
        let walk = Walk {
            link,
            top,
            at: Ticket(found),
            after: at.0,
        };
        let doing = Doing::Back(walk);
        WriteRight { sock, last, doing }
    }

    /// A message in hand is put, gets its place, or is dropped.
    #[inline(always)]
    pub fn put_or_drop(self, seat: &mut SockSeat<O>, hand: InHand<O>) -> Went<O>
        requires seat { IsSeat self.table.now.rule.table.shared.table_id self.table.now.rule.plan seat.old }
        requires may { HasPart self.table.now.rule.plan self.table.now.rule.ways.list self.sock.id.0 self.last.0 hand seat.old.me }
        ensures seat { IsSeat self.entry.table.now.rule.table.shared.table_id self.entry.table.now.rule.plan seat.new }
        ensures went { WentBy self.entry.table.now.rule.plan self.entry.table.now.rule.ways.list self.entry.sock result seat.old.me.0 seat.new.me }
        ensures stays { FoundDead self.entry.sock.id.0 seat.old.me.0 → IsDropped result }
        ensures wrote { WentWriting self.entry.table.now.rule.plan self.entry.sock result seat.old.me.0 seat.new.me.0 }
    {
        match self.try_put(seat, hand) {
            Tried::Dead(hand) => {
                let (doing, msg, code) = self.drop_one(seat, hand);
                Went::Dropped(self.with(doing), msg, code)
            }
            Tried::Whole(hand) => {
                let doing = self.place(seat, hand);
                Went::Further(self.with(doing))
            }
            Tried::Goes(doing) => Went::Further(self.with(doing)),
        }
    }

    /// All that was noted has its place: the right is given up, or the walk begins.
    #[inline(always)]
    pub fn try_head(self, seat: &mut SockSeat<O>, link: LinkInHand<O>) -> Went<O>
        requires seat { IsSeat self.table.now.rule.table.shared.table_id self.table.now.rule.plan seat.old }
        requires may { HasLink self.table.now.rule.plan self.table.now.rule.ways.list self.sock.id.0 self.last.0 Empties [] link seat.old.me }
        ensures seat { IsSeat self.entry.table.now.rule.table.shared.table_id self.entry.table.now.rule.plan seat.new }
        ensures went { WentBy self.entry.table.now.rule.plan self.entry.table.now.rule.ways.list self.entry.sock result seat.old.me.0 seat.new.me }
        ensures wrote { WentWriting self.entry.table.now.rule.plan self.entry.sock result seat.old.me.0 seat.new.me.0 }
        ensures others { seat.new.me.0 ≡ record seat.old.me.0 { rights = seat.new.me.0.rights } }
    {
        match self.leave(seat, link) {
            Once::Done(sock) => Went::Done(sock),
            Once::Keep(right) => Went::Further(right),
        }
    }

    /// What comes next.
    #[inline(always)]
    pub fn go_on(self, seat: &mut SockSeat<O>, doing: Doing<O>, backoff: &Backoff) -> Went<O>
        requires seat { IsSeat self.table.now.rule.table.shared.table_id self.table.now.rule.plan seat.old }
        requires may { GoesBy self.table.now.rule.plan self.table.now.rule.ways.list self.sock.id.0 self.last.0 doing seat.old.me }
        ensures seat { IsSeat self.entry.table.now.rule.table.shared.table_id self.entry.table.now.rule.plan seat.new }
        ensures went { WentBy self.entry.table.now.rule.plan self.entry.table.now.rule.ways.list self.entry.sock result seat.old.me.0 seat.new.me }
        ensures stays { FoundDead self.entry.sock.id.0 seat.old.me.0 → HasMore doing → LeavesMore result }
        ensures wrote { WentWriting self.entry.table.now.rule.plan self.entry.sock result seat.old.me.0 seat.new.me.0 }
    {
        match doing {
            Doing::First => unreachable!(),
            Doing::Puts(hand) => self.put_or_drop(seat, hand),
            Doing::Waits(hand) => {
                let doing = self.ask(seat, hand);
                Went::Further(self.with(doing))
            }
            Doing::Next(link, now) => {
                let hand = self.take_next(seat, link, now);
                let doing = Doing::Puts(hand);
                Went::Further(self.with(doing))
            }
            Doing::Last(link) => self.try_head(seat, link),
            Doing::Reversing(number, top) => {
                let link = self.fetch_link(seat, number);
                let doing = Doing::Back(Walk {
                    link,
                    top,
                    at: top,
                    after: 0,
                });
                Went::Further(self.with(doing))
            }
            Doing::Back(walk) => Went::Further(self.walk_back(seat, walk, backoff)),
        }
    }
}

/// A pause where the link is asked next.
#[inline(always)]
fn pause_at<O: Out, R: Wait>(rt: &R, right: &WriteRight<O>, pauses: &Pauses) {
    if let Doing::Waits(_) = &right.doing {
        pauses.pause(rt);
    } else {
        pauses.reset();
    }
}

/// Writes until the head is empty, and takes what came meanwhile in the order in which it was accepted. Before each put, and
/// before each message that is dropped, it looks whether the socket lives. It waits for a link that takes nothing, and for a
/// writer that hasn't connected its request yet. After each dropped message it answers, and is called again. Where the seat
/// found the life failed before, no message is put.
/// bRPC's `Socket::KeepWrite` with `IsWriteComplete` (socket.cpp, io.md).
pub fn keep_write<O: Out, R: Wait>(
    table: &SockTable<O>,
    rt: &R,
    seat: &mut SockSeat<O>,
    mut right: WriteRight<O>,
) -> Kept<O>
    requires seat { IsSeat table.now.rule.table.shared.table_id table.now.rule.plan seat.old }
    requires may { MayGoOn table.now.rule.plan table.now.rule.ways.list right seat.old.me }
    ensures seat { IsSeat table.now.rule.table.shared.table_id table.now.rule.plan seat.new }
    ensures kept { KeptBy table.now.rule.plan table.now.rule.ways.list right.sock result seat.old.me.0 seat.new.me }
    ensures stays { FoundDead right.sock.id.0 seat.old.me.0 → HasMore right.doing → KeptDropped result }
    ensures wrote { KeptWriting table.now.rule.plan right.sock result seat.old.me.0 seat.new.me.0 }
{
    let backoff = Backoff::new();
    let pauses = Pauses::new();
    'goes: for _ in rt.forever() {
        let WriteRight { sock, last, doing } = right;
        let chain = HeldChain { table, sock, last };
        match chain.go_on(seat, doing, &backoff) {
            Went::Done(sock) => return Kept::Done(sock),
            Went::Dropped(right, msg, code) => {
                return Kept::Dropped { right, msg, code };
            }
            Went::Further(next) => {
                pause_at(rt, &next, &pauses);
                right = next;
            }
        }
    }
    unreachable!()
}
