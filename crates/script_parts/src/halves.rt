// The halves of links: the writing halves go to the threads, and the others wait.
ghost use Rattle.std.specs.Prelude.{◌≡◌, length, map, IfOk};
ghost use Rattle.call_run.specs.sock_open.specs.SocketTableOpening.{IsRoom};
ghost use Rattle.script_parts.specs.HalvesApartAndTogether.{rest_of, joined, HasRoomFor};

use call_run::Rest;
use sock_io::{Ends, In, Out, Peer};
use std::alloc::{AllocError, Global};
use std::collections::VecDeque;

/// Room for the halves of links.
#[derive(Drop)]
pub struct Halves<O: Out, I: In, P: Peer> {
    pub outs: Vec<O>,
    pub rests: VecDeque<Rest<I, P>>,
    pub back: Vec<Ends<O, I, P>>,
}

/// There is room for those of so many links.
pub fn room_for<O: Out, I: In, P: Peer>(
    alloc: Global,
    count: usize,
) -> Result<Halves<O, I, P>, AllocError>
    ensures { IfOk result (HasRoomFor count) }
{
    let outs = Vec::with_capacity(alloc, count)?;
    let rests = VecDeque::with_capacity(alloc, count)?;
    let back = Vec::with_capacity(alloc, count)?;
    Ok(Halves { outs, rests, back })
}

/// The links are taken apart.
pub fn part<O: Out, I: In, P: Peer>(ends: Vec<Ends<O, I, P>>, halves: &mut Halves<O, I, P>)
    requires { HasRoomFor (length ends.items) halves.old }
    ensures outs { halves.new.outs.items ≡ map (λ e. e.out) ends.items }
    ensures rests { halves.new.rests.items ≡ map rest_of ends.items }
    ensures back { halves.new.back ≡ halves.old.back }
{
    'parts: for link in ends {
        let Ends { out, inn, peer } = link;
        halves.outs.push_reserved(out);
        halves.rests.push_back_reserved(Rest { inn, peer });
    }
}

/// And put together again.
pub fn join<O: Out, I: In, P: Peer>(
    outs: Vec<O>,
    mut rests: VecDeque<Rest<I, P>>,
    back: &mut Vec<Ends<O, I, P>>,
)
    requires as_many { length outs.items ≡ length rests.items }
    requires room { IsRoom (length outs.items) back.old }
    ensures { back.new.items ≡ joined outs.items rests.items }
{
    'joins: for out in outs {
        let Some(rest) = rests.pop_front() else {
            unreachable!();
        };
        let Rest { inn, peer } = rest;
        back.push_reserved(Ends { out, inn, peer });
    }
}
