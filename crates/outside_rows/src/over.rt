//! The top call over each kind of links.
ghost use Rattle.brpc_eng.specs.ProgramAnswers.{UnusedLinker};

use crate::answer::{Answer, Asked, answered, shown};
use crate::between::{BetweenGate, NotedLinker};
use crate::crowd::is_of_crowd;
use crate::held::{HeldGate, HeldLinker};
use crate::noting::Noting;
use crate::together::{CLIENTS, MeetingGate};
use crate::waits::new_awaited;
use loop_link::LoopLinker;
use ring_link::RingLinker;
use sock_io::{GiveLinker, Linker, OpenGate};
use std::alloc::{AllocError, Global};
use std::sync::{Arc, Wait};
use std::thread::Threads;

/// What the call answers over these links, which go then.
fn answer_over<R: Threads + Wait + Sync + Alloc<A = Global>, L: Linker + Drop>(
    rt: &R,
    asked: Asked,
    links: L,
) -> Result<Answer, AllocError>
    requires unused { UnusedLinker (L.state links) }
{
    let mut links = links;
    answered(rt, asked, &mut links, &OpenGate)
}

/// Over links that take all, but for the calls that fail.
pub fn over_sinks<R: Threads + Wait + Sync + Alloc<A = Global>>(
    rt: &R,
    asked: Asked,
) -> Result<String, AllocError> {
    let alloc = rt.alloc();
    let (fails, put) = (vec![in alloc; asked.open]?, asked.put);
    let answer = answer_over(rt, asked, GiveLinker::failing(alloc, fails, put))?;
    shown(alloc, &answer)
}

fn in_memory<R: Threads + Wait + Sync + Alloc<A = Global>>(
    rt: &R,
    asked: Asked,
) -> Result<Answer, AllocError> {
    let alloc = rt.alloc();
    answer_over(rt, asked, LoopLinker::new(alloc, Vec::new(alloc)))
}

fn on_threads<R: Threads + Wait + Sync + Alloc<A = Global>>(
    rt: &R,
    asked: Asked,
) -> Result<Answer, AllocError> {
    answer_over(rt, asked, RingLinker::new(rt))
}

/// Over links in memory whose other ends serve or end as their lines ask.
pub fn over_loops<R: Threads + Wait + Sync + Alloc<A = Global>>(
    rt: &R,
    asked: Asked,
) -> Result<String, AllocError> {
    shown(rt.alloc(), &in_memory(rt, asked)?)
}

/// Over links whose other ends move by themselves.
pub fn over_rings<R: Threads + Wait + Sync + Alloc<A = Global>>(
    rt: &R,
    asked: Asked,
) -> Result<String, AllocError> {
    shown(rt.alloc(), &on_threads(rt, asked)?)
}

/// Whether a script ends on threads as it does step by step, with the status 0.
pub fn both<R: Threads + Wait + Sync + Alloc<A = Global>>(
    rt: &R,
    by_steps: Asked,
    threads: Asked,
) -> Result<String, AllocError> {
    let first = in_memory(rt, by_steps)?;
    let second = on_threads(rt, threads)?;
    let is_calm = first.status == 0 && second.status == 0;
    let is_alike = first.written.as_slice() == second.written.as_slice();
    format!(in rt.alloc(); "calm {is_calm} alike {is_alike}")
}

/// Over a link whose other end gives these bytes once so many puts were taken.
pub fn over_given<R: Threads + Wait + Sync + Alloc<A = Global>>(
    rt: &R,
    asked: Asked,
    bytes: Vec<u8>,
) -> Result<String, AllocError> {
    let answer = answer_over(rt, asked, GiveLinker::new(rt.alloc(), 30, bytes))?;
    shown(rt.alloc(), &answer)
}

/// What is told of links that were noted.
#[derive(Clone, Copy)]
enum Telling {
    /// Behind the status, which links came back, and how many bytes each took.
    Back,
    /// Behind what is said, what was taken.
    Taken,
    /// Behind the status, whether a crowd's messages left whole, and each client's in its own order.
    Whole,
}

fn told(
    alloc: Global,
    telling: Telling,
    answer: &Answer,
    noted: &[(u16, usize)],
    taken: &[u8],
) -> Result<String, AllocError> {
    let status = answer.status;
    match telling {
        Telling::Back => format!(in alloc; "{status} {noted:?}"),
        Telling::Taken => {
            let said = shown(alloc, answer)?;
            with_digits(alloc, said.as_str(), taken)
        }
        Telling::Whole => {
            let is_whole = is_of_crowd(alloc, answer.written.as_slice(), taken)?;
            format!(in alloc; "{status} whole {is_whole}")
        }
    }
}

fn with_digits(alloc: Global, said: &str, taken: &[u8]) -> Result<String, AllocError> {
    let digits = hex::encode(alloc, taken)?;
    format!(in alloc; "{said} took [{digits}]")
}

/// Over links that are noted.
fn over_noted<R: Threads + Wait + Sync + Alloc<A = Global>, L: Linker + Drop>(
    rt: &R,
    asked: Asked,
    links: Noting<L>,
    telling: Telling,
) -> Result<String, AllocError>
    requires unused { UnusedLinker (L.state links.inner) }
{
    let mut links = links;
    let answer = answered(rt, asked, &mut links, &OpenGate)?;
    told(rt.alloc(), telling, &answer, links.noted(), links.taken())
}

/// Over a connection that gives these bytes, with those that it took.
pub fn over_connection<R: Threads + Wait + Sync + Alloc<A = Global>>(
    rt: &R,
    asked: Asked,
    bytes: Vec<u8>,
) -> Result<String, AllocError> {
    let alloc = rt.alloc();
    let links = Noting::new(alloc, GiveLinker::new(alloc, 0, bytes));
    over_noted(rt, asked, links, Telling::Taken)
}

/// Over links in memory, where an `open` fails.
pub fn back_of_sinks<R: Threads + Wait + Sync + Alloc<A = Global>>(
    rt: &R,
    asked: Asked,
) -> Result<String, AllocError> {
    let alloc = rt.alloc();
    let inner = GiveLinker::failing(alloc, Vec::new(alloc), 0);
    let links = Noting::failing(alloc, inner, asked.open);
    over_noted(rt, asked, links, Telling::Back)
}

/// The same, over rings.
pub fn back_of_rings<R: Threads + Wait + Sync + Alloc<A = Global>>(
    rt: &R,
    asked: Asked,
) -> Result<String, AllocError> {
    let links = Noting::failing(rt.alloc(), RingLinker::new(rt), asked.open);
    over_noted(rt, asked, links, Telling::Back)
}

/// Over rings: whether a crowd's messages left whole.
pub fn over_crowd<R: Threads + Wait + Sync + Alloc<A = Global>>(
    rt: &R,
    asked: Asked,
) -> Result<String, AllocError> {
    let links = Noting::new(rt.alloc(), RingLinker::new(rt));
    over_noted(rt, asked, links, Telling::Whole)
}

/// Over a link whose first put lasts until client 2 comes to its second operation: that, and whether it came there.
pub fn over_held<R: Threads + Wait + Sync + Alloc<A = Global>>(
    rt: &R,
    asked: Asked,
) -> Result<String, AllocError> {
    let alloc = rt.alloc();
    let begun = new_awaited(alloc)?;
    let asked_second = new_awaited(alloc)?;
    let gate = HeldGate {
        begun: Arc::try_clone(&begun)?,
        asked: Arc::try_clone(&asked_second)?,
    };
    let mut links = HeldLinker::new(rt, Arc::try_clone(&begun)?, Arc::try_clone(&asked_second)?);
    let answer = answered(rt, asked, &mut links, &gate)?;
    let said = shown(alloc, &answer)?;
    let is_done = begun.is_done(1) && asked_second.is_done(1);
    format!(in alloc; "{said} done {is_done}")
}

/// Over rings, through a gate where three clients wait for one another: that, and whether they met.
pub fn over_meeting<R: Threads + Wait + Sync + Alloc<A = Global>>(
    rt: &R,
    asked: Asked,
) -> Result<String, AllocError> {
    let alloc = rt.alloc();
    let met = new_awaited(alloc)?;
    let gate = MeetingGate {
        met: Arc::try_clone(&met)?,
    };
    let mut links = RingLinker::new(rt);
    let answer = answered(rt, asked, &mut links, &gate)?;
    let said = shown(alloc, &answer)?;
    let is_done = met.is_done(CLIENTS);
    format!(in alloc; "{said} done {is_done}")
}

/// Over rings, where client 1 waits behind its first operation until a link gave bytes: that, and whether one did.
pub fn over_between<R: Threads + Wait + Sync + Alloc<A = Global>>(
    rt: &R,
    asked: Asked,
) -> Result<String, AllocError> {
    let alloc = rt.alloc();
    let given = new_awaited(alloc)?;
    let gate = BetweenGate {
        given: Arc::try_clone(&given)?,
    };
    let mut links = NotedLinker::new(rt, Arc::try_clone(&given)?);
    let answer = answered(rt, asked, &mut links, &gate)?;
    let said = shown(alloc, &answer)?;
    let is_done = given.is_done(1);
    format!(in alloc; "{said} done {is_done}")
}
