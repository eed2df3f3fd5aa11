//! What reaches the outside: sources, sinks, links and gates as traits, those in memory, and those over std.
//!
//! Each trait has one ghost member `state` that is its meaning (specs/SourceAndSinkState, LinkHalves, Peer), with a
//! count of faults: a failure is answered only where the count rose in that call. `PutStep`, `TakeStep` and
//! `SettleStep` say what each call of a link answers and changes. `Shaped::put` is the law of piece, again and fail
//! (`FollowsShape`). A take of a half that tells what waits gives as much of that as the room takes (`FillsRoom`).
//! Behind `settle` a link was offered what belongs to all that it took (`IsSettled`); comparing the ends of a link on
//! one thread may make known what the other end offered, and changes nothing else (`MeetStep`, `IsFound`). `write_all`
//! writes a text whole, or a beginning of it where the sink failed (`WrotePart`). What a real file or stream holds is
//! trusted.
#![tactic(auto)]

mod answered;
mod counts;
mod ending;
mod give_in;
mod give_linker;
mod link;
mod mem_link;
mod mem_links;
mod mem_sink;
mod mem_source;
mod noted_links;
mod room;
mod shape;
mod shaped;
mod std_edge;
mod stream;
mod writing;

pub use answered::Answered;
pub use counts::risen;
pub use ending::Ending;
pub use give_in::GiveIn;
pub use give_linker::GiveLinker;
pub use link::{
    Ends, Gate, In, LinkSpec, Linker, Mode, OpenFault, OpenGate, Out, Peer, Put, Ready, Served,
    Take,
};
pub use mem_link::{MemIn, MemOut, NoPeer};
pub use mem_links::MemLinks;
pub use mem_sink::MemSink;
pub use mem_source::MemSource;
pub use noted_links::{NotedLinks, noted};
pub use shaped::Shaped;
pub use sock_words::{NoMemory, Shape};
pub use std_edge::StdEdge;
pub use stream::{Failed, Sink, Source};
pub use writing::write_all;
