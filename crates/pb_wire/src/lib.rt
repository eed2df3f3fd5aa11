//! The wire form of Protocol Buffers: varints, and the fields of a message with their places. The rules are those of
//! the Protocol Buffers encoding (<https://protobuf.dev/programming-guides/encoding/>). Groups, its wire types 3 and
//! 4, are faults.
//!
//! Proved: `read_varint`, `write_varint` and `Fields::next` are exactly the wire form of `brpc_model` Wire, also as a
//! relation that names no order of reading (`IsVarint`, `IsField`, `IsMessage` of specs/Form). A `Fields` that met a
//! fault answers it for good.
#![tactic(auto)]

mod fault;
mod message;
mod values;
mod varint;

pub use fault::WireFault;
pub use message::Fields;
pub use sock_words::NoMemory;
pub use values::{Field, Value};
pub use varint::{read_varint, varint_size, write_varint};
