//! `RpcMeta`, the meta of a baidu_std frame: read from its bytes, seen where they lie, and written in its one
//! spelling. The fields and their numbers are those of brpc's baidu_std protocol (baidu_std.md and
//! baidu_rpc_meta.proto), in the Protocol Buffers encoding. Other fields are skipped.
//!
//! Proved: `RpcMeta::read` and `MetaView::read` are exactly `read_meta`, faults in their order; `write_to` and
//! `spell_to` write exactly `meta_bytes`, and what is written of a meta with a request or a response is read again as
//! itself (`reads_back`); `sizes` tells how many bytes each part has (specs/MetaSizes).
#![tactic(auto)]

mod fault;
mod fields;
mod front;
mod gather;
mod meta;
mod parts;
mod read;
mod sizes;
mod spell;
mod straight;
mod view;
mod write;

pub use fault::MetaFault;
pub use front::{FRONT_BYTES, Front};
pub use meta::{MetaBytes, RequestMeta, ResponseMeta, RpcMeta};
pub use sizes::MetaSizes;
pub use view::{MetaView, RequestView, ResponseView};
