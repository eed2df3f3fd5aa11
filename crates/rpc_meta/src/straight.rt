ghost use Rattle.std.specs.Prelude.{◌≡◌, ◌+◌, ◌*◌, ◌<◌, ◌≤◌, length, Ok, IfSome};
ghost use Rattle.rpc_meta.specs.Gathered.{nothing};
ghost use Rattle.rpc_meta.specs.MetaParts.{gathered_of};
ghost use Rattle.rpc_meta.specs.MetaGatheringSteps.{gathered_after};
ghost use Rattle.rpc_meta.specs.Straight.{SpanNext, NumberOrNone};

use crate::parts::{MetaParts, RequestParts};
use pb_wire::read_varint;

/// The parts of a meta in the spelling that most requests have: the request with its service and its method, then
/// the numbers in their order. `None` says nothing of the bytes.
#[inline(always)]
pub fn gather_straight(bytes: &[u8]) -> Option<MetaParts<'_>>
    ensures { IfSome result (λ parts. Ok (gathered_of parts) ≡ gathered_after nothing bytes.now) }
{
    let (from, to) = span_next(bytes, 0, bytes.len(), 1)?;
    let (service_from, service_to) = span_next(bytes, from, to, 1)?;
    let (method_from, method_to) = span_next(bytes, service_to, to, 2)?;
    if method_to != to {
        return None;
    }
    let (compress_type, at) = number_or_none(bytes, to, 3)?;
    let (correlation_id, at) = number_or_none(bytes, at, 4)?;
    let (attachment_size, at) = number_or_none(bytes, at, 5)?;
    if at != bytes.len() {
        return None;
    }
    let request = RequestParts {
        service: Some(&bytes[service_from..service_to]),
        method: Some(&bytes[method_from..method_to]),
        log_id: None,
    };
    Some(MetaParts {
        request: Some(request),
        response: None,
        compress_type,
        correlation_id,
        attachment_size,
    })
}

/// The places of the bytes that stand next under a number, where they are fewer than 128 and end by `end`.
#[inline(always)]
fn span_next(bytes: &[u8], at: usize, end: usize, number: u8) -> Option<(usize, usize)>
    requires end { (at ≤ end) × (end ≤ length bytes.now) }
    requires number { (1 ≤ number) × (number < 15) }
    ensures within { IfSome result (λ r. (at ≤ r.0) × (r.1 ≤ end)) }
    ensures spelled { IfSome result (λ r. SpanNext bytes.now number at r.0 r.1) }
{
    if end - at < 2 || bytes[at] != number * 8 + 2 || bytes[at + 1] >= 0x80 {
        return None;
    }
    let from = at + 2;
    let size = bytes[at + 1] as usize;
    if size > end - from {
        return None;
    }
    Some((from, from + size))
}

/// The number that stands next under a number, where there is one, else 0; with the place behind it.
#[inline(always)]
fn number_or_none(bytes: &[u8], at: usize, number: u8) -> Option<(u64, usize)>
    requires place { at ≤ length bytes.now }
    requires number { (1 ≤ number) × (number < 15) }
    ensures within { IfSome result (λ r. (at ≤ r.1) × (r.1 ≤ length bytes.now)) }
    ensures spelled { IfSome result (λ r. NumberOrNone bytes.now number at r.0 r.1) }
{
    if at == bytes.len() || bytes[at] != number * 8 {
        return Some((0, at));
    }
    match read_varint(bytes, at + 1) {
        Ok((value, next)) => Some((value, next)),
        Err(_) => None,
    }
}
