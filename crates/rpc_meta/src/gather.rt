ghost use Rattle.std.specs.Prelude.{◌≡◌, ◌≤◌, length, slice_range, option_map};
ghost use Rattle.pb_wire.specs.WireCallAnswers.{field_in, IsBefore};
ghost use Rattle.rpc_meta.specs.Gathered.{nothing};
ghost use Rattle.rpc_meta.specs.MetaParts.{gathered_of};
ghost use Rattle.rpc_meta.specs.MetaGatheringSteps.{read_as, message_after, part_after, gathered_after};

use crate::parts::{Gathering, MetaParts};
use crate::straight::gather_straight;
use pb_wire::{Field, Fields, Value, WireFault};

/// Gathers the parts of the meta that these bytes are: at once where they are spelled as most are, else field by field.
#[inline(always)]
pub fn gather_parts(bytes: &[u8]) -> Result<MetaParts<'_>, WireFault>
    ensures { read_as gathered_of result ≡ gathered_after nothing bytes.now }
{
    match gather_straight(bytes) {
        Some(parts) => Ok(parts),
        None => gather_each(bytes),
    }
}

/// Gathers the parts of the meta that these bytes are, in one pass; a message inside it is read where it stands.
#[inline(never)]
fn gather_each(bytes: &[u8]) -> Result<MetaParts<'_>, WireFault>
    ensures { read_as gathered_of result ≡ gathered_after nothing bytes.now }
{
    let mut parts = MetaParts {
        request: None,
        response: None,
        compress_type: 0,
        correlation_id: 0,
        attachment_size: 0,
    };
    let mut fields = Fields::new(bytes);
    while let Some(field) = fields.next()? {
        parts = add_part(parts, bytes, field)?;
    }
    Ok(parts)
}

/// Adds a field of a meta whose places are in `bytes`.
fn add_part<'a>(
    mut parts: MetaParts<'a>,
    bytes: &'a [u8],
    field: Field,
) -> Result<MetaParts<'a>, WireFault>
    requires { IsBefore (length bytes.now) field.value }
    ensures { read_as gathered_of result ≡ part_after (gathered_of parts.entry) (field_in bytes.now field) }
{
    match (field.number, field.value) {
        (1, Value::Span(from, to)) => {
            parts.request = Some(read_inside(parts.request, bytes, from, to)?);
        }
        (2, Value::Span(from, to)) => {
            parts.response = Some(read_inside(parts.response, bytes, from, to)?);
        }
        (3, Value::Varint(number)) => parts.compress_type = number,
        (4, Value::Varint(number)) => parts.correlation_id = number,
        (5, Value::Varint(number)) => parts.attachment_size = number,
        _ => {}
    }
    Ok(parts)
}

/// Adds the fields of the message that stands from `from` up to `to` to those of earlier ones.
fn read_inside<'a, M: Gathering<'a>>(
    before: Option<M>,
    bytes: &'a [u8],
    from: usize,
    to: usize,
) -> Result<M, WireFault>
    requires from_in { from ≤ to }
    requires to_in { to ≤ length bytes.now }
    ensures { read_as M.said result ≡ message_after M.added M.nothing (option_map M.said before) from (slice_range bytes.now from to) }
{
    let mut message = before.unwrap_or(M::none());
    let mut fields = Fields::within(bytes, from, to);
    while let Some(field) = fields.next()? {
        message = message.add(bytes, field);
    }
    Ok(message)
}
