ghost use Rattle.std.specs.Prelude.{◌≡◌, ◌+◌, ◌*◌, ◌≤◌, ◌++◌, length, option_map, Ok, IfSome};
ghost use Rattle.pb_wire.specs.brpc_model.specs.Wire.{varint_bytes};
ghost use Rattle.pb_wire.specs.brpc_model.specs.Meta.{read_meta};
ghost use Rattle.pb_wire.specs.brpc_model.specs.Spelling.{number_field, bytes_field, where_not_0, where_not_empty, meta_bytes};
ghost use Rattle.rpc_meta.specs.MetaMeaning.{meaning};
ghost use Rattle.rpc_meta.specs.MetaSizes.{IsSizeOf, AreSizes};
ghost use Rattle.rpc_meta.specs.MetaWriting.{part_field, HasPart, MetaFits};

use crate::fields::MetaPart;
use crate::front::{FRONT_BYTES, Front};
use crate::meta::{MetaBytes, RpcMeta};
use crate::sizes::MetaSizes;
use crate::write::spelled;

impl RpcMeta {
    /// Spells the meta in place, as `write_to` does, where there is room for it.
    pub fn spell_to(&self, sizes: MetaSizes, out: &mut Front)
        requires sizes { AreSizes sizes (meaning self.now) }
        requires room { length out.old + sizes.all ≤ FRONT_BYTES }
        ensures exact { out.new ≡ out.old ++ meta_bytes (meaning self.now) }
        ensures reads_back { HasPart (meaning self.now) → read_meta (meta_bytes (meaning self.now)) ≡ Ok (meaning self.now) }
    {
        spell_meta(self, sizes, out);
    }
}

/// Spells the meta.
fn spell_meta(meta: &RpcMeta, sizes: MetaSizes, out: &mut Front)
    requires sizes { AreSizes sizes (meaning meta.now) }
    requires room { length out.old + sizes.all ≤ FRONT_BYTES }
    ensures exact { out.new ≡ out.old ++ meta_bytes (meaning meta.now) }
    ensures fits { MetaFits (meaning meta.now) }
{
    spell_part(1, &meta.request, sizes.request, out);
    spell_part(2, &meta.response, sizes.response, out);
    spell_int(3, meta.compress_type, out);
    spell_number(4, meta.correlation_id, out);
    spell_int(5, meta.attachment_size, out);
}

/// Spells a part under a number where there is one, behind its length.
fn spell_part<P: MetaPart>(number: u8, part: &Option<P>, size: usize, out: &mut Front)
    requires size { IsSizeOf P.bytes (option_map P.said part.now) size }
    requires room { length out.old + length (part_field number P.bytes (option_map P.said part.now)) ≤ FRONT_BYTES }
    ensures exact { out.new ≡ out.old ++ part_field number P.bytes (option_map P.said part.now) }
    ensures fits { IfSome (option_map P.said part.now) P.Fits }
{
    if let Some(part) = part {
        spell_head(number, size, out);
        part.spell_fields(out);
    }
}

/// Spells an int32 where it isn't 0.
#[inline(always)]
fn spell_int(number: u8, value: i32, out: &mut Front)
    requires { length out.old + length (where_not_0 number value) ≤ FRONT_BYTES }
    ensures { out.new ≡ out.old ++ where_not_0 number value }
{
    if value != 0 {
        spell_number(number, spelled(value), out);
    }
}

/// Spells a varint under a number.
#[inline(always)]
pub(crate) fn spell_number(number: u8, value: u64, out: &mut Front)
    requires { length out.old + length (number_field number value) ≤ FRONT_BYTES }
    ensures { out.new ≡ out.old ++ number_field number value }
{
    out.put_varint(u64::from(number) * 8);
    out.put_varint(value);
}

/// Spells bytes under a number, where there are any.
#[inline(always)]
pub(crate) fn spell_text(number: u8, bytes: &[u8], out: &mut Front)
    requires { length out.old + length (where_not_empty number bytes.now) ≤ FRONT_BYTES }
    ensures { out.new ≡ out.old ++ where_not_empty number bytes.now }
{
    if !bytes.is_empty() {
        spell_bytes(number, bytes, out);
    }
}

/// Spells a name under a number.
#[inline(always)]
pub(crate) fn spell_name(number: u8, name: &MetaBytes, out: &mut Front)
    requires { length out.old + length (bytes_field number name.now) ≤ FRONT_BYTES }
    ensures { out.new ≡ out.old ++ bytes_field number name.now }
{
    spell_head(number, name.as_slice().len(), out);
    name.spell_to(out);
}

/// Spells bytes under a number.
#[inline(always)]
fn spell_bytes(number: u8, bytes: &[u8], out: &mut Front)
    requires { length out.old + length (bytes_field number bytes.now) ≤ FRONT_BYTES }
    ensures { out.new ≡ out.old ++ bytes_field number bytes.now }
{
    spell_head(number, bytes.len(), out);
    out.extend(bytes);
}

/// Spells what stands before so many bytes under a number.
#[inline(always)]
fn spell_head(number: u8, size: usize, out: &mut Front)
    requires { length out.old + length (varint_bytes (number * 8 + 2) ++ varint_bytes size) ≤ FRONT_BYTES }
    ensures { out.new ≡ out.old ++ (varint_bytes (number * 8 + 2) ++ varint_bytes size) }
{
    out.put_varint(u64::from(number) * 8 + 2);
    out.put_varint(size as u64);
}
