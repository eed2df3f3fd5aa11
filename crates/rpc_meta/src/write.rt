ghost use Rattle.std.specs.Prelude.{◌≡◌, ◌+◌, ◌*◌, ◌^◌, ◌≤◌, ◌++◌, length, option_map, Ok, IfSome, IfNone, OnOk, if◌then◌else◌, is_ok};
ghost use Rattle.pb_wire.specs.brpc_model.specs.Wire.{varint_bytes};
ghost use Rattle.pb_wire.specs.brpc_model.specs.Meta.{read_meta};
ghost use Rattle.pb_wire.specs.brpc_model.specs.Spelling.{spelled_int, number_field, bytes_field, where_not_0, where_not_empty, where_some, meta_bytes};
ghost use Rattle.rpc_meta.specs.MetaMeaning.{meaning};
ghost use Rattle.rpc_meta.specs.MetaSizes.{IsSizeOf, AreSizes};
ghost use Rattle.rpc_meta.specs.MetaWriting.{Appends, part_field, HasPart, MetaFits};

use crate::fields::MetaPart;
use crate::meta::RpcMeta;
use crate::sizes::MetaSizes;
use pb_wire::{NoMemory, varint_size, write_varint};

impl RpcMeta {
    /// Appends the meta: fields by rising number, shortest varints, a negative int32 in ten bytes.
    ///
    /// compress_type and attachment_size are written where they aren't 0, correlation_id always; log_id where it
    /// is there, and error_text where it isn't empty. After a refusal `out` is unchanged. No memory is taken but
    /// for `out`.
    pub fn write_to(&self, out: &mut Vec<u8>) -> Result<(), NoMemory>
        ensures exact { out.new.items ≡ (if is_ok result then out.old.items ++ meta_bytes (meaning self.now) else out.old.items) }
        ensures reads_back { OnOk result (HasPart (meaning self.now) → read_meta (meta_bytes (meaning self.now)) ≡ Ok (meaning self.now)) }
    {
        let before = out.len();
        let written = append_meta(self, out);
        if written.is_err() {
            out.truncate(before);
        }
        written
    }

    /// How many bytes `write_to` appends: none only where 64 bits don't hold that many.
    pub fn spelled_size(&self) -> Option<usize>
        ensures size { IfSome result (λ n. n ≡ length (meta_bytes (meaning self.now))) }
        ensures none { IfNone result (2 ^ 64 ≤ length (meta_bytes (meaning self.now))) }
    {
        Some(self.sizes()?.all)
    }

    /// How many bytes `write_to` appends, all and of the parts: none only where 64 bits don't hold that many.
    #[inline(always)]
    pub fn sizes(&self) -> Option<MetaSizes>
        ensures sizes { IfSome result (λ s. AreSizes s (meaning self.now)) }
        ensures none { IfNone result (2 ^ 64 ≤ length (meta_bytes (meaning self.now))) }
    {
        match few_sizes(self) {
            Some(sizes) => Some(sizes),
            None => any_sizes(self),
        }
    }
}

/// The sizes of a meta that has a request with few bytes and an id alone, where it is such a one.
#[inline(always)]
fn few_sizes(meta: &RpcMeta) -> Option<MetaSizes>
    ensures { IfSome result (λ s. AreSizes s (meaning meta.now)) }
{
    let Some(request) = &meta.request else {
        return None;
    };
    if meta.response.is_some() || request.log_id.is_some() {
        return None;
    }
    if meta.compress_type != 0 || meta.attachment_size != 0 {
        return None;
    }
    let service = request.service.here_len()?;
    let method = request.method.here_len()?;
    let request = 4 + service + method;
    Some(MetaSizes {
        all: 3 + request + varint_size(meta.correlation_id),
        request,
        response: 0,
    })
}

/// The sizes of a meta of any kind.
#[inline(never)]
fn any_sizes(meta: &RpcMeta) -> Option<MetaSizes>
    ensures sizes { IfSome result (λ s. AreSizes s (meaning meta.now)) }
    ensures none { IfNone result (2 ^ 64 ≤ length (meta_bytes (meaning meta.now))) }
{
    let request = part_size(&meta.request)?;
    let response = part_size(&meta.response)?;
    let asked = whole_part(1, &meta.request, request)?;
    let answered = whole_part(2, &meta.response, response)?;
    let numbers = int_size(3, meta.compress_type)
        + number_size(4, meta.correlation_id)
        + int_size(5, meta.attachment_size);
    let all = asked.checked_add(answered)?.checked_add(numbers)?;
    Some(MetaSizes {
        all,
        request,
        response,
    })
}

/// Appends the meta, or a part of it before a refusal.
fn append_meta(meta: &RpcMeta, out: &mut Vec<u8>) -> Result<(), NoMemory>
    ensures written { Appends out.old.items (meta_bytes (meaning meta.now)) result out.new.items }
    ensures fits { OnOk result (MetaFits (meaning meta.now)) }
{
    append_part(1, &meta.request, out)?;
    append_part(2, &meta.response, out)?;
    append_int(3, meta.compress_type, out)?;
    append_number(4, meta.correlation_id, out)?;
    append_int(5, meta.attachment_size, out)
}

/// Appends a part under a number where there is one. Its length stands before it, so it is counted first.
fn append_part<P: MetaPart>(number: u8, part: &Option<P>, out: &mut Vec<u8>) -> Result<(), NoMemory>
    ensures written { Appends out.old.items (part_field number P.bytes (option_map P.said part.now)) result out.new.items }
    ensures fits { OnOk result (IfSome (option_map P.said part.now) P.Fits) }
{
    let Some(part) = part else {
        return Ok(());
    };
    // A part whose size 64 bits don't hold is larger than any vector, which refuses its fields.
    let size = part.fields_size().unwrap_or(usize::MAX);
    append_head(number, size, out)?;
    part.append_fields(out)
}

/// Appends an int32 where it isn't 0.
fn append_int(number: u8, value: i32, out: &mut Vec<u8>) -> Result<(), NoMemory>
    ensures { Appends out.old.items (where_not_0 number value) result out.new.items }
{
    if value == 0 {
        return Ok(());
    }
    append_number(number, spelled(value), out)
}

/// Appends a varint under a number.
pub(crate) fn append_number(number: u8, value: u64, out: &mut Vec<u8>) -> Result<(), NoMemory>
    ensures { Appends out.old.items (number_field number value) result out.new.items }
{
    write_varint(out, u64::from(number) * 8)?;
    write_varint(out, value)
}

/// Appends bytes under a number, where there are any.
pub(crate) fn append_text(number: u8, bytes: &[u8], out: &mut Vec<u8>) -> Result<(), NoMemory>
    ensures { Appends out.old.items (where_not_empty number bytes.now) result out.new.items }
{
    if bytes.is_empty() {
        return Ok(());
    }
    append_bytes(number, bytes, out)
}

/// Appends bytes under a number.
pub(crate) fn append_bytes(number: u8, bytes: &[u8], out: &mut Vec<u8>) -> Result<(), NoMemory>
    ensures { Appends out.old.items (bytes_field number bytes.now) result out.new.items }
{
    append_head(number, bytes.len(), out)?;
    out.extend_from_slice(bytes)?;
    Ok(())
}

/// Appends what stands before so many bytes under a number.
fn append_head(number: u8, size: usize, out: &mut Vec<u8>) -> Result<(), NoMemory>
    ensures { Appends out.old.items (varint_bytes (number * 8 + 2) ++ varint_bytes size) result out.new.items }
{
    write_varint(out, u64::from(number) * 8 + 2)?;
    write_varint(out, size as u64)
}

/// How many bytes the fields of a part have where there is one, where that fits.
fn part_size<P: MetaPart>(part: &Option<P>) -> Option<usize>
    ensures size { IfSome result (IsSizeOf P.bytes (option_map P.said part.now)) }
    ensures none { IfNone result (2 ^ 64 ≤ length (where_some P.bytes (option_map P.said part.now))) }
{
    match part {
        Some(part) => part.fields_size(),
        None => Some(0),
    }
}

/// How many bytes a part has where there is one, with what stands before its fields, where that fits.
fn whole_part<P: MetaPart>(number: u8, part: &Option<P>, size: usize) -> Option<usize>
    requires { IsSizeOf P.bytes (option_map P.said part.now) size }
    ensures size { IfSome result (λ n. n ≡ length (part_field number P.bytes (option_map P.said part.now))) }
    ensures none { IfNone result (2 ^ 64 ≤ length (part_field number P.bytes (option_map P.said part.now))) }
{
    match part {
        Some(_) => bytes_size(number, size),
        None => Some(0),
    }
}

/// How many bytes an int32 has, which isn't written where it is 0.
fn int_size(number: u8, value: i32) -> usize
    ensures size { result ≡ length (where_not_0 number value) }
    ensures at_most { result ≤ 20 }
{
    if value == 0 {
        return 0;
    }
    number_size(number, spelled(value))
}

/// How many bytes a varint under a number has.
pub(crate) fn number_size(number: u8, value: u64) -> usize
    ensures size { result ≡ length (number_field number value) }
    ensures at_most { result ≤ 20 }
{
    varint_size(u64::from(number) * 8) + varint_size(value)
}

/// How many bytes these have under a number, where there are any and that fits.
pub(crate) fn text_size(number: u8, bytes: &[u8]) -> Option<usize>
    ensures size { IfSome result (λ n. n ≡ length (where_not_empty number bytes.now)) }
    ensures none { IfNone result (2 ^ 64 ≤ length (where_not_empty number bytes.now)) }
{
    if bytes.is_empty() {
        return Some(0);
    }
    bytes_size(number, bytes.len())
}

/// How many bytes so many bytes under a number have, where that fits.
pub(crate) fn bytes_size(number: u8, len: usize) -> Option<usize>
    ensures size { IfSome result (λ n. n ≡ length (varint_bytes (number * 8 + 2) ++ varint_bytes len) + len) }
    ensures none { IfNone result (2 ^ 64 ≤ length (varint_bytes (number * 8 + 2) ++ varint_bytes len) + len) }
{
    let head = varint_size(u64::from(number) * 8 + 2) + varint_size(len as u64);
    head.checked_add(len)
}

/// An int32 as the number of 64 bits that its varint spells.
pub(crate) fn spelled(value: i32) -> u64
    ensures { result ≡ spelled_int value }
{
    i64::from(value).cast_unsigned()
}
