ghost use Rattle.std.specs.Prelude.{◌≡◌, ◌+◌, ◌-◌, ◌<◌, ◌≤◌, length, drop, Ok, IfOk};
ghost use Rattle.brpc_model.specs.Wire.{value, field, with_key, bytes_of, span};
ghost use Rattle.pb_wire.specs.Read.{key_of, type_number, value_front, field_front, bytes_front};
ghost use Rattle.pb_wire.specs.WireCallAnswers.{IsBefore};

use crate::fault::WireFault;
use crate::varint::read_varint;

/// A field of a message.
#[derive(Clone, Copy, PartialEq, Eq, Debug)]
pub struct Field {
    /// The field's number, from 1 to 536,870,911.
    pub number: u32,
    /// What it has.
    pub value: Value,
}

/// What a field has, by its wire type.
#[derive(Clone, Copy, PartialEq, Eq, Debug)]
pub enum Value {
    /// Wire type 0: a varint.
    Varint(u64),
    /// Wire type 1: eight bytes, the least byte first.
    Eight(u64),
    /// Wire type 2: a length and that many bytes, which stand from the first place up to the second.
    Span(usize, usize),
    /// Wire type 5: four bytes, the least byte first.
    Four(u32),
}

/// The wire types that begin a value.
#[derive(Clone, Copy)]
pub enum WireType {
    Varint,
    Eight,
    Span,
    Four,
}

/// Reads the field that begins at `at`; answers it with the place after it.
#[inline(always)]
pub fn read_field(bytes: &[u8], at: usize) -> Result<(Field, usize), WireFault>
    requires { at ≤ length bytes.now }
    ensures exact { field_front bytes.now at result ≡ field at (drop at bytes.now) }
    ensures within { IfOk result (λ r. (at < r.1) × (r.1 ≤ length bytes.now) × IsBefore r.1 r.0.value) }
{
    let (key, value_at) = read_varint(bytes, at)?;
    let (number, wire_type) = split_key(key, at)?;
    let (value, next) = read_value(bytes, value_at, wire_type)?;
    Ok((Field { number, value }, next))
}

/// Splits a key, which is `number << 3 | type` and stands at `at`.
#[inline(always)]
fn split_key(key: u64, at: usize) -> Result<(u32, WireType), WireFault>
    ensures { key_of result ≡ with_key at key (λ number type. Ok (number, type)) }
{
    let Ok(key) = u32::try_from(key) else {
        return Err(WireFault::BadKey { at });
    };
    let number = key / 8;
    if number == 0 {
        return Err(WireFault::BadKey { at });
    }
    match key % 8 {
        0 => Ok((number, WireType::Varint)),
        1 => Ok((number, WireType::Eight)),
        2 => Ok((number, WireType::Span)),
        5 => Ok((number, WireType::Four)),
        3 | 4 => Err(WireFault::Group { at }),
        _ => Err(WireFault::BadKey { at }),
    }
}

/// Reads the value of this wire type that begins at `at`; answers it with the place after it.
#[inline(always)]
fn read_value(bytes: &[u8], at: usize, wire_type: WireType) -> Result<(Value, usize), WireFault>
    requires { at ≤ length bytes.now }
    ensures exact { value_front bytes.now at result ≡ value (type_number wire_type) at (drop at bytes.now) }
    ensures within { IfOk result (λ r. (at ≤ r.1) × (r.1 ≤ length bytes.now) × IsBefore r.1 r.0) }
{
    match wire_type {
        WireType::Varint => {
            let (number, next) = read_varint(bytes, at)?;
            Ok((Value::Varint(number), next))
        }
        WireType::Eight => {
            let eight = read_array::<8>(bytes, at)?;
            Ok((Value::Eight(u64::from_le_bytes(eight)), at + 8))
        }
        WireType::Span => read_span(bytes, at),
        WireType::Four => {
            let four = read_array::<4>(bytes, at)?;
            Ok((Value::Four(u32::from_le_bytes(four)), at + 4))
        }
    }
}

/// Reads a length and that many bytes; both begin the value at `at`.
#[inline(always)]
fn read_span(bytes: &[u8], at: usize) -> Result<(Value, usize), WireFault>
    requires { at ≤ length bytes.now }
    ensures exact { value_front bytes.now at result ≡ span at (drop at bytes.now) }
    ensures within { IfOk result (λ r. (at ≤ r.1) × (r.1 ≤ length bytes.now) × IsBefore r.1 r.0) }
{
    let (size, from) = read_varint(bytes, at)?;
    if size > (bytes.len() - from) as u64 {
        return Err(WireFault::Truncated { at });
    }
    let to = from + size as usize;
    Ok((Value::Span(from, to), to))
}

/// The `N` bytes from `at` on.
fn read_array<const N: usize>(bytes: &[u8], at: usize) -> Result<[u8; N], WireFault>
    requires { at ≤ length bytes.now }
    ensures exact { bytes_front N result ≡ bytes_of N at (drop at bytes.now) }
    ensures within { IfOk result (λ _. at + N ≤ length bytes.now) }
{
    let (_, rest) = bytes.split_at(at);
    match rest.first_chunk::<N>() {
        Some(array) => Ok(*array),
        None => Err(WireFault::Truncated { at }),
    }
}
