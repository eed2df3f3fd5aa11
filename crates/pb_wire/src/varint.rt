ghost use Rattle.std.specs.Prelude.{◌≡◌, ℕ, List, ◌+◌, ◌-◌, ◌*◌, ◌%◌, ◌^◌, ◌<◌, ◌≤◌, length, drop, ◌++◌, min, slice_range, Ok, IfOk, is_ok, if◌then◌else◌};
ghost use Rattle.std.specs.List.{prefix_len};
ghost use Rattle.brpc_model.specs.Wire.{varint, goes_on, low_first, varint_bytes};
ghost use Rattle.pb_wire.specs.WireCallAnswers.{varint_front};
ghost use Rattle.pb_wire.specs.Form.{IsVarint};

use crate::fault::WireFault;
use sock_words::NoMemory;

/// The most bytes that a varint has.
const MOST_BYTES: usize = 10;

/// Reads the varint that begins at `at`; answers its value and the place after it.
///
/// Each byte has seven bits of the value, the lowest first, and a byte with its high bit set is
/// followed by another. Bits past the 64th are dropped, so a varint may be spelled longer than needed.
/// `LongVarint` where the tenth byte has its high bit set, else `Truncated` where the bytes end before
/// the varint does; both name `at`.
#[inline(always)]
pub fn read_varint(bytes: &[u8], at: usize) -> Result<(u64, usize), WireFault>
    requires { at ≤ length bytes.now }
    ensures exact { varint_front at result ≡ varint at (drop at bytes.now) }
    ensures within { IfOk result (λ r. (at < r.1) × (r.1 ≤ length bytes.now)) }
    ensures spelled { IfOk result (λ r. IsVarint (slice_range bytes.now at r.1) r.0) }
    ensures each { (n to : ℕ) → at ≤ to → to ≤ length bytes.now → IsVarint (slice_range bytes.now at to) n → result ≡ Ok (n, to) }
{
    if at < bytes.len() && bytes[at] < 0x80 {
        return Ok((u64::from(bytes[at]), at + 1));
    }
    read_any_varint(bytes, at)
}

// A varint of any length.
#[inline(never)]
fn read_any_varint(bytes: &[u8], at: usize) -> Result<(u64, usize), WireFault>
    requires { at ≤ length bytes.now }
    ensures exact { varint_front at result ≡ varint at (drop at bytes.now) }
    ensures within { IfOk result (λ r. (at < r.1) × (r.1 ≤ length bytes.now)) }
    ensures spelled { IfOk result (λ r. IsVarint (slice_range bytes.now at r.1) r.0) }
    ensures each { (n to : ℕ) → at ≤ to → to ≤ length bytes.now → IsVarint (slice_range bytes.now at to) n → result ≡ Ok (n, to) }
{
    let (_, rest) = bytes.split_at(at);
    let more = count_followed(rest);
    if more == MOST_BYTES {
        return Err(WireFault::LongVarint { at });
    }
    if more == rest.len() {
        return Err(WireFault::Truncated { at });
    }
    let (spelled, _) = rest.split_at(more + 1);
    Ok((sum_groups(spelled), at + more + 1))
}

/// How many bytes at the front are followed by another byte of the varint, counted up to ten.
fn count_followed(bytes: &[u8]) -> usize
    ensures { result ≡ min MOST_BYTES (prefix_len goes_on bytes.now) }
{
    for (i, byte) in bytes.iter().enumerate() {
        if i == MOST_BYTES || *byte < 0x80 {
            return i;
        }
    }
    bytes.len()
}

/// The number whose groups of seven bits these bytes have, the lowest first, without its bits past the 64th.
fn sum_groups(bytes: &[u8]) -> u64
    ensures { result ≡ low_first bytes.now % 2 ^ 64 }
{
    let mut sum = 0u64;
    for i in (0..bytes.len()).rev() {
        sum = sum
            .wrapping_mul(0x80)
            .wrapping_add(u64::from(bytes[i] % 0x80));
    }
    sum
}

/// Appends the shortest varint of `value`; after a refusal `out` is unchanged.
pub fn write_varint(out: &mut Vec<u8>, value: u64) -> Result<(), NoMemory>
    ensures exact { out.new.items ≡ (if is_ok result then out.old.items ++ varint_bytes value else out.old.items) }
    ensures spelled { IsVarint (varint_bytes value) value }
    ensures shortest { (bytes : List ℕ) → IsVarint bytes value → length (varint_bytes value) ≤ length bytes }
{
    if value < 0x80 {
        out.push(value as u8)?;
        return Ok(());
    }
    let mut spelled = [0u8; MOST_BYTES];
    let mut length = 0;
    let mut rest = value;
    while rest >= 0x80 {
        spelled[length] = (rest % 0x80 + 0x80) as u8;
        length += 1;
        rest /= 0x80;
    }
    spelled[length] = rest as u8;
    out.extend_from_slice(&spelled[..length + 1])?;
    Ok(())
}

/// How many bytes the shortest varint of `value` has.
#[inline]
pub fn varint_size(value: u64) -> usize
    ensures size { result ≡ length (varint_bytes value) }
    ensures at_most { result ≤ MOST_BYTES }
{
    let mut size = 1;
    let mut rest = value;
    while rest >= 0x80 {
        rest /= 0x80;
        size += 1;
    }
    size
}
