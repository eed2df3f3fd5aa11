//! Numbers and fields.
use pb_wire::{Field, Fields, WireFault, read_varint, varint_size, write_varint};
use std::alloc::{AllocError, Global};

/// The varint in front.
pub fn varint_said(alloc: Global, bytes: &[u8]) -> Result<String, AllocError> {
    let said = read_varint(bytes, 0);
    format!(in alloc; "{said:?}")
}

/// How a number is written, and how long that is.
pub fn written(alloc: Global, number: u64) -> Result<String, AllocError> {
    let mut bytes = Vec::new(alloc);
    if write_varint(&mut bytes, number).is_err() {
        return Err(AllocError);
    }
    let digits = hex::encode(alloc, bytes.as_slice())?;
    let size = varint_size(number);
    format!(in alloc; "{digits} size {size}")
}

/// Each field up to the end, or up to a fault, which is told twice.
pub fn fields_said(alloc: Global, bytes: &[u8]) -> Result<String, AllocError> {
    each_said(alloc, Fields::new(bytes))
}

/// Those of the bytes 2 to 5 alone.
pub fn within_said(alloc: Global, bytes: &[u8]) -> Result<String, AllocError> {
    if bytes.len() < 6 {
        return String::from_str(alloc, "too few");
    }
    each_said(alloc, Fields::within(bytes, 2, 6))
}

/// The next field. Nothing more is said of it, so that the loop over it is proved soon.
fn next_of(fields: &mut Fields<'_>) -> Result<Option<Field>, WireFault> {
    fields.next()
}

/// A fault, and what is answered behind it.
fn fault_said(
    alloc: Global,
    fault: WireFault,
    fields: &mut Fields<'_>,
) -> Result<String, AllocError> {
    let again = next_of(fields);
    format!(in alloc; "{fault:?} {again:?}")
}

fn each_said(alloc: Global, mut fields: Fields<'_>) -> Result<String, AllocError> {
    let mut said = String::new(alloc);
    for _ in 0..100u8 {
        match next_of(&mut fields) {
            Ok(Some(field)) => said.push_str(format!(in alloc; "{field:?} ")?.as_str())?,
            Ok(None) => {
                said.push_str("end")?;
                return Ok(said);
            }
            Err(fault) => {
                said.push_str(fault_said(alloc, fault, &mut fields)?.as_str())?;
                return Ok(said);
            }
        }
    }
    Ok(said)
}
