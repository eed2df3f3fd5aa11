use std::alloc::{AllocError, Global};

/// The meta of a call of Echo.Echo.
const META: &[u8] = b"\x0a\x0c\x0a\x04Echo\x12\x04Echo\x20\x02";

/// The frame of such a call with so many bytes.
pub fn request_of(alloc: Global, size: u32) -> Result<Vec<u8>, AllocError> {
    let mut frame = Vec::new(alloc);
    frame.extend_from_slice(b"PRPC")?;
    frame.extend_from_slice(&size.saturating_add(16).to_be_bytes())?;
    frame.extend_from_slice(&16u32.to_be_bytes())?;
    frame.extend_from_slice(META)?;
    let payload = vec![in alloc; 97; size as usize]?;
    frame.extend_from_slice(&payload)?;
    Ok(frame)
}
