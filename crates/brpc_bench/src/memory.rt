use io_buf::NoMemory;
use std::alloc::Global;

/// Takes memory of so many bytes and gives it back, so many times.
pub fn take_all(alloc: Global, size: u32, count: u32) -> Result<u64, NoMemory> {
    let mut sum = 0u64;
    for i in 0..count {
        let mut room = Vec::with_capacity(alloc, size as usize)?;
        room.push(i)?;
        sum = sum.wrapping_add(room.len() as u64);
    }
    Ok(sum)
}
