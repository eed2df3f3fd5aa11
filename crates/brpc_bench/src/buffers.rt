use io_buf::{BlockPool, CutFault, IoBuf, NoMemory};
use std::alloc::Global;

/// The message in a buffer.
fn filled(alloc: Global, pool: &mut BlockPool, message: &[u8]) -> Result<IoBuf, NoMemory> {
    let mut buf = IoBuf::new(alloc);
    buf.append_bytes(pool, message)?;
    Ok(buf)
}

/// Cuts a front and gives it back: how many bytes it had.
fn cut(buf: &mut IoBuf, pool: &mut BlockPool, size: usize) -> Result<u64, CutFault> {
    let front = buf.cut_front(size)?;
    let passed = front.len() as u64;
    front.recycle(pool);
    Ok(passed)
}

/// Drops what is left, and gives the buffer back.
fn empty(mut buf: IoBuf, pool: &mut BlockPool) {
    let rest = buf.len();
    buf.pop_front(rest);
    buf.recycle(pool);
}

/// A message is copied into a buffer, shared, cut in two, dropped, and given back.
fn pass(alloc: Global, pool: &mut BlockPool, message: &[u8]) -> Result<u64, CutFault> {
    let mut buf = filled(alloc, pool, message)?;
    let copy = buf.share()?;
    let passed = cut(&mut buf, pool, message.len() / 2)?;
    empty(buf, pool);
    copy.recycle(pool);
    Ok(passed)
}

/// Passes so many messages.
pub fn pass_all(alloc: Global, size: u32, count: u32) -> Result<u64, NoMemory> {
    let message = Vec::from_elem(alloc, b'x', size as usize)?;
    let mut pool = BlockPool::new(alloc);
    let mut sum = 0u64;
    for _ in 0..count {
        match pass(alloc, &mut pool, &message) {
            Ok(passed) => sum = sum.wrapping_add(passed),
            Err(_) => return Err(NoMemory),
        }
    }
    Ok(sum)
}
