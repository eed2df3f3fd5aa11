ghost use Rattle.std.specs.Prelude.{◌≡◌, length, IfOk};

use io_block::KEPT_BLOCKS;
use io_buf::{BlockPool, CutFault, IoBuf, NoMemory};
use std::alloc::Global;
use std::test::Fail;

// A pool that keeps two blocks.
fn two_blocks(rt: &HostRuntime) -> Result<BlockPool, NoMemory> {
    let mut pool = BlockPool::new(rt.alloc());
    let first = pool.take()?;
    let second = pool.take()?;
    pool.give_back(first);
    pool.give_back(second);
    Ok(pool)
}

// A buffer with a whole block and a byte.
fn two_pieces(rt: &HostRuntime, pool: &mut BlockPool) -> Result<IoBuf, NoMemory>
    ensures { IfOk result (λ b. length b.items ≡ 8_193) }
{
    let mut buf = IoBuf::new(rt.alloc());
    let bytes = Vec::from_elem(rt.alloc(), b'a', 8_193)?;
    buf.append_bytes(pool, bytes.as_slice())?;
    Ok(buf)
}

// Whether the buffer has these bytes, at most 16.
fn has(buf: &IoBuf, bytes: &[u8]) -> bool {
    let mut room = [0; 16];
    if buf.len() != bytes.len() || bytes.len() > 16 {
        return false;
    }
    let room = &mut room[..bytes.len()];
    buf.copy_to(room);
    &*room == bytes
}

// A buffer with these bytes.
fn buf_of(alloc: Global, pool: &mut BlockPool, bytes: &[u8]) -> Result<IoBuf, NoMemory> {
    let mut buf = IoBuf::new(alloc);
    buf.append_bytes(pool, bytes)?;
    Ok(buf)
}

// Whether two of the bytes "abc" are cut from the front.
fn are_two_cut(buf: &mut IoBuf) -> bool {
    match buf.cut_front(2) {
        Ok(front) => has(&front, b"ab") && has(buf, b"c"),
        Err(_) => false,
    }
}

// Whether a buffer of one byte refuses to have two cut.
fn is_short(buf: &mut IoBuf) -> bool {
    matches!(buf.cut_front(2), Err(CutFault::Short { have: 1 }))
}

#[test]
fn cuts(rt: HostRuntime) -> Result<(), Fail> {
    let mut pool = BlockPool::new(rt.alloc());
    let mut buf = buf_of(rt.alloc(), &mut pool, b"abc")?;
    assert!(rt; are_two_cut(&mut buf));
    assert!(rt; is_short(&mut buf));
    assert!(rt; has(&buf, b"c"));
    Ok(())
}

// That the blocks are really shared is seen at their place, and at the pool: none comes free with the copies.
#[test]
fn a_copy_is_shortened_alone(rt: HostRuntime) -> Result<(), Fail> {
    let mut pool = two_blocks(&rt)?;
    let buf = two_pieces(&rt, &mut pool)?;
    let mut copy = buf.share()?;
    assert!(rt; copy.len() == 8_193 && copy.refs() == 2 && pool.kept() == 0);
    copy.pop_front(8_192);
    assert!(rt; has(&copy, b"a"));
    assert!(rt; buf.len() == 8_193 && !buf.is_empty());
    assert!(rt; buf.first_piece().len() == 8_192);
    copy.recycle(&mut pool);
    assert!(rt; pool.kept() == 0);
    // The last block is the pool's, which writes on behind it.
    buf.recycle(&mut pool);
    assert!(rt; pool.kept() == 1);
    Ok(())
}

// Whether two small messages lie in the one block that the pool lacks, and the second one is there without the first.
fn share_a_block(alloc: Global, pool: &mut BlockPool) -> Result<bool, NoMemory> {
    let first = buf_of(alloc, pool, b"abc")?;
    let second = buf_of(alloc, pool, b"def")?;
    let are_there = has(&first, b"abc") && has(&second, b"def") && pool.kept() == 1;
    first.recycle(pool);
    let is_left = has(&second, b"def");
    second.recycle(pool);
    Ok(are_there && is_left)
}

// Whether a whole message takes no block but one that the pool has.
fn takes_no_other(alloc: Global, pool: &mut BlockPool) -> Result<bool, NoMemory> {
    let bytes = Vec::from_elem(alloc, b'a', 8_192)?;
    let whole = buf_of(alloc, pool, bytes.as_slice())?;
    Ok(whole.refs() == 1 && pool.kept() == 1)
}

// Behind the small messages nothing refers to their block any more.
#[test]
fn small_messages_lie_in_one_block(rt: HostRuntime) -> Result<(), Fail> {
    let mut pool = two_blocks(&rt)?;
    assert!(rt; share_a_block(rt.alloc(), &mut pool)?);
    assert!(rt; takes_no_other(rt.alloc(), &mut pool)?);
    Ok(())
}

#[test]
fn a_pool_keeps_eight_blocks(rt: HostRuntime) -> Result<(), Fail> {
    let mut pool = BlockPool::new(rt.alloc());
    let mut blocks = Vec::new(rt.alloc());
    for _ in 0..KEPT_BLOCKS + 1 {
        blocks.push(pool.take()?)?;
    }
    for block in blocks {
        if block.is_empty() && block.capacity() >= io_block::BLOCK_BYTES {
            pool.give_back(block);
        }
    }
    assert!(rt; pool.kept() == 8);
    Ok(())
}
