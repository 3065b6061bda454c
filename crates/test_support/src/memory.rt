//! Allocations that fail.

use std::alloc::Global;
use std::test::Fail;

/// Takes all the memory that the heap gives, in blocks that are never written, the smallest last.
/// Later allocations fail until some of it is freed.
///
/// No address space is left then, so that the stack cannot grow either. So a test has to make the
/// calls that follow once before, while there is memory.
pub fn hoard(alloc: Global) -> Result<Vec<Vec<u8>>, Fail> {
    let mut blocks = Vec::with_capacity(alloc, 2_000_000)?;
    for halvings in 0..38u32 {
        take_blocks(alloc, (1usize << 40) >> halvings, &mut blocks);
    }
    Ok(blocks)
}

/// Takes blocks of that size until an allocation fails, or the list is full.
fn take_blocks(alloc: Global, size: usize, blocks: &mut Vec<Vec<u8>>) {
    for _ in blocks.len()..blocks.capacity() {
        let Ok(block) = Vec::with_capacity(alloc, size) else {
            return;
        };
        let Ok(()) = blocks.push(block) else {
            return;
        };
    }
}
