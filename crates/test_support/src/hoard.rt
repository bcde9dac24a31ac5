//! A hoard of all available memory, for tests in which memory allocation fails.

use std::alloc::{AllocError, Global};

/// The maximum number of blocks that are taken.
const BLOCK_COUNT: usize = 100_000;

/// A holder of all memory except room for some blocks. Returns the memory when dropped.
#[derive(Drop)]
pub struct Hoard {
    blocks: Vec<Vec<u8>>,
    // The list of the blocks that were given back. It is kept, since its drop would leave room for as many bytes.
    spared: Vec<Vec<u8>>,
}

impl Hoard {
    /// Takes all available memory, except room for blocks of these sizes. The sizes are in the order in which the
    /// blocks will be requested.
    ///
    /// # Errors
    ///
    /// `AllocError` if there is no room for these blocks, or for the list of the others.
    pub fn past(alloc: Global, room: &[usize]) -> Result<Hoard, AllocError> {
        let mut spared: Vec<Vec<u8>> = Vec::new(alloc);
        for size in room {
            spared.push(Vec::with_capacity(alloc, *size)?)?;
        }
        let blocks = take_all(alloc)?;
        spared.clear();
        Ok(Hoard { blocks, spared })
    }
}

/// Takes all memory, in blocks of decreasing size. The small sizes are all tried, since an allocator may keep freed
/// blocks for requests of equal size.
fn take_all(alloc: Global) -> Result<Vec<Vec<u8>>, AllocError> {
    let mut blocks = Vec::with_capacity(alloc, BLOCK_COUNT)?;
    let mut size = 1 << 46;
    for _ in 0..36 {
        take_blocks(alloc, size, &mut blocks);
        size /= 2;
    }
    for sixteenths in (1..=64).rev() {
        take_blocks(alloc, sixteenths * 16, &mut blocks);
    }
    Ok(blocks)
}

/// Takes blocks of a size as long as there are any, and there is room in the list.
fn take_blocks(alloc: Global, size: usize, blocks: &mut Vec<Vec<u8>>) {
    for _ in 0..20_000 {
        if blocks.len() == blocks.capacity() {
            return;
        }
        match Vec::with_capacity(alloc, size) {
            Ok(block) => blocks.push_reserved(block),
            Err(_) => return,
        }
    }
}
