//! Words of eight bytes.
use std::alloc::AllocError;

/// Adds a frame with a page table: the given words at their indices, the last one if an index has several, and 0 elsewhere.
pub fn push_table(bytes: &mut Vec<u8>, words: &[(usize, u64)]) -> Result<(), AllocError> {
    let mut table = [0; 512];
    for (index, word) in words {
        if *index < 512 {
            table[*index] = *word;
        }
    }
    for word in &table {
        bytes.extend_from_slice(&word.to_le_bytes())?;
    }
    Ok(())
}
