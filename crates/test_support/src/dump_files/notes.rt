//! Notes of core files.
use std::alloc::AllocError;

/// The CR0 of each processor: paging and protection are on.
pub const CR0: u64 = 0x8000_0001;

/// The registers of a processor that locate its tables.
#[derive(Clone, Copy, Debug, PartialEq, Eq)]
pub struct Processor {
    /// The address of the root, with flags.
    pub cr3: u64,
    /// Bit 5 is set for entries of 64 bits, bit 12 if the tables have five levels.
    pub cr4: u64,
}

/// Adds the start of a note: the sizes, and a padded name. The descriptor must follow.
pub fn push_note(
    bytes: &mut Vec<u8>,
    name: &[u8],
    name_size: u32,
    size: u32,
) -> Result<(), AllocError> {
    bytes.extend_from_slice(&name_size.to_le_bytes())?;
    bytes.extend_from_slice(&size.to_le_bytes())?;
    bytes.extend_from_slice(&[0; 4])?;
    bytes.extend_from_slice(name)
}

/// Adds QEMU's note of a processor, of 460 bytes.
pub fn push_processor(bytes: &mut Vec<u8>, processor: Processor) -> Result<(), AllocError> {
    push_note(bytes, b"QEMU\0\0\0\0", 5, 440)?;
    bytes.extend_from_slice(&[0; 392])?;
    bytes.extend_from_slice(&CR0.to_le_bytes())?;
    bytes.extend_from_slice(&[0; 16])?;
    bytes.extend_from_slice(&processor.cr3.to_le_bytes())?;
    bytes.extend_from_slice(&processor.cr4.to_le_bytes())?;
    bytes.extend_from_slice(&[0; 8])
}
