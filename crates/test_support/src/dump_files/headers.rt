//! Headers of ELF files.
use std::alloc::AllocError;
use x86_64_dump::Segment;

/// The first 56 bytes of the header of an ELF core file of x86-64: 64 bits, little endian, and program headers of 56 bytes right
/// behind the header.
const HEADER: &[u8] = b"\x7fELF\x02\x01\x01\0\0\0\0\0\0\0\0\0\x04\0\x3e\0\x01\0\0\0\
    \0\0\0\0\0\0\0\0\x40\0\0\0\0\0\0\0\0\0\0\0\0\0\0\0\0\0\0\0\x40\0\x38\0";

/// Adds the header of an ELF core file with this number of program headers, 64 bytes.
///
/// # Errors
///
/// An error if memory allocation fails, as for all functions that add bytes.
pub fn push_elf(bytes: &mut Vec<u8>, count: u16) -> Result<(), AllocError> {
    bytes.extend_from_slice(HEADER)?;
    bytes.extend_from_slice(&count.to_le_bytes())?;
    bytes.extend_from_slice(&[0; 6])
}

/// Adds a program header, of 56 bytes.
pub fn push_segment(bytes: &mut Vec<u8>, segment: Segment) -> Result<(), AllocError> {
    bytes.extend_from_slice(&segment.kind.to_le_bytes())?;
    bytes.extend_from_slice(&[0; 4])?;
    bytes.extend_from_slice(&segment.offset.to_le_bytes())?;
    bytes.extend_from_slice(&[0; 8])?;
    bytes.extend_from_slice(&segment.address.to_le_bytes())?;
    bytes.extend_from_slice(&segment.size.to_le_bytes())?;
    bytes.extend_from_slice(&[0; 16])
}
