//! Why a file can't be read as a dump.
ghost use Rattle.std.specs.Prelude.{◌≡◌};
ghost use Rattle.std.specs.Fmt.{WritesOnOk};
ghost use Rattle.x86_64_dump.specs.FaultTexts as texts;
ghost use Rattle.x86_64_dump.specs.declared.error.DumpError.TheVariants as errors;

use crate::formats::UnreadFormat;
use crate::vmcoreinfo::KernelFault;
use std::alloc::{AllocError, AllocFailed};
use std::error::Error;
use std::fmt::{Display, Formatter, Result as FmtResult, Write};
use std::io;

/// The reason why a file isn't a readable dump.
#[derive(Clone, Copy, Debug, PartialEq, Eq)]
pub enum Fault {
    /// The file is of a format that isn't read.
    Unread(UnreadFormat),
    /// A placement was stated for a file whose headers already have its addresses.
    PlacementGiven,
    /// A range of a raw file has no bytes.
    RangeEmpty {
        /// The offset of the range in the file.
        offset: u64,
        /// Its address.
        address: u64,
    },
    /// A range of a raw file ends after the file.
    RangeOutside {
        /// The offset of the range in the file.
        offset: u64,
        /// The number of its bytes.
        size: u64,
        /// The number of bytes in the file.
        length: u64,
    },
    /// The addresses of a range of a raw file end above 2^64.
    RangeTooHigh {
        /// The first address.
        address: u64,
        /// The number of bytes.
        size: u64,
    },
    /// The file is shorter than an ELF header.
    HeaderCut {
        /// The number of bytes in the file.
        length: u64,
    },
    /// The ELF file isn't a 64-bit one.
    WrongClass {
        /// `EI_CLASS`.
        class: u8,
    },
    /// The ELF file isn't little endian.
    WrongByteOrder {
        /// `EI_DATA`.
        order: u8,
    },
    /// The ELF file isn't a core file.
    WrongType {
        /// `e_type`.
        file_type: u16,
    },
    /// The ELF file isn't for x86-64.
    WrongMachine {
        /// `e_machine`.
        machine: u16,
    },
    /// The size of a program header isn't 56 bytes.
    WrongEntrySize {
        /// `e_phentsize`.
        size: u16,
    },
    /// The section header with the number of program headers isn't within the file.
    SectionOutside {
        /// `e_shoff`.
        offset: u64,
        /// The number of bytes in the file.
        length: u64,
    },
    /// The program headers aren't all within the file.
    HeadersOutside {
        /// `e_phoff`.
        offset: u64,
        /// The number of program headers.
        count: u32,
        /// The number of bytes in the file.
        length: u64,
    },
    /// None of the program headers describes memory with a physical address.
    NoMemory,
    /// The file is shorter than the header of LiME's first range.
    RangeHeaderCut {
        /// The number of bytes in the file.
        length: u64,
    },
    /// The bytes where the header of a range of LiME should be don't begin with its magic number.
    NoRangeHeader {
        /// Where the header should begin.
        offset: u64,
    },
    /// The header of a range of LiME has a version that isn't read.
    WrongLimeVersion {
        /// Where the header begins.
        offset: u64,
        /// Its version.
        version: u32,
    },
    /// The last address of a range of LiME is below its first address.
    RangeReversed {
        /// Where the header begins.
        offset: u64,
        /// The first address.
        first: u64,
        /// The last address.
        last: u64,
    },
    /// QEMU's note of a processor ends before a register does, or the file ends before.
    NoteCut {
        /// Where the descriptor of the note begins.
        offset: u64,
        /// The number of bytes in the descriptor.
        size: u64,
        /// The number of bytes that the descriptor needs, all of them within the file.
        needed: u64,
    },
    /// Linux's note VMCOREINFO doesn't say the kernel's root, its levels and the encryption mask.
    VmCoreInfo(KernelFault),
}

/// The reason why a file wasn't read as a dump.
#[derive(Debug, Drop)]
pub enum DumpError {
    /// Memory allocation failed.
    OutOfMemory,
    /// A read of the file failed.
    Read(io::Error),
    /// The file isn't a readable dump.
    Fault(Fault),
}

impl Display for Fault {
    ghost use Rattle.x86_64_dump.specs.FaultTexts.{dump_fault_text};

    ghost output = { dump_fault_text };

    fn fmt<W: Write>(&self, f: &mut Formatter<W>) -> FmtResult {
        match self {
            Fault::Unread(format) => write!(f, "{format}"),
            Fault::PlacementGiven => f.write_str(
                "the file has headers, which say its addresses: leave the base or the ranges out",
            ),
            Fault::HeaderCut { length } => write!(
                f,
                "the file has {length} bytes, and an ELF header 64: the file is cut off"
            ),
            Fault::SectionOutside { offset, length } => write!(
                f,
                "e_phnum at byte 56 is 65535, so section header 0 has the count of program headers, but it begins at byte {offset}, and the file has {length} bytes: the file is damaged or cut off"
            ),
            Fault::HeadersOutside {
                offset,
                count,
                length,
            } => write!(
                f,
                "the {count} program headers of 56 bytes begin at byte {offset}, and the file has {length} bytes: the file is damaged or cut off"
            ),
            Fault::NoMemory => f.write_str(
                "the ELF core has no segment of memory with a physical address, as cores of Xen's `dump-core` have none: write a dump within the machine, by LiME or kdump",
            ),
            Fault::NoteCut {
                offset,
                size,
                needed,
            } => write_note_cut(f, *offset, *size, *needed),
            Fault::VmCoreInfo(fault) => write!(f, "{fault}"),
            Fault::RangeEmpty { .. } | Fault::RangeOutside { .. } | Fault::RangeTooHigh { .. } => {
                self.write_wrong_placement(f)
            }
            Fault::WrongClass { .. }
            | Fault::WrongByteOrder { .. }
            | Fault::WrongType { .. }
            | Fault::WrongMachine { .. }
            | Fault::WrongEntrySize { .. } => self.write_wrong_field(f),
            Fault::RangeHeaderCut { .. }
            | Fault::NoRangeHeader { .. }
            | Fault::WrongLimeVersion { .. }
            | Fault::RangeReversed { .. } => self.write_wrong_range(f),
        }
    }
}

/// Writes that a note, whose descriptor of so many bytes begins at an offset, ends before a register does.
fn write_note_cut<W: Write>(f: &mut Formatter<W>, offset: u64, size: u64, needed: u64) -> FmtResult
    ensures { WritesOnOk W.write_str_gives f.old result (texts.note_cut_text offset size needed) f.new }
{
    write_note(f, offset, size)?;
    write_needed(f, needed)
}

/// Writes where the descriptor of a note begins, and how long it is.
#[tactic(auto, unfolding(crate::specs::FaultTexts::note_text))]
fn write_note<W: Write>(f: &mut Formatter<W>, offset: u64, size: u64) -> FmtResult
    ensures { WritesOnOk W.write_str_gives f.old result (texts.note_text offset size) f.new }
{
    write!(f, "QEMU's note at byte {offset} has {size} bytes")
}

/// Writes how long the descriptor of a note should be.
#[tactic(auto, unfolding(crate::specs::FaultTexts::needed_text))]
fn write_needed<W: Write>(f: &mut Formatter<W>, needed: u64) -> FmtResult
    ensures { WritesOnOk W.write_str_gives f.old result (texts.needed_text needed) f.new }
{
    write!(
        f,
        ", and the register ends at its byte {needed}, or the file ends before: give the register's value, or another processor"
    )
}

impl Fault {
    /// Writes which range of a raw file can't be taken. Writes nothing for other faults.
    fn write_wrong_placement<W: Write>(&self, f: &mut Formatter<W>) -> FmtResult {
        match self {
            Fault::RangeEmpty { offset, address } => write!(
                f,
                "the range that begins at byte {offset}, for the address 0x{address:x}, has 0 bytes: give a greater size"
            ),
            Fault::RangeOutside {
                offset,
                size,
                length,
            } => write!(
                f,
                "the range of {size} bytes begins at byte {offset}, and the file has {length} bytes: give a range within the file"
            ),
            Fault::RangeTooHigh { address, size } => write!(
                f,
                "the range of {size} bytes begins at the address 0x{address:x}, and ends above 2^64: give a lower address or fewer bytes"
            ),
            _ => Ok(()),
        }
    }

    /// Writes which field of the ELF header has a value with which the file isn't read. Writes nothing for other faults.
    fn write_wrong_field<W: Write>(&self, f: &mut Formatter<W>) -> FmtResult {
        match self {
            Fault::WrongClass { class } => write!(
                f,
                "EI_CLASS at byte 4 is {class}, not 2: the ELF file isn't one of 64 bits"
            ),
            Fault::WrongByteOrder { order } => write!(
                f,
                "EI_DATA at byte 5 is {order}, not 1: the ELF file isn't little endian"
            ),
            Fault::WrongType { file_type } => write!(
                f,
                "e_type at byte 16 is {file_type}, not 4: the ELF file is no core file"
            ),
            Fault::WrongMachine { machine } => write!(
                f,
                "e_machine at byte 18 is {machine}, not 62: the ELF file isn't one of x86-64"
            ),
            Fault::WrongEntrySize { size } => write!(
                f,
                "e_phentsize at byte 54 is {size}, not 56: the program headers can't be read"
            ),
            _ => Ok(()),
        }
    }

    /// Writes which range of a LiME file can't be read. Writes nothing for other faults.
    fn write_wrong_range<W: Write>(&self, f: &mut Formatter<W>) -> FmtResult {
        match self {
            Fault::RangeHeaderCut { length } => write!(
                f,
                "the header of 32 bytes of a LiME range begins at byte 0, and the file has {length} bytes: the file is cut off"
            ),
            Fault::NoRangeHeader { offset } => write!(
                f,
                "at byte {offset}, behind the range before, no header of a LiME range begins: the file is damaged"
            ),
            Fault::WrongLimeVersion { offset, version: 2 } => write!(
                f,
                "the LiME range at byte {offset} is of version 2, as AVML compresses it: write the file without compression, by `avml-convert`"
            ),
            Fault::WrongLimeVersion { offset, version } => write!(
                f,
                "the LiME range at byte {offset} is of version {version}, not 1: write the file by LiME with format=lime"
            ),
            Fault::RangeReversed {
                offset,
                first,
                last,
            } => write!(
                f,
                "the LiME range at byte {offset} is from 0x{first:x} to 0x{last:x}, which is below: the file is damaged"
            ),
            _ => Ok(()),
        }
    }
}

impl Error for Fault {}

impl Display for DumpError {
    fn fmt<W: Write>(&self, f: &mut Formatter<W>) -> FmtResult {
        match self {
            DumpError::OutOfMemory => f.write_str("out of memory"),
            DumpError::Read(error) => write!(f, "the file can't be read: {error}"),
            DumpError::Fault(fault) => write!(f, "{fault}"),
        }
    }
}

impl Error for DumpError {}

impl From<AllocError> for DumpError {
    ghost from_gives = { λ _ error. error ≡ errors.OutOfMemory };

    fn from(_error: AllocError) -> DumpError {
        DumpError::OutOfMemory
    }
}

impl<T: Drop> From<AllocFailed<T>> for DumpError {
    ghost from_gives = { λ _ error. error ≡ errors.OutOfMemory };

    fn from(_error: AllocFailed<T>) -> DumpError {
        DumpError::OutOfMemory
    }
}

impl From<io::Error> for DumpError {
    ghost from_gives = { λ cause error. error ≡ errors.Read cause };

    fn from(cause: io::Error) -> DumpError {
        DumpError::Read(cause)
    }
}

impl From<Fault> for DumpError {
    ghost from_gives = { λ fault error. error ≡ errors.Fault fault };

    fn from(fault: Fault) -> DumpError {
        DumpError::Fault(fault)
    }
}
