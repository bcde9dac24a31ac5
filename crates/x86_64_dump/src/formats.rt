//! The formats of files, known by the magic numbers that they begin with.
ghost use Rattle.std.specs.Prelude.{◌≡◌, true, nat_eq, drop, IfOk, IfErr};
ghost use Rattle.std.specs.List.{starts_with};
ghost use Rattle.x86_64_dump.specs.Formats.{format_name, format_of, segments_of};
ghost use Rattle.x86_64_dump.specs.Opening.{OpensAs};
ghost use Rattle.x86_64_dump.specs.private.Magics.{first_format};

mod elf;
mod lime;

use crate::error::{DumpError, Fault};
use crate::formats::elf::read_elf;
use crate::formats::lime::read_lime;
use crate::placement::{Placement, raw_segments, refuse_stated};
use crate::segment::Segment;
use crate::source::ByteSource;
use std::alloc::Global;
use std::fmt::{Display, Formatter, Result as FmtResult, Write};
use std::io;

/// The format of a file.
#[derive(Clone, Copy, Debug, PartialEq, Eq)]
pub enum Format {
    /// No known one: the bytes are those of physical memory.
    Raw,
    /// ELF, as core files of QEMU's `dump-guest-memory` and Linux's kdump are.
    Elf,
    /// LiME: ranges of memory, each behind a header.
    Lime,
    /// A format that isn't read.
    Unread(UnreadFormat),
}

/// A format that isn't read.
#[derive(Clone, Copy, Debug, PartialEq, Eq)]
pub enum UnreadFormat {
    /// LiME's ranges, as AVML compresses them.
    Avml,
    /// The stream that makedumpfile writes into a pipe.
    Flattened,
    /// The compressed dump of kdump and diskdump.
    Kdump,
    /// The crash dump of Windows.
    WindowsCrash,
    /// The hibernation file of Windows.
    WindowsHibernation,
    /// The state of a virtual machine of VMware.
    VmwareState,
    /// The state of a virtual machine of VirtualBox.
    VirtualBoxState,
    /// The state of a virtual machine that QEMU wrote, by itself or for libvirt.
    QemuState,
    /// A file that gzip compressed.
    Gzip,
    /// A file that xz compressed.
    Xz,
    /// A file that zstd compressed.
    Zstd,
    /// A file that lz4 compressed.
    Lz4,
    /// A file that bzip2 compressed.
    Bzip2,
    /// A zip archive.
    Zip,
}

impl Format {
    /// Returns its name if it is read, or a text that says that it isn't.
    pub fn name(self) -> &'static str
        ensures { result.now ≡ format_name self }
    {
        match self {
            Format::Raw => "raw",
            Format::Elf => "ELF core",
            Format::Lime => "LiME",
            Format::Unread(_) => "none that is read",
        }
    }
}

/// A magic number: the offset of its first byte in the file, its bytes, and the format of files that have it.
pub struct Magic(usize, &'static [u8], Format);

/// The number of bytes at the start of a file that tell its format.
const START_SIZE: u64 = 64;

/// The magic numbers. The first one that a file has tells its format.
const MAGICS: [Magic; 28] = [
    Magic(0, b"\x7fELF", Format::Elf),
    Magic(0, b"EMiL", Format::Lime),
    Magic(0, b"AVML", Format::Unread(UnreadFormat::Avml)),
    Magic(
        0,
        b"makedumpfile\0\0\0\0",
        Format::Unread(UnreadFormat::Flattened),
    ),
    Magic(0, b"KDUMP   ", Format::Unread(UnreadFormat::Kdump)),
    Magic(0, b"DISKDUMP", Format::Unread(UnreadFormat::Kdump)),
    Magic(0, b"PAGEDU64", Format::Unread(UnreadFormat::WindowsCrash)),
    Magic(0, b"PAGEDUMP", Format::Unread(UnreadFormat::WindowsCrash)),
    Magic(0, b"HIBR", Format::Unread(UnreadFormat::WindowsHibernation)),
    Magic(0, b"hibr", Format::Unread(UnreadFormat::WindowsHibernation)),
    Magic(0, b"WAKE", Format::Unread(UnreadFormat::WindowsHibernation)),
    Magic(0, b"wake", Format::Unread(UnreadFormat::WindowsHibernation)),
    Magic(
        0,
        b"\xd0\xbe\xd0\xbe",
        Format::Unread(UnreadFormat::VmwareState),
    ),
    Magic(
        0,
        b"\xd0\xbe\xd2\xbe",
        Format::Unread(UnreadFormat::VmwareState),
    ),
    Magic(
        0,
        b"\xd2\xbe\xd2\xbe",
        Format::Unread(UnreadFormat::VmwareState),
    ),
    Magic(
        0,
        b"\xd3\xbe\xd3\xbe",
        Format::Unread(UnreadFormat::VmwareState),
    ),
    Magic(
        0,
        b"\xd1\xba\xd1\xba",
        Format::Unread(UnreadFormat::VmwareState),
    ),
    Magic(
        0,
        b"\x7fVirtualBox SavedState V",
        Format::Unread(UnreadFormat::VirtualBoxState),
    ),
    Magic(0, b"QEVM", Format::Unread(UnreadFormat::QemuState)),
    Magic(
        0,
        b"LibvirtQemudSave",
        Format::Unread(UnreadFormat::QemuState),
    ),
    Magic(
        0,
        b"LibvirtQemudPart",
        Format::Unread(UnreadFormat::QemuState),
    ),
    Magic(0, b"\x1f\x8b", Format::Unread(UnreadFormat::Gzip)),
    Magic(0, b"\xfd7zXZ\0", Format::Unread(UnreadFormat::Xz)),
    Magic(0, b"\x28\xb5\x2f\xfd", Format::Unread(UnreadFormat::Zstd)),
    Magic(0, b"\x04\x22\x4d\x18", Format::Unread(UnreadFormat::Lz4)),
    Magic(0, b"\x02\x21\x4c\x18", Format::Unread(UnreadFormat::Lz4)),
    Magic(0, b"BZh", Format::Unread(UnreadFormat::Bzip2)),
    Magic(0, b"PK\x03\x04", Format::Unread(UnreadFormat::Zip)),
];

impl Magic {
    /// Returns true if a file with these first bytes has the magic number.
    fn is_in(&self, start: &[u8]) -> bool
        ensures { result ≡ starts_with nat_eq (drop self.now.0 start.now) self.now.1.now }
    {
        let rest = start.get(self.0..).unwrap_or(&[]);
        rest.starts_with(self.1)
    }
}

/// Returns the format of the first of these magic numbers that a file with these first bytes has.
#[tactic(auto, unfolding(crate::specs::private::Magics::first_format))]
fn first_format(magics: &[Magic], start: &[u8]) -> Option<Format>
    ensures { result ≡ first_format start.now magics.now }
{
    magics
        .iter()
        .find(|magic| magic.is_in(start))
        .map(|magic| magic.2)
}

/// Returns the format of a file with these first bytes: at least 64, or all that it has.
fn format_of(start: &[u8]) -> Format
    ensures { result ≡ format_of start.now }
{
    first_format(&MAGICS, start).unwrap_or(Format::Raw)
}

/// Reads the start of a file, and returns the file's format.
pub fn read_format<S: ByteSource>(source: &S) -> io::Result<Format>
    ensures value { S.IsKnown → IfOk result (λ format. format ≡ format_of (S.bytes source.now)) }
    ensures failed { IfErr result (λ _. S.may_fail ≡ true) }
{
    let mut front = [0; 64];
    let present = source.len().min(START_SIZE) as usize;
    let start = &mut front[..present];
    source.read_exact_at(start, 0)?;
    Ok(format_of(start))
}

/// Reads the segments of a file of a format, of which a raw one is placed as stated.
#[tactic(auto, using(crate::proofs::Openings::without_reads))]
pub fn read_segments<S: ByteSource>(
    alloc: Global,
    source: &S,
    format: Format,
    placement: &Placement,
) -> Result<Vec<Segment>, DumpError>
    ensures { S.IsKnown →
        OpensAs S.may_fail (λ v. v.items) result (segments_of format (S.bytes source.now) placement.now) }
{
    match format {
        Format::Raw => raw_segments(alloc, source.len(), placement),
        Format::Elf => {
            refuse_stated(placement)?;
            read_elf(alloc, source)
        }
        Format::Lime => {
            refuse_stated(placement)?;
            read_lime(alloc, source)
        }
        Format::Unread(format) => Err(DumpError::Fault(Fault::Unread(format))),
    }
}

impl Display for UnreadFormat {
    fn fmt<W: Write>(&self, f: &mut Formatter<W>) -> FmtResult {
        f.write_str(match self {
            UnreadFormat::Avml => {
                "the file is one that AVML compressed: write it without compression, by `avml-convert`"
            }
            UnreadFormat::Flattened => {
                "the file is a flattened dump, as makedumpfile writes it into a pipe: write it back with `makedumpfile -R`"
            }
            UnreadFormat::Kdump => {
                "the file is a compressed kdump: write a new dump without compression, by `makedumpfile -E /proc/vmcore FILE` or QEMU's `dump-guest-memory FILE`"
            }
            UnreadFormat::WindowsCrash => {
                "the file is a crash dump of Windows: write an ELF dump of the machine, by QEMU's `dump-guest-memory FILE`, or a raw one"
            }
            UnreadFormat::WindowsHibernation => {
                "the file is a hibernation file of Windows, which is compressed: write an ELF dump of the machine while it runs, by `virsh dump --memory-only` or QEMU's `dump-guest-memory FILE`, or a raw one"
            }
            UnreadFormat::VmwareState => {
                "the file is VMware's state of a machine, without its memory: give the `.vmem` file beside it"
            }
            UnreadFormat::VirtualBoxState => {
                "the file is VirtualBox's state of a machine: write an ELF dump of it, by `VBoxManage debugvm MACHINE dumpvmcore --filename FILE`"
            }
            UnreadFormat::QemuState => {
                "the file is a machine's state that QEMU or libvirt saved: write an ELF dump of the machine, by `virsh dump --memory-only` or QEMU's `dump-guest-memory FILE`"
            }
            UnreadFormat::Gzip => "the file is compressed by gzip: unpack it first, by `gunzip`",
            UnreadFormat::Xz => "the file is compressed by xz: unpack it first, by `unxz`",
            UnreadFormat::Zstd => "the file is compressed by zstd: unpack it first, by `unzstd`",
            UnreadFormat::Lz4 => "the file is compressed by lz4: unpack it first, by `unlz4`",
            UnreadFormat::Bzip2 => "the file is compressed by bzip2: unpack it first, by `bunzip2`",
            UnreadFormat::Zip => "the file is a zip archive: unpack it first, by `unzip`",
        })
    }
}
