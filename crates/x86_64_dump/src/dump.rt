//! Dump files.
ghost use Rattle.std.specs.Prelude.{◌≡◌, ◌+◌, ◌-◌, ◌*◌, ◌≤◌, ◌<◌, ◌^◌, ℕ, true, false, if◌then◌else◌, [], IfOk, IfErr, OnOk, IfSome, is_err, is_some, Ok, Err, Some, None, length, option_map};
ghost use Rattle.std.proofs.Props.{props};
ghost use Rattle.x86_64_dump.specs.Dump.{frame_offset, words_at};
ghost use Rattle.x86_64_dump.specs.private.Search.{AreSorted, offset_at};
ghost use Rattle.x86_64_dump.specs.private.FileParts.{IsOf, has_frame_at};

use crate::error::{DumpError, Fault};
use crate::file_part::FilePart;
use crate::formats::{Format, read_format, read_segments};
use crate::frame::{is_cut_off, set_words, words_in};
use crate::kernel_text::{KernelText, agreed_text};
use crate::memory_search::read_texts;
use crate::note::{Note, NoteKind};
use crate::notes::{read_descriptor, read_notes, read_register, read_text};
use crate::placement::Placement;
use crate::search::{Stretch, offset_at, sorted_stretches};
use crate::segment::Segment;
use crate::source::ByteSource;
use crate::tables::Progress;
use crate::vmcoreinfo::Kernel;
use std::alloc::Global;
use std::io;
use x86_64_page::frame::PhysFrame;
use x86_64_page::page::Size4KiB;
use x86_64_tables::page_table::PageTable;

/// The physical memory in a dump file, read frame by frame.
///
/// Contracts see it as its file, its format, its segments, the texts in memory that say where the kernel's root is, and the bits that
/// are cleared in each word. Only the segments and what texts say are kept in memory, with what finds the segment that has a frame.
#[derive(Drop)]
pub struct Dump<S: ByteSource> {
    source: S,
    format: Format,
    segments: Vec<Segment>,
    stretches: Vec<Stretch>,
    texts: Vec<KernelText>,
    cleared: u64,
    ghost order: { AreSorted stretches.items },
    ghost finds: { (frame : ℕ) → frame < 2 ^ 52 → offset_at stretches.items frame
        ≡ frame_offset (S.size source) segments.items frame } by { Prim.hlevel props },
}

impl<S: ByteSource> Dump<S> {
    ghost use Rattle.x86_64_model.specs.Entry.{is_frame};
    ghost use Rattle.x86_64_dump.specs.Dump.{words_of_dump, is_short};
    ghost use Rattle.x86_64_dump.specs.Formats.{is_raw};
    ghost use Rattle.x86_64_dump.specs.Opening.{contents_of, contents_as, OpensAs, GivesAtOnce};
    ghost use Rattle.x86_64_dump.specs.Opened.{opened, holds, is_cut};
    ghost use Rattle.x86_64_dump.specs.Notes.{is_note_cut, is_noted, is_of_virtualbox, note_cut, notes_of, processors_of, register_of};
    ghost use Rattle.x86_64_dump.specs.declared.error.DumpError.TheVariants as errors;
    ghost use Rattle.x86_64_dump.specs.KernelTexts.{kernel_texts};
    ghost use Rattle.x86_64_dump.specs.VmCoreInfo.{agreed_text, decrypted, kernel_in, noted_kernel, noted_text, text_at, vmcoreinfo_of};
    ghost use Rattle.x86_64_dump.specs.Source.{bytes_at};

    /// Opens a dump and reads which parts of the file are memory.
    ///
    /// A file that begins with the magic number of ELF must be a little-endian, 64-bit core file of x86-64, as QEMU's
    /// `dump-guest-memory` and Linux's kdump write, and one with that of LiME must have ranges of version 1. A file of a format
    /// that is known and isn't read is refused. Any other file is raw: its bytes are those of physical memory from `base` on, or
    /// from 0 if `base` is `None`.
    ///
    /// # Errors
    ///
    /// `DumpError::Fault` if the file is of a format that isn't read, an ELF file that isn't such a core file, one without memory,
    /// one whose headers are damaged or cut off, a LiME file whose first header is cut off or of which one is damaged, or one with
    /// addresses of its own although there is a base.
    /// `DumpError::OutOfMemory` if memory allocation fails, `DumpError::Read` if a read fails.
    pub fn open(alloc: Global, source: S, base: Option<u64>) -> Result<Dump<S>, DumpError>
        ensures { S.IsKnown → OpensAs S.may_fail (opened S.bytes) result (contents_of (S.bytes source) base) }
    {
        let format = read_format(&source)?;
        let placement = base.map_or(Placement::Unstated, Placement::Base);
        Dump::open_as(alloc, source, format, &placement)
    }

    /// Opens a dump as `open` does, but as a file of this format, whatever it begins with, of which a raw one is placed as stated.
    /// So any file can be opened as raw.
    ///
    /// # Errors
    ///
    /// As those of `open`, where ranges are refused as a base is, and `DumpError::Fault` if the file is raw and a range has no
    /// bytes, ends after the file, or has addresses of 2^64 or more.
    pub fn open_as(
        alloc: Global,
        source: S,
        format: Format,
        placement: &Placement,
    ) -> Result<Dump<S>, DumpError>
        ensures { S.IsKnown →
            OpensAs S.may_fail (opened S.bytes) result (contents_as format (S.bytes source) placement.now) }
    {
        let segments = read_segments(alloc, &source, format, placement)?;
        let stretches = sorted_stretches(alloc, &segments, source.len())?;
        Ok(Dump {
            source,
            format,
            segments,
            stretches,
            texts: Vec::new(alloc),
            cleared: 0,
        })
    }

    /// Returns the dump with the bits cleared in each word that is read by which Linux marks encrypted memory (AMD's SME), as
    /// `NUMBER(sme_mask)` of VMCOREINFO says, see [`Dump::kernel`]. If it is missing or faulty, no bits are.
    ///
    /// # Errors
    ///
    /// `DumpError::OutOfMemory` if memory allocation fails, `DumpError::Read` if the source can't be read.
    pub fn decrypted(self, alloc: Global) -> Result<Dump<S>, DumpError>
        ensures { S.IsKnown → OpensAs S.may_fail (opened S.bytes) result
            (Ok (decrypted (opened S.bytes self))) }
    {
        let cleared = match self.kernel(alloc) {
            Ok(Some(kernel)) => kernel.encryption_mask,
            Ok(None) | Err(DumpError::Fault(_)) => 0,
            Err(error) => return Err(error),
        };
        Ok(Dump {
            source: self.source,
            format: self.format,
            segments: self.segments,
            stretches: self.stretches,
            texts: self.texts,
            cleared,
        })
    }

    /// Returns the dump with these texts as those that say where the kernel's root is.
    pub fn with_texts(self, texts: Vec<KernelText>) -> Dump<S>
        ensures { opened S.bytes result ≡ record (opened S.bytes self) { texts = texts.items } }
    {
        Dump {
            source: self.source,
            format: self.format,
            segments: self.segments,
            stretches: self.stretches,
            texts,
            cleared: self.cleared,
        }
    }

    /// Returns the texts that say where the kernel's root is.
    pub fn texts(&self) -> &[KernelText]
        ensures { result.now ≡ (opened S.bytes self.now).texts }
    {
        &self.texts
    }

    /// Returns true if two of these texts say different kernels.
    pub fn has_differing_texts(&self) -> bool
        ensures { result ≡ is_err (agreed_text (opened S.bytes self.now).texts) }
    {
        agreed_text(&self.texts).is_err()
    }

    /// Returns the format as which the file is read.
    pub fn format(&self) -> Format
        ensures { result ≡ (opened S.bytes self.now).format }
    {
        self.format
    }

    /// Returns true if the file is raw.
    pub fn is_raw(&self) -> bool
        ensures { result ≡ is_raw (opened S.bytes self.now).format }
    {
        matches!(self.format, Format::Raw)
    }

    /// Returns the segments of the file, in their order.
    pub fn segments(&self) -> &[Segment]
        ensures { result.now ≡ (opened S.bytes self.now).segments }
    {
        &self.segments
    }

    /// Returns true if the file is shorter than its headers say: a segment ends after the file, as in a truncated dump. The frames
    /// that remain can be read.
    pub fn is_short(&self) -> bool
        ensures cut { result ≡ is_cut S.size self.now }
        ensures known { S.IsKnown → result ≡
            is_short (length (opened S.bytes self.now).file) (opened S.bytes self.now).segments }
    {
        is_cut_off(&self.segments, self.source.len())
    }

    /// Returns true if the dump has the frame. Reads nothing.
    pub fn has_frame(&self, frame: PhysFrame<Size4KiB>) -> bool
        ensures held { result ≡ holds S.size self.now frame }
        ensures known { S.IsKnown → result ≡ is_some (words_of_dump (opened S.bytes self.now) frame) }
    {
        self.offset_of(frame).is_some()
    }

    /// Reads the 512 words of a frame, or returns `None` if the dump lacks it. The first segment that has the whole frame counts.
    ///
    /// # Errors
    ///
    /// The error of the source if it can't be read. A failed read is never reported as a missing frame.
    pub fn read_frame(&self, frame: PhysFrame<Size4KiB>) -> io::Result<Option<[u64; 512]>>
        ensures held { IfOk result (λ words. is_some words ≡ holds S.size self.now frame) }
        ensures words { S.IsKnown →
            IfOk result (λ words. words ≡ words_of_dump (opened S.bytes self.now) frame) }
        ensures failed { IfErr result (λ _. (S.may_fail ≡ true) × (holds S.size self.now frame ≡ true)) }
    {
        let Some(offset) = self.offset_of(frame) else {
            return Ok(None);
        };
        let mut bytes = [0; 4096];
        self.source.read_exact_at(&mut bytes, offset)?;
        Ok(Some(words_in(&bytes, self.cleared)))
    }

    /// Reads this many frames from an offset of the file on.
    ///
    /// # Errors
    ///
    /// The error of the source.
    pub(crate) fn read_part(
        &self,
        part: &mut FilePart,
        offset: u64,
        frames: usize,
    ) -> io::Result<()>
        requires few { frames ≤ 8 }
        requires inside { offset + 4096 * frames ≤ S.size self.now.source }
        ensures bytes { S.IsKnown → OnOk result (IsOf (S.bytes self.now.source) part.new) }
        ensures place { OnOk result (
            (part.new.start ≡ offset) × (length part.new.bytes ≡ 4096 * frames)) }
        ensures nothing { IfErr result (λ _. part.new.bytes ≡ []) }
        ensures failed { IfErr result (λ _. S.may_fail ≡ true) }
    {
        part.read(&self.source, offset, frames)
    }

    /// Sets the words of a table to those of the frame at an offset of the file, which a part of the file has.
    pub(crate) fn set_table(&self, table: &mut PageTable, part: &FilePart, offset: u64)
        requires { has_frame_at part.now offset ≡ true }
        ensures words { table.new ≡ words_at self.now.cleared part.now.bytes (offset - part.now.start) }
        ensures frame { S.IsKnown → IsOf (S.bytes self.now.source) part.now →
            (frame : ℕ) → is_frame frame ≡ true →
            frame_offset (S.size self.now.source) self.now.segments.items frame ≡ Some offset →
            Some table.new ≡ words_of_dump (opened S.bytes self.now) frame }
    {
        set_words(table, part.frame(offset), self.cleared);
    }

    /// Reads the words of a frame into a table and returns true, or returns false if the dump lacks the frame.
    ///
    /// # Errors
    ///
    /// As those of `read_frame`. The words of the table are then unspecified.
    pub fn read_table(&self, frame: PhysFrame<Size4KiB>, table: &mut PageTable) -> io::Result<bool>
        ensures words { S.IsKnown → IfOk result (λ is_there. (if is_there then Some table.new else None)
            ≡ words_of_dump (opened S.bytes self.now) frame) }
        ensures lacks { IfOk result (λ is_there. is_there ≡ false → table.new ≡ table.old) }
        ensures held { IfOk result (λ is_there. is_there ≡ holds S.size self.now frame) }
        ensures failed { IfErr result (λ _. (S.may_fail ≡ true) × (holds S.size self.now frame ≡ true)) }
    {
        let Some(offset) = self.offset_of(frame) else {
            return Ok(false);
        };
        let mut bytes = [0; 4096];
        self.source.read_exact_at(&mut bytes, offset)?;
        set_words(table, &bytes, self.cleared);
        Ok(true)
    }

    /// Returns the offset of a frame in the file, or `None` if the dump lacks it.
    pub(crate) fn offset_of(&self, frame: PhysFrame<Size4KiB>) -> Option<u64>
        ensures frame { is_frame frame ≡ true }
        ensures offset { result ≡ frame_offset (S.size self.now.source) self.now.segments.items frame }
        ensures inside { IfSome result (λ offset. offset + 4096 ≤ S.size self.now.source) }
    {
        // Its contract says that offsets in the file are below 2^64.
        let _length = self.source.len();
        let address = frame.start_address().as_u64();
        offset_at(&self.stretches, address)
    }

    /// Finds QEMU's notes of the processors, and returns them in order.
    ///
    /// Each segment of notes is read up to the first note that doesn't end in it. These segments count as long as they have
    /// together no more bytes than the file.
    ///
    /// # Errors
    ///
    /// `DumpError::OutOfMemory` if memory allocation fails, `DumpError::Read` if the source can't be read.
    pub fn processors(&self, alloc: Global) -> Result<Vec<Note>, DumpError>
        ensures { S.IsKnown →
            OpensAs S.may_fail (λ notes. notes.items) result (Ok (processors_of (opened S.bytes self.now))) }
    {
        self.notes(alloc, NoteKind::Qemu)
    }

    /// Reads the notes of a kind, in order.
    fn notes(&self, alloc: Global, kind: NoteKind) -> Result<Vec<Note>, DumpError>
        ensures { S.IsKnown →
            OpensAs S.may_fail (λ notes. notes.items) result (Ok (notes_of kind (opened S.bytes self.now))) }
    {
        read_notes(alloc, &self.source, &self.segments, kind)
    }

    /// Finds the root of the kernel by the dump's texts of Linux's VMCOREINFO, see [`Dump::with_texts`], or if it has none by the first
    /// of the notes VMCOREINFO, or returns `None` if there is none either.
    ///
    /// The first 65536 bytes of the note's descriptor are read. If these are all, the last line may lack its line feed. Segments of
    /// notes count as for [`Dump::processors`].
    ///
    /// # Errors
    ///
    /// `Fault::VmCoreInfo` if the texts differ, or if there is such a note, and it doesn't say the root, the levels and the mask.
    /// `DumpError::OutOfMemory` if memory allocation fails, `DumpError::Read` if a read fails.
    pub fn kernel(&self, alloc: Global) -> Result<Option<Kernel>, DumpError>
        ensures { S.IsKnown →
            OpensAs S.may_fail (λ kernel. kernel) result (kernel_in (opened S.bytes self.now)) }
    {
        match agreed_text(&self.texts) {
            Ok(Some(text)) => Ok(Some(text.kernel)),
            Ok(None) => self.noted_kernel(alloc),
            Err(fault) => Err(DumpError::Fault(Fault::VmCoreInfo(fault))),
        }
    }

    /// Finds the root of the kernel by the first of the notes VMCOREINFO.
    fn noted_kernel(&self, alloc: Global) -> Result<Option<Kernel>, DumpError>
        ensures { S.IsKnown →
            OpensAs S.may_fail (λ kernel. kernel) result (noted_kernel (opened S.bytes self.now)) }
    {
        let Some(text) = self.noted_text(alloc)? else {
            return Ok(None);
        };
        match Kernel::of(&text) {
            Ok(kernel) => Ok(Some(kernel)),
            Err(fault) => Err(DumpError::Fault(Fault::VmCoreInfo(fault))),
        }
    }

    /// Reads the text of Linux's VMCOREINFO: the first of the dump's texts, see [`Dump::with_texts`], or if it has none that of the
    /// first of the notes VMCOREINFO, or returns `None` if there is none either. As much is read as for [`Dump::text_at`] and
    /// [`Dump::kernel`].
    ///
    /// # Errors
    ///
    /// `DumpError::OutOfMemory` if memory allocation fails, `DumpError::Read` if a read fails.
    pub fn vmcoreinfo(&self, alloc: Global) -> Result<Option<Vec<u8>>, DumpError>
        ensures { S.IsKnown → OpensAs S.may_fail (option_map (λ text. text.items)) result
            (Ok (vmcoreinfo_of (opened S.bytes self.now))) }
    {
        match self.texts.first() {
            Some(text) => Ok(Some(self.page_text(alloc, text.offset)?)),
            None => self.noted_text(alloc),
        }
    }

    /// Reads the text of the first of the notes VMCOREINFO.
    fn noted_text(&self, alloc: Global) -> Result<Option<Vec<u8>>, DumpError>
        ensures { S.IsKnown → OpensAs S.may_fail (option_map (λ text. text.items)) result
            (Ok (noted_text (opened S.bytes self.now))) }
    {
        let notes = self.notes(alloc, NoteKind::VmCoreInfo)?;
        match notes.first() {
            Some(note) => Ok(Some(read_text(alloc, &self.source, note)?)),
            None => Ok(None),
        }
    }

    /// Reads 4096 bytes from an offset of the file on, as far as the file has them.
    fn page_text(&self, alloc: Global, offset: u64) -> Result<Vec<u8>, DumpError>
        ensures { S.IsKnown → OpensAs S.may_fail (λ text. text.items) result
            (Ok (bytes_at (opened S.bytes self.now).file offset 4096)) }
    {
        let note = Note {
            kind: NoteKind::VmCoreInfo,
            offset,
            size: 4096,
            span: 4096,
        };
        read_descriptor(alloc, &self.source, &note)
    }

    /// Reads the text of Linux's VMCOREINFO at an offset of the file: its 4096 bytes from there on, as far as the file has them.
    ///
    /// # Errors
    ///
    /// `Fault::VmCoreInfo` if the text doesn't say the root, the levels and the mask. `DumpError::OutOfMemory` if memory allocation
    /// fails, `DumpError::Read` if a read fails.
    pub fn text_at(&self, alloc: Global, offset: u64) -> Result<KernelText, DumpError>
        ensures { S.IsKnown → OpensAs S.may_fail (λ text. text) result
            (text_at (opened S.bytes self.now).file offset) }
    {
        let text = self.page_text(alloc, offset)?;
        match Kernel::of(&text) {
            Ok(kernel) => Ok(KernelText { offset, kernel }),
            Err(fault) => Err(DumpError::Fault(Fault::VmCoreInfo(fault))),
        }
    }

    /// Finds the texts of Linux's VMCOREINFO in memory that say where the kernel's root is, and returns them in order.
    ///
    /// Such a text stands in a page of its own or with something before it, and ends at the page's end at the latest. Memory is
    /// searched once from end to end: segments count as long as they have together no more bytes than the file. `progress` is called
    /// meanwhile.
    ///
    /// # Errors
    ///
    /// `DumpError::OutOfMemory` if memory allocation fails, `DumpError::Read` if a read fails.
    pub fn kernel_texts<G: Progress>(
        &self,
        alloc: Global,
        progress: &G,
    ) -> Result<Vec<KernelText>, DumpError>
        ensures { S.IsKnown →
            OpensAs S.may_fail (λ texts. texts.items) result (Ok (kernel_texts (opened S.bytes self.now))) }
    {
        let texts = read_texts(alloc, &self.source, &self.segments, progress);
        progress.search_ended();
        texts
    }

    /// Returns true if the dump has QEMU's notes of processors, or Linux's note VMCOREINFO.
    ///
    /// # Errors
    ///
    /// `DumpError::OutOfMemory` if memory allocation fails, `DumpError::Read` if the source can't be read.
    pub fn is_noted(&self, alloc: Global) -> Result<bool, DumpError>
        ensures { S.IsKnown →
            OpensAs S.may_fail (λ is. is) result (Ok (is_noted (opened S.bytes self.now))) }
    {
        let processors = self.notes(alloc, NoteKind::Qemu)?;
        let kernels = self.notes(alloc, NoteKind::VmCoreInfo)?;
        Ok(!processors.is_empty() || !kernels.is_empty())
    }

    /// Returns true if the dump has VirtualBox's notes of processors.
    ///
    /// # Errors
    ///
    /// `DumpError::OutOfMemory` if memory allocation fails, `DumpError::Read` if the source can't be read.
    pub fn is_of_virtualbox(&self, alloc: Global) -> Result<bool, DumpError>
        ensures { S.IsKnown →
            OpensAs S.may_fail (λ is. is) result (Ok (is_of_virtualbox (opened S.bytes self.now))) }
    {
        let notes = self.notes(alloc, NoteKind::VirtualBox)?;
        Ok(!notes.is_empty())
    }

    /// Reads the CR0 of a processor: the eight bytes at 392 of the note's descriptor.
    ///
    /// # Errors
    ///
    /// `Fault::NoteCut` if and only if the note, or the file, ends before, `DumpError::Read` if a read fails.
    pub fn cr0(&self, processor: &Note) -> Result<u64, DumpError>
        ensures value { S.IsKnown → GivesAtOnce S.may_fail (λ value. value) result
            (register_of (opened S.bytes self.now).file processor.now 392) }
        ensures cut { is_note_cut (S.size self.now.source) processor.now 392 ≡ true →
            result ≡ Err (errors.Fault (note_cut processor.now 392)) }
    {
        read_register(&self.source, processor, 392)
    }

    /// Reads the CR3 of a processor: the eight bytes at 416 of the note's descriptor.
    ///
    /// # Errors
    ///
    /// `Fault::NoteCut` if and only if the note, or the file, ends before, `DumpError::Read` if a read fails.
    pub fn cr3(&self, processor: &Note) -> Result<u64, DumpError>
        ensures value { S.IsKnown → GivesAtOnce S.may_fail (λ value. value) result
            (register_of (opened S.bytes self.now).file processor.now 416) }
        ensures cut { is_note_cut (S.size self.now.source) processor.now 416 ≡ true →
            result ≡ Err (errors.Fault (note_cut processor.now 416)) }
    {
        read_register(&self.source, processor, 416)
    }

    /// Reads the CR4 of a processor: the eight bytes at 424 of the note's descriptor.
    ///
    /// # Errors
    ///
    /// `Fault::NoteCut` if and only if the note, or the file, ends before, `DumpError::Read` if a read fails.
    pub fn cr4(&self, processor: &Note) -> Result<u64, DumpError>
        ensures value { S.IsKnown → GivesAtOnce S.may_fail (λ value. value) result
            (register_of (opened S.bytes self.now).file processor.now 424) }
        ensures cut { is_note_cut (S.size self.now.source) processor.now 424 ≡ true →
            result ≡ Err (errors.Fault (note_cut processor.now 424)) }
    {
        read_register(&self.source, processor, 424)
    }
}
