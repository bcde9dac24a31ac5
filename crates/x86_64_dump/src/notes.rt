//! Notes of a kind.
ghost use Rattle.std.specs.Prelude.{◌≡◌, ◌+◌, ◌*◌, ◌/◌, ◌≤◌, ◌<◌, ◌^◌, ◌++◌, length, nat_lt, cond, true, Some, None, IfOk, IfErr, OnOk, Ok, Err};
ghost use Rattle.x86_64_dump.specs.declared.error.DumpError.TheVariants as errors;
ghost use Rattle.x86_64_dump.specs.Numbers.{u32_at};
ghost use Rattle.x86_64_dump.specs.Opening.{OpensAs, GivesAtOnce};
ghost use Rattle.x86_64_dump.specs.Notes.{padded, kind_at, note_at, note_cut, notes_size, is_note_cut, register_of};
ghost use Rattle.x86_64_dump.specs.VmCoreInfo.{descriptor_of, text_of};
ghost use Rattle.x86_64_dump.specs.private.NotesLeft.{is_whole, if_kept, kept_notes, notes_within};

use crate::error::{DumpError, Fault};
use crate::note::{Note, NoteKind};
use crate::numbers::{read_u32, read_u64};
use crate::segment::Segment;
use crate::source::{ByteSource, ends_after};
use std::alloc::{AllocError, Global};
use std::io;

/// The number of bytes in a note before its name.
const HEAD_SIZE: u64 = 12;

/// The number of bytes in the longest name of the notes that have a kind.
const LONGEST_NAME: u32 = 11;

/// The greatest number of bytes that are read of a text.
const TEXT_LIMIT: u64 = 0x1_0000;

/// Reads the notes of a kind in the segments of a file. If the segments overlap so much that they have more bytes of notes than the
/// file has bytes, the segments beyond that are left out.
pub fn read_notes<S: ByteSource>(
    alloc: Global,
    source: &S,
    segments: &[Segment],
    kind: NoteKind,
) -> Result<Vec<Note>, DumpError>
    ensures { S.IsKnown → OpensAs S.may_fail (λ v. v.items) result
        (Ok (notes_within kind (length (S.bytes source.now)) (S.bytes source.now) segments.now)) }
{
    let length = source.len();
    let mut room = length;
    let mut notes = Vec::new(alloc);
    for segment in segments {
        let size = notes_size(segment, length);
        let Some(rest) = room.checked_sub(size) else {
            return Ok(notes);
        };
        add_from(source, segment.offset, size, kind, &mut notes)?;
        room = rest;
    }
    Ok(notes)
}

/// Adds the notes of a kind in the bytes from an offset on.
fn add_from<S: ByteSource>(
    source: &S,
    offset: u64,
    size: u64,
    kind: NoteKind,
    notes: &mut Vec<Note>,
) -> Result<(), DumpError>
    requires { offset + size < 2 ^ 64 }
    ensures { S.IsKnown → (0 < size → offset + size ≤ length (S.bytes source.now)) →
        OpensAs S.may_fail (λ _. notes.new.items) result
        (Ok (notes.old.items ++ kept_notes kind (size / 12) (S.bytes source.now) offset size)) }
{
    let mut at = offset;
    let mut left = size;
    for _ in 0..size / HEAD_SIZE {
        let Some(note) = read_note(source, at, left)? else {
            return Ok(());
        };
        push_kept(notes, note, kind)?;
        let Some(rest) = left.checked_sub(note.span) else {
            return Ok(());
        };
        at += note.span;
        left = rest;
    }
    Ok(())
}

/// Adds a note if it is of a kind.
fn push_kept(notes: &mut Vec<Note>, note: Note, kind: NoteKind) -> Result<(), AllocError>
    ensures { OnOk result (notes.new.items ≡ notes.old.items ++ if_kept kind note) }
{
    if note.kind.is(kind) {
        notes.push(note)?;
    }
    Ok(())
}

/// Returns the number of bytes of notes that a segment has in a file of this length.
fn notes_size(segment: &Segment, length: u64) -> u64
    ensures size { result ≡ notes_size length segment.now }
    ensures inside { 0 < result → segment.now.offset + result ≤ length }
{
    if segment.kind == Segment::NOTE {
        segment.size.min(length.saturating_sub(segment.offset))
    } else {
        0
    }
}

/// Reads the note at an offset, or returns `None` if its descriptor doesn't end within the bytes that are left.
fn read_note<S: ByteSource>(source: &S, at: u64, left: u64) -> io::Result<Option<Note>>
    requires { at + left < 2 ^ 64 }
    ensures value { S.IsKnown → IfOk result (λ note.
        note ≡ cond (is_whole (S.bytes source.now) at left) (Some (note_at (S.bytes source.now) at)) None) }
    ensures failed { at + left ≤ S.size source.now → IfErr result (λ _. S.may_fail ≡ true) }
{
    if left < HEAD_SIZE {
        return Ok(None);
    }
    let mut head = [0; 12];
    source.read_exact_at(&mut head, at)?;
    let name_size = read_u32(&head, 0);
    let size = read_u32(&head, 4);
    if left < HEAD_SIZE + padded(name_size) + u64::from(size) {
        return Ok(None);
    }
    Ok(Some(Note {
        kind: read_kind(source, at, name_size)?,
        offset: at + HEAD_SIZE + padded(name_size),
        size: u64::from(size),
        span: HEAD_SIZE + padded(name_size) + padded(size),
    }))
}

/// Rounds a size up to a multiple of four.
fn padded(size: u32) -> u64
    ensures { result ≡ padded size }
{
    (u64::from(size) + 3) / 4 * 4
}

/// Reads the kind of the note at an offset, with a name of this size.
fn read_kind<S: ByteSource>(source: &S, at: u64, name_size: u32) -> io::Result<NoteKind>
    requires { at + 12 + name_size < 2 ^ 64 }
    ensures value { S.IsKnown → name_size ≡ u32_at (S.bytes source.now) at →
        IfOk result (λ kind. kind ≡ kind_at (S.bytes source.now) at) }
    ensures failed { at + 12 + name_size ≤ S.size source.now → IfErr result (λ _. S.may_fail ≡ true) }
{
    if name_size > LONGEST_NAME {
        return Ok(NoteKind::Other);
    }
    let mut bytes = [0; 11];
    let name = &mut bytes[..name_size as usize];
    source.read_exact_at(name, at + HEAD_SIZE)?;
    Ok(NoteKind::named(name))
}

/// Reads the text of a note: its descriptor, or the first 65536 bytes of it. If these are all, a line feed is put behind them, since
/// the last line may lack its own.
pub fn read_text<S: ByteSource>(
    alloc: Global,
    source: &S,
    note: &Note,
) -> Result<Vec<u8>, DumpError>
    ensures { S.IsKnown → OpensAs S.may_fail (λ v. v.items) result
        (Ok (text_of (S.bytes source.now) note.now)) }
{
    let mut text = read_descriptor(alloc, source, note)?;
    if note.size > TEXT_LIMIT {
        return Ok(text);
    }
    text.push(b'\n')?;
    Ok(text)
}

/// Reads the descriptor of a note, or the first 65536 bytes of it, as far as the file has them.
pub fn read_descriptor<S: ByteSource>(
    alloc: Global,
    source: &S,
    note: &Note,
) -> Result<Vec<u8>, DumpError>
    ensures { S.IsKnown → OpensAs S.may_fail (λ v. v.items) result
        (Ok (descriptor_of (S.bytes source.now) note.now)) }
{
    let size = note
        .size
        .min(TEXT_LIMIT)
        .min(source.len().saturating_sub(note.offset));
    if size == 0 {
        return Ok(Vec::new(alloc));
    }
    let mut descriptor = vec![in alloc; 0; size as usize]?;
    source.read_exact_at(&mut descriptor, note.offset)?;
    Ok(descriptor)
}

/// Returns true if the note, or the file, ends before the register of eight bytes at an offset of its descriptor does.
fn is_note_cut(note: &Note, at: u64, length: u64) -> bool
    requires { at < 4096 }
    ensures { result ≡ is_note_cut length note.now at }
{
    note.size < at + 8 || ends_after(note.offset, at + 8, length)
}

/// Reads the register of eight bytes at an offset of a note's descriptor.
pub fn read_register<S: ByteSource>(source: &S, note: &Note, at: u64) -> Result<u64, DumpError>
    requires { at < 4096 }
    ensures value { S.IsKnown → GivesAtOnce S.may_fail (λ v. v) result
        (register_of (S.bytes source.now) note.now at) }
    ensures cut { is_note_cut (S.size source.now) note.now at ≡ true →
        result ≡ Err (errors.Fault (note_cut note.now at)) }
{
    if is_note_cut(note, at, source.len()) {
        return Err(DumpError::Fault(Fault::NoteCut {
            offset: note.offset,
            size: note.size,
            needed: at + 8,
        }));
    }
    let mut register = [0; 8];
    source.read_exact_at(&mut register, note.offset + at)?;
    Ok(read_u64(&register, 0))
}
