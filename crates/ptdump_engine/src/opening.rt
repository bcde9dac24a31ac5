//! Opens dumps, and says how they are read.
ghost use Rattle.std.specs.Prelude.{◌≡◌, [], OnOk, Ok, string_bytes};
ghost use Rattle.std.specs.List.{flat_map};
ghost use Rattle.x86_64_dump.specs.Opened.{opened};
ghost use Rattle.x86_64_dump.specs.Opening.{OpensAs};
ghost use Rattle.ptdump_json.specs.InfoTexts.{text_told};
ghost use Rattle.ptdump_engine.specs.Output.{Puts};
ghost use Rattle.ptdump_engine.specs.Program as program;
ghost use Rattle.ptdump_json.specs.Walks.{line};

use crate::destination::Destination;
use crate::output::{Output, OutputError};
use crate::request::{AddressRange, Request};
use ptdump_json::ToldText;
use std::alloc::Global;
use x86_64_dump::{
    ByteSource, Dump, DumpError, Format, KernelText, Progress, Segment, read_format,
};

/// Opens a dump as the request says, and searches its memory for VMCOREINFO if nothing else says where the root is. The bits by which
/// the kernel marks encrypted memory, if it says them, are cleared in each word that is read.
///
/// # Errors
///
/// The error of opening it.
pub fn open<S: ByteSource, G: Progress>(
    alloc: Global,
    source: S,
    request: &Request,
    progress: &G,
) -> Result<Dump<S>, DumpError>
    ensures { S.IsKnown → OpensAs S.may_fail (opened S.bytes) result
        (program.contents_for request.now (S.bytes source)) }
{
    let format = if request.is_raw {
        Format::Raw
    } else {
        read_format(&source)?
    };
    let dump = Dump::open_as(alloc, source, format, &request.placement)?;
    with_texts(alloc, dump, request, progress)
}

/// Returns a dump with its texts of VMCOREINFO, and with the bits cleared by which the kernel marks encrypted memory.
fn with_texts<S: ByteSource, G: Progress>(
    alloc: Global,
    dump: Dump<S>,
    request: &Request,
    progress: &G,
) -> Result<Dump<S>, DumpError>
    ensures { S.IsKnown → OpensAs S.may_fail (opened S.bytes) result
        (program.with_texts request.now (opened S.bytes dump)) }
{
    let texts = texts_for(alloc, &dump, request, progress)?;
    dump.with_texts(texts).decrypted(alloc)
}

/// Finds the texts of VMCOREINFO that say where the kernel's root is: the one that is asked for, or those in memory, which is only
/// searched if nothing else says where the root is.
fn texts_for<S: ByteSource, G: Progress>(
    alloc: Global,
    dump: &Dump<S>,
    request: &Request,
    progress: &G,
) -> Result<Vec<KernelText>, DumpError>
    ensures { S.IsKnown → OpensAs S.may_fail (λ texts. texts.items) result
        (program.texts_for request.now (opened S.bytes dump.now)) }
{
    if let Some(offset) = request.vmcoreinfo {
        let text = dump.text_at(alloc, offset)?;
        return Ok(vec![in alloc; text]?);
    }
    if is_searched(alloc, dump, request)? {
        dump.kernel_texts(alloc, progress)
    } else {
        Ok(Vec::new(alloc))
    }
}

/// Returns true if memory is searched: no CR3 is given, and no note says where the root is.
fn is_searched<S: ByteSource>(
    alloc: Global,
    dump: &Dump<S>,
    request: &Request,
) -> Result<bool, DumpError>
    ensures { S.IsKnown → OpensAs S.may_fail (λ is. is) result
        (Ok (program.is_searched request.now (opened S.bytes dump.now))) }
{
    if request.cr3.is_some() || request.is_of_processors() {
        return Ok(false);
    }
    Ok(!dump.is_noted(alloc)?)
}

/// Writes immediately if the file is raw, or shorter than its headers say, and the texts of VMCOREINFO if they differ.
///
/// # Errors
///
/// `OutputError::OutOfMemory` if memory allocation fails, `OutputError::Write` if a write fails.
pub fn write_opening<S: ByteSource, E: Destination>(
    dump: &Dump<S>,
    notes: &mut Output<'_, E>,
) -> Result<(), OutputError<E>>
    ensures text { S.IsKnown → OnOk result
        (Puts E.contents notes.old notes.new (program.opening_text (opened S.bytes dump.now))) }
    ensures all { OnOk result (string_bytes notes.old.text ≡ [] → string_bytes notes.new.text ≡ []) }
{
    write_file(dump, notes)?;
    write_differing(dump, notes)
}

/// Writes immediately what each of a dump's texts of VMCOREINFO says, if they differ.
fn write_differing<S: ByteSource, E: Destination>(
    dump: &Dump<S>,
    notes: &mut Output<'_, E>,
) -> Result<(), OutputError<E>>
    ensures text { OnOk result (Puts E.contents notes.old notes.new
        (program.differing_text (opened S.bytes dump.now).texts)) }
    ensures all { OnOk result (string_bytes notes.old.text ≡ [] → string_bytes notes.new.text ≡ []) }
{
    if dump.has_differing_texts() {
        write_texts(dump.texts(), notes)
    } else {
        Ok(())
    }
}

/// Writes immediately what each text of VMCOREINFO says.
fn write_texts<E: Destination>(
    texts: &[KernelText],
    notes: &mut Output<'_, E>,
) -> Result<(), OutputError<E>>
    ensures text { OnOk result (Puts E.contents notes.old notes.new
        (flat_map (λ text. line (text_told text)) texts.now)) }
    ensures all { OnOk result (string_bytes notes.new.text ≡ []) }
{
    for text in texts {
        write_text(text, notes)?;
    }
    notes.finish()
}

/// Writes what a text of VMCOREINFO says.
fn write_text<E: Destination>(
    text: &KernelText,
    notes: &mut Output<'_, E>,
) -> Result<(), OutputError<E>>
    ensures { OnOk result (Puts E.contents notes.old notes.new (line (text_told text.now))) }
{
    let told = ToldText(*text);
    writeln!(notes, "{told}")
}

/// Writes immediately if the file is raw, or shorter than its headers say.
fn write_file<S: ByteSource, E: Destination>(
    dump: &Dump<S>,
    notes: &mut Output<'_, E>,
) -> Result<(), OutputError<E>>
    ensures text { S.IsKnown → OnOk result
        (Puts E.contents notes.old notes.new (program.file_text (opened S.bytes dump.now))) }
    ensures all { OnOk result (string_bytes notes.old.text ≡ [] → string_bytes notes.new.text ≡ []) }
{
    if dump.is_raw() {
        write_raw(dump.segments(), notes)
    } else {
        write_short(dump, notes)
    }
}

/// Writes immediately that a file is raw, and where its bytes lie in physical memory.
fn write_raw<E: Destination>(
    segments: &[Segment],
    notes: &mut Output<'_, E>,
) -> Result<(), OutputError<E>>
    ensures text { OnOk result (Puts E.contents notes.old notes.new
        (flat_map (λ segment. line (program.raw_text segment)) segments.now)) }
    ensures all { OnOk result (string_bytes notes.new.text ≡ []) }
{
    for segment in segments {
        write_range(segment, notes)?;
    }
    notes.finish()
}

/// Writes where the bytes of a segment of a raw file lie in physical memory.
fn write_range<E: Destination>(
    segment: &Segment,
    notes: &mut Output<'_, E>,
) -> Result<(), OutputError<E>>
    ensures { OnOk result (Puts E.contents notes.old notes.new (line (program.raw_text segment.now))) }
{
    if segment.size == 0 {
        return writeln!(notes, "the file is read as raw memory, and is empty");
    }
    let last = segment.address.saturating_add(segment.size - 1);
    write_addresses(segment.address, last, notes)
}

/// Writes the first and the last address of bytes of a raw file.
fn write_addresses<E: Destination>(
    first: u64,
    last: u64,
    notes: &mut Output<'_, E>,
) -> Result<(), OutputError<E>>
    ensures { OnOk result (Puts E.contents notes.old notes.new (line (program.raw_range_text first last))) }
{
    let range = AddressRange { first, last };
    writeln!(notes, "the file is read as raw memory: {range}")
}

/// Writes immediately if the file is shorter than its headers say.
fn write_short<S: ByteSource, E: Destination>(
    dump: &Dump<S>,
    notes: &mut Output<'_, E>,
) -> Result<(), OutputError<E>>
    ensures text { S.IsKnown → OnOk result
        (Puts E.contents notes.old notes.new (program.short_text (opened S.bytes dump.now))) }
    ensures all { OnOk result (string_bytes notes.old.text ≡ [] → string_bytes notes.new.text ≡ []) }
{
    if dump.is_short() {
        writeln!(
            notes,
            "the file is shorter than its headers say: frames behind its end are missing"
        )?;
        notes.finish()?;
    }
    Ok(())
}
