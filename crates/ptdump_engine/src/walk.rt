//! Walks and accesses as text.
ghost use Rattle.std.specs.Prelude.{◌≡◌, IfOk, OnOk};
ghost use Rattle.std.specs.List.{flat_map};
ghost use Rattle.ptdump_check.specs.Loaded.{words_loaded};
ghost use Rattle.ptdump_engine.specs.Output.{Puts};
ghost use Rattle.ptdump_json.specs.Accesses as accesses;
ghost use Rattle.ptdump_json.specs.Walks as walks;
ghost use Rattle.ptdump_json.specs.Walked.{text_of_end, text_of_value};

use crate::destination::Destination;
use crate::output::{Output, OutputError};
use crate::request::ControlsSource;
use ptdump_check::Loaded;
use ptdump_json::{Walk, WalkEnd, WordRead, access_end, limited};
use x86_64_access::{Access, Controls};
use x86_64_addr::addr::VirtAddrIn;
use x86_64_addr::level_count::LevelCount;
use x86_64_tables::page_table::{PageTableEntry, PageTableFlags, has_flag};

/// Writes a walk, with a line for each word that it reads and one for its end. A further line says that a processor with these
/// settings faults at a word.
///
/// # Errors
///
/// `OutputError::OutOfMemory` if memory allocation fails, `OutputError::Write` if a write fails.
pub fn write_walk<W: Destination>(
    walk: &Walk,
    controls: Controls,
    output: &mut Output<'_, W>,
) -> Result<(), OutputError<W>>
    ensures { OnOk result (Puts W.contents output.old output.new (text_of_value controls walk.now)) }
{
    write_words(walk.words.as_slice(), controls, output)?;
    write_end(walk.end, output)
}

/// Writes the words that a walk reads.
fn write_words<W: Destination>(
    words: &[WordRead],
    controls: Controls,
    output: &mut Output<'_, W>,
) -> Result<(), OutputError<W>>
    ensures { OnOk result (Puts W.contents output.old output.new (
        flat_map (walks.word_lines controls) words.now)) }
{
    for word in words {
        write_word(*word, controls, output)?;
    }
    Ok(())
}

/// Writes a word that a walk reads, and if a processor with these settings faults there, that it does.
#[tactic(auto, unfolding(ptdump_json::specs::Walks::word_lines))]
fn write_word<W: Destination>(
    read: WordRead,
    controls: Controls,
    output: &mut Output<'_, W>,
) -> Result<(), OutputError<W>>
    ensures { OnOk result (Puts W.contents output.old output.new (walks.word_lines controls read)) }
{
    writeln!(output, "{read}")?;
    if !faults_at(controls, read) {
        return Ok(());
    }
    writeln!(output, "reserved bits: a processor faults here")
}

/// Returns true if a processor with these settings faults at a word, since it is present and has a reserved bit.
#[tactic(auto, using(ptdump_json::proofs::AccessLaws::limited_reserved))]
fn faults_at(controls: Controls, read: WordRead) -> bool
    ensures { result ≡ walks.faults_at controls read }
{
    let entry = PageTableEntry::from_word(read.word);
    let limits = limited(controls);
    has_flag(&entry, PageTableFlags::PRESENT) && limits.is_reserved(read.level, &entry)
}

/// Writes how a walk ends.
fn write_end<W: Destination>(end: WalkEnd, output: &mut Output<'_, W>) -> Result<(), OutputError<W>>
    ensures { OnOk result (Puts W.contents output.old output.new (walks.line (text_of_end end))) }
{
    writeln!(output, "{end}")
}

/// Writes what a processor does with an access at an address, and by which controls. Returns true if the access arrives.
///
/// # Errors
///
/// `OutputError::OutOfMemory` if memory allocation fails, `OutputError::Write` if a write fails.
pub fn write_access<L: LevelCount, W: Destination>(
    loaded: &Loaded<'_, L>,
    address: VirtAddrIn<L>,
    controls: Controls,
    source: ControlsSource,
    asked: Access,
    output: &mut Output<'_, W>,
) -> Result<bool, OutputError<W>>
    ensures text { OnOk result (Puts W.contents output.old output.new
        (walks.line (accesses.access_text asked controls source
        (accesses.outcome_in L.LEVELS (words_loaded loaded.now) loaded.now.root address controls asked)))) }
    ensures arrives { IfOk result (λ arrives. arrives ≡ accesses.is_arrived
        (accesses.outcome_in L.LEVELS (words_loaded loaded.now) loaded.now.root address controls asked)) }
{
    let line = access_end(loaded, address, controls, source, asked);
    writeln!(output, "{line}")?;
    Ok(line.end.is_ok())
}
