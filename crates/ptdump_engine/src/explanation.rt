//! Explanations of walks. They say how large the page is, and which words take rights away.
ghost use Rattle.std.specs.Prelude.{◌++◌, Some, codes, if◌then◌else◌, [], OnOk};
ghost use Rattle.std.specs.List.{flat_map};
ghost use Rattle.text.specs.Sizes.{size_text};
ghost use Rattle.ptdump_json.specs.Explanations as explanations;
ghost use Rattle.ptdump_engine.specs.Output.{Puts};
ghost use Rattle.ptdump_json.specs.Walked.{end_said};

use crate::destination::Destination;
use crate::output::{Output, OutputError};
use ptdump_json::{Place, Walk, WalkEnd, WordRead};
use std::fmt::{Display, Formatter, Result as FmtResult, Write};
use text::write_size;
use x86_64_tables::page_table::{PageTableEntry, PageTableFlags, has_flag};

/// Writes the explanation of a walk, if it is asked for and the walk arrives.
///
/// # Errors
///
/// `OutputError::OutOfMemory` if memory allocation fails, `OutputError::Write` if a write fails.
pub fn write_explanation<W: Destination>(
    walk: &Walk,
    is_asked: bool,
    output: &mut Output<'_, W>,
) -> Result<(), OutputError<W>>
    ensures { OnOk result (Puts W.contents output.old output.new (if is_asked
        then explanations.explained (end_said walk.now.end) walk.now.words.items else [])) }
{
    if !is_asked {
        return Ok(());
    }
    match walk.end {
        WalkEnd::Arrives { at: _, size } => write_explained(walk.words.as_slice(), size, output),
        _ => Ok(()),
    }
}

/// Writes the size of a page, and which words of the walk to it take rights away.
fn write_explained<W: Destination>(
    words: &[WordRead],
    size: u64,
    output: &mut Output<'_, W>,
) -> Result<(), OutputError<W>>
    ensures { OnOk result (Puts W.contents output.old output.new (explanations.explained_by size words.now)) }
{
    let page = PageLine { size };
    writeln!(output, "{page}")?;
    write_losses_of(words, output)
}

/// Writes a line for each right that a word takes away.
fn write_losses_of<W: Destination>(
    words: &[WordRead],
    output: &mut Output<'_, W>,
) -> Result<(), OutputError<W>>
    ensures { OnOk result (Puts W.contents output.old output.new
        (flat_map explanations.losses_text words.now)) }
{
    for word in words {
        write_losses(word, output)?;
    }
    Ok(())
}

/// Writes a line for each right that one word takes away.
#[tactic(auto, unfolding(ptdump_json::specs::Explanations::losses_text))]
fn write_losses<W: Destination>(
    read: &WordRead,
    output: &mut Output<'_, W>,
) -> Result<(), OutputError<W>>
    ensures { OnOk result (Puts W.contents output.old output.new (explanations.losses_text read.now)) }
{
    let entry = PageTableEntry::from_word(read.word);
    let has_write = has_flag(&entry, PageTableFlags::WRITABLE);
    let has_user = has_flag(&entry, PageTableFlags::USER_ACCESSIBLE);
    let has_execute = !has_flag(&entry, PageTableFlags::NO_EXECUTE);
    write_loss(read, has_write, "write", output)?;
    write_loss(read, has_user, "user", output)?;
    write_loss(read, has_execute, "execute", output)
}

/// Writes a line if a word hasn't a right.
fn write_loss<W: Destination>(
    read: &WordRead,
    has_right: bool,
    right: &'static str,
    output: &mut Output<'_, W>,
) -> Result<(), OutputError<W>>
    ensures { OnOk result (Puts W.contents output.old output.new
        (explanations.loss_text read.now has_right right.now)) }
{
    if has_right {
        return Ok(());
    }
    let place = Place(*read);
    writeln!(output, "{place} has no {right}")
}

/// The size of a page, as text.
#[derive(Clone, Copy)]
struct PageLine {
    /// The number of bytes.
    size: u64,
}

impl Display for PageLine {
    ghost output = { λ page. Some (codes "page of " ++ size_text page.size) };

    fn fmt<W: Write>(&self, f: &mut Formatter<W>) -> FmtResult {
        f.write_str("page of ")?;
        write_size(f, self.size)
    }
}
