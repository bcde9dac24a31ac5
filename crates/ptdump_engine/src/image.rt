//! The report that is an image for `pagetab`.
ghost use Rattle.std.specs.Prelude.{◌||◌, IfErr};
ghost use Rattle.ptdump_engine.specs.Steps.{MayBeForced};

use crate::destination::Destination;
use crate::failure::Failure;
use crate::output::{Output, OutputError};
use ptdump_check::{Image, Loaded, Table};
use std::alloc::Global;
use x86_64_addr::level_count::LevelCount;
use x86_64_dump::{ByteSource, Dump};

/// Writes an image of the tables to the output, and how it was created to `errors`.
///
/// The tables are read again, each for its lines and for what `pagetab` refuses.
///
/// # Errors
///
/// `Failure::Read` if the dump can't be read, `Failure::OutOfMemory` if memory allocation fails, `Failure::Output` if a write
/// fails.
#[tactic(auto, using(crate::proofs::Failing::forced_first, crate::proofs::Failing::forced_second, crate::proofs::Failing::first_write, crate::proofs::Failing::second_write))]
pub fn write_image<L: LevelCount, S: ByteSource, W: Destination, E: Destination>(
    alloc: Global,
    dump: &Dump<S>,
    loaded: &Loaded<'_, L>,
    output: &mut Output<'_, W>,
    errors: &mut Output<'_, E>,
) -> Result<(), Failure>
    ensures { IfErr result (MayBeForced S.may_fail (W.may_refuse || E.may_refuse)) }
{
    let image = Image::read(alloc, dump, loaded.root, L::LEVELS)?;
    write_words(dump, &image, output)?;
    write_report(dump, &image, errors)
}

/// Writes the lines of an image.
#[tactic(auto, using(crate::proofs::Failing::forced_write))]
fn write_words<S: ByteSource, W: Destination>(
    dump: &Dump<S>,
    image: &Image,
    output: &mut Output<'_, W>,
) -> Result<(), Failure>
    ensures { IfErr result (MayBeForced S.may_fail W.may_refuse) }
{
    for table in image.tables() {
        if let Some(words) = dump.read_frame(table.frame).map_err(Failure::Read)? {
            let lines = image.word_lines(table, &words);
            write!(output, "{lines}")?;
        }
    }
    Ok(())
}

/// Writes the report on an image: the old address of each table, what is left out, why `pagetab` refuses the image, and the
/// command line that reads it.
#[tactic(auto, using(crate::proofs::Failing::forced_write))]
fn write_report<S: ByteSource, E: Destination>(
    dump: &Dump<S>,
    image: &Image,
    errors: &mut Output<'_, E>,
) -> Result<(), Failure>
    ensures { IfErr result (MayBeForced S.may_fail E.may_refuse) }
{
    writeln!(errors, "new         old               level")?;
    write_rows(image, image.tables(), errors)?;
    write_rows(image, image.outside(), errors)?;
    let left_out = image.left_out();
    writeln!(
        errors,
        "words without PRESENT above level one, left out: {left_out}"
    )?;
    if image.is_refused() {
        writeln!(errors, "pagetab refuses this image:")?;
        write_refusals(dump, image, errors)?;
    }
    let end = image.report_end();
    write!(errors, "{end}")?;
    Ok(())
}

/// Writes the lines of tables.
fn write_rows<E: Destination>(
    image: &Image,
    tables: &[Table],
    errors: &mut Output<'_, E>,
) -> Result<(), OutputError<E>> {
    for table in tables {
        let row = image.row(table);
        writeln!(errors, "{row}")?;
    }
    Ok(())
}

/// Writes why `pagetab` refuses entries.
#[tactic(auto, using(crate::proofs::Failing::forced_write))]
fn write_refusals<S: ByteSource, E: Destination>(
    dump: &Dump<S>,
    image: &Image,
    errors: &mut Output<'_, E>,
) -> Result<(), Failure>
    ensures { IfErr result (MayBeForced S.may_fail E.may_refuse) }
{
    for table in image.tables() {
        if let Some(words) = dump.read_frame(table.frame).map_err(Failure::Read)? {
            let refusals = image.refusals(table, &words);
            write!(errors, "{refusals}")?;
        }
    }
    Ok(())
}
