//! Levels that a dump notes: the number that it says where it says the root.
ghost use Rattle.std.specs.Prelude.{OnOk};
ghost use Rattle.ptdump_engine.specs.NotedLevels.{noted_levels_text};
ghost use Rattle.ptdump_engine.specs.Output.{Puts};
ghost use Rattle.ptdump_json.specs.Walks.{line};

use crate::destination::Destination;
use crate::output::{Output, OutputError};
use crate::request::Levels;

/// Writes immediately if a number of levels is given, and the dump says another one where it says the root.
///
/// # Errors
///
/// `OutputError::OutOfMemory` if memory allocation fails, `OutputError::Write` if a write fails.
pub fn write_levels<E: Destination>(
    given: Option<Levels>,
    noted: Option<Levels>,
    notes: &mut Output<'_, E>,
) -> Result<(), OutputError<E>>
    ensures { OnOk result (Puts E.contents notes.old notes.new (noted_levels_text given noted)) }
{
    match (given, noted) {
        (Some(Levels::Four), Some(Levels::Five)) => write_at_once(
            "the levels are 4, as --levels says, though the dump says 5",
            notes,
        ),
        (Some(Levels::Five), Some(Levels::Four)) => write_at_once(
            "the levels are 5, as --levels says, though the dump says 4",
            notes,
        ),
        _ => Ok(()),
    }
}

/// Writes a line immediately.
fn write_at_once<E: Destination>(
    text: &str,
    notes: &mut Output<'_, E>,
) -> Result<(), OutputError<E>>
    ensures { OnOk result (Puts E.contents notes.old notes.new (line text.now)) }
{
    notes.put_line(text)?;
    notes.finish()
}
