//! The columns of lists.
ghost use Rattle.std.specs.Prelude.{◌≡◌, codes};
ghost use Rattle.clap.specs.Matches.{first_value, found_of};
ghost use Rattle.ptdump.specs.Columns.{are_aligned, columns_for};

use clap::ArgMatches;
use ptdump_engine::Columns;

/// Returns the columns that the arguments of a list ask for. Without `--columns` they are aligned if standard output is a terminal.
pub fn columns_of(arguments: &ArgMatches<'_>, is_terminal: bool) -> Columns
    ensures { result ≡ columns_for is_terminal (first_value (found_of arguments.now) (codes "columns")) }
{
    if are_aligned(arguments, is_terminal) {
        Columns::Aligned
    } else {
        Columns::Plain
    }
}

/// Returns true if the arguments of a list ask for aligned columns.
fn are_aligned(arguments: &ArgMatches<'_>, is_terminal: bool) -> bool
    ensures { result ≡ are_aligned is_terminal (first_value (found_of arguments.now) (codes "columns")) }
{
    match arguments.get_str("columns") {
        Some(word) => word == "aligned" || word == "auto" && is_terminal,
        None => is_terminal,
    }
}
