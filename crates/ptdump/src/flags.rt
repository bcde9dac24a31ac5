//! Flags of a command line.
ghost use Rattle.clap.specs.Matches.{found_of, one_text};
ghost use Rattle.ptdump.specs.Options.{IsFlag};

use clap::ArgMatches;

/// Returns true if a flag is given.
pub fn is_given(arguments: &ArgMatches<'_>, name: &str) -> bool
    ensures { IsFlag (one_text (found_of arguments.now) name.now) result }
{
    arguments.get_flag(name)
}
