//! The options of the commands, in the order in which help lists them.
ghost use Rattle.std.specs.Prelude.{◌≡◌, IfOk, Some};
ghost use Rattle.clap.specs.declared.builder.action.ArgAction.TheVariants.{SetTrue};
ghost use Rattle.ptdump.specs.declared.options.Takes.TheVariants.{Nothing};

use clap::{Arg, ArgAction};
use std::alloc::{AllocError, Global};

/// What an option takes.
#[derive(Clone, Copy)]
pub enum Takes {
    /// Nothing.
    Nothing,
    /// A value, with the word that help has for it.
    Value(&'static str),
    /// One of some words, with the word that help has for them.
    OneOf(&'static str, &'static [&'static str]),
    /// A value each time that the option is given.
    Repeated(&'static str),
    /// Values with commas between them.
    List(&'static str),
}

/// The description of an option.
pub struct OptionHelp {
    /// Its name, without the dashes.
    pub name: &'static str,
    /// What it takes.
    pub takes: Takes,
    /// What it does, in one line.
    pub help: &'static str,
    /// The options that can't be given with it.
    pub excludes: &'static [&'static str],
    /// The option without which it can't be given.
    pub needs: Option<&'static str>,
    /// Whether all commands have it. Others are listed by the commands that have them.
    pub is_common: bool,
}

/// The options.
static OPTIONS: [OptionHelp; 21] = [
    OptionHelp {
        name: "from",
        takes: Takes::Value("ADDRESS"),
        help: "First address to list [default: the first]",
        excludes: &[],
        needs: None,
        is_common: false,
    },
    OptionHelp {
        name: "to",
        takes: Takes::Value("ADDRESS"),
        help: "Last address to list [default: the last]",
        excludes: &[],
        needs: None,
        is_common: false,
    },
    OptionHelp {
        name: "rights",
        takes: Takes::Value("RIGHTS"),
        help: "Rights to list, as in wx [default: any]",
        excludes: &[],
        needs: None,
        is_common: false,
    },
    OptionHelp {
        name: "names",
        takes: Takes::Nothing,
        help: "Show the names of the flags that are set, too; not with --json",
        excludes: &["json"],
        needs: None,
        is_common: false,
    },
    OptionHelp {
        name: "columns",
        takes: Takes::OneOf("HOW", &["plain", "aligned", "auto"]),
        help: "Columns: plain, aligned or auto [default: auto]; not with --json",
        excludes: &["json"],
        needs: None,
        is_common: false,
    },
    OptionHelp {
        name: "linux",
        takes: Takes::Nothing,
        help: "Name Linux's areas, whatever says where the root is",
        excludes: &["all-cpus"],
        needs: None,
        is_common: false,
    },
    OptionHelp {
        name: "explain",
        takes: Takes::Nothing,
        help: "Show page sizes, and which words take rights away; not with --json",
        excludes: &["json"],
        needs: None,
        is_common: false,
    },
    OptionHelp {
        name: "as",
        takes: Takes::Value("ACCESS"),
        help: "Access of which to say what a processor does",
        excludes: &[],
        needs: None,
        is_common: false,
    },
    OptionHelp {
        name: "controls",
        takes: Takes::List("LIST"),
        help: "Settings that are on [default: as a note says]",
        excludes: &[],
        needs: Some("as"),
        is_common: false,
    },
    OptionHelp {
        name: "maxphyaddr",
        takes: Takes::Value("N"),
        help: "Bits of physical addresses, 32 to 52 [default: 52]",
        excludes: &[],
        needs: None,
        is_common: false,
    },
    OptionHelp {
        name: "direct-map",
        takes: Takes::Value("RANGE"),
        help: "Addresses where tables may be writable, as FIRST:LAST",
        excludes: &[],
        needs: None,
        is_common: false,
    },
    OptionHelp {
        name: "aliases",
        takes: Takes::Nothing,
        help: "Find frames that are mapped with different rights, too",
        excludes: &[],
        needs: None,
        is_common: false,
    },
    OptionHelp {
        name: "all-cpus",
        takes: Takes::Nothing,
        help: "Report on the tables of all processors, on each root once",
        excludes: &["cr3", "cpu", "vmcoreinfo"],
        needs: None,
        is_common: false,
    },
    OptionHelp {
        name: "json",
        takes: Takes::Nothing,
        help: "Write JSON objects, one a line",
        excludes: &[],
        needs: None,
        is_common: false,
    },
    OptionHelp {
        name: "cr3",
        takes: Takes::Value("N"),
        help: "CR3 [default: as notes or VMCOREINFO in memory say]",
        excludes: &[],
        needs: None,
        is_common: true,
    },
    OptionHelp {
        name: "vmcoreinfo",
        takes: Takes::Value("OFFSET"),
        help: "Byte of the file where the VMCOREINFO to take begins",
        excludes: &["cr3", "cpu"],
        needs: None,
        is_common: true,
    },
    OptionHelp {
        name: "levels",
        takes: Takes::Value("N"),
        help: "Levels of tables, 4 or 5 [default: as those say, or 4]",
        excludes: &[],
        needs: None,
        is_common: true,
    },
    OptionHelp {
        name: "base",
        takes: Takes::Value("N"),
        help: "Address of a raw file's first byte [default: 0]",
        excludes: &[],
        needs: None,
        is_common: true,
    },
    OptionHelp {
        name: "range",
        takes: Takes::Repeated("RANGE"),
        help: "Bytes of a raw file, as OFFSET:ADDRESS:SIZE; repeatable",
        excludes: &[],
        needs: None,
        is_common: true,
    },
    OptionHelp {
        name: "raw",
        takes: Takes::Nothing,
        help: "Read the file as raw, whatever it begins with",
        excludes: &[],
        needs: None,
        is_common: true,
    },
    OptionHelp {
        name: "cpu",
        takes: Takes::Value("N"),
        help: "Processor whose note counts, from 0 on [default: 0]",
        excludes: &[],
        needs: None,
        is_common: true,
    },
];

/// Returns the descriptions of the options, in the order of the help.
pub fn options() -> &'static [OptionHelp] {
    &OPTIONS
}

impl OptionHelp {
    /// Returns the option of the command line.
    ///
    /// # Errors
    ///
    /// `AllocError` if memory allocation fails.
    pub fn argument<'a>(&self, alloc: Global) -> Result<Arg<'a>, AllocError>
        ensures name { IfOk result (λ argument.
            (argument.id ≡ self.now.name) × (argument.long ≡ Some self.now.name)) }
        ensures action { self.now.takes ≡ Nothing → IfOk result (λ argument. argument.action ≡ Some SetTrue) }
    {
        let argument = self.taking(alloc).conflicts_with_all(self.excludes)?;
        match self.needs {
            Some(other) => argument.requires_arg(other),
            None => Ok(argument),
        }
    }

    /// Returns the option without those that it excludes or needs.
    fn taking<'a>(&self, alloc: Global) -> Arg<'a>
        ensures name { (result.id ≡ self.now.name) × (result.long ≡ Some self.now.name) }
        ensures action { self.now.takes ≡ Nothing → result.action ≡ Some SetTrue }
    {
        let argument = Arg::new(alloc, self.name).long(self.name).help(self.help);
        match self.takes {
            Takes::Nothing => argument.action(ArgAction::SetTrue),
            Takes::Value(name) => argument.value_name(name),
            Takes::OneOf(name, words) => argument
                .value_name(name)
                .value_parser(words)
                .hide_possible_values(true),
            Takes::Repeated(name) => argument.value_name(name).action(ArgAction::Append),
            Takes::List(name) => argument.value_name(name).value_delimiter(','),
        }
    }
}
