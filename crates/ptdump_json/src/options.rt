//! Options of lines and walks.
ghost use Rattle.std.specs.Prelude.{◌≡◌};
ghost use Rattle.ptdump_json.specs.Accesses.{source_name};

use x86_64_access::{Access, Controls};

/// The form of a report.
#[derive(Clone, Copy)]
pub enum Form {
    /// Lines of text.
    Text,
    /// A JSON object a line: for each region, mapping, walk, finding or address that is found, for the number of findings, for a
    /// group of processors, and for each thing that a dump says.
    Json,
}

/// The columns of a list of regions or mappings, as text.
#[derive(Clone, Copy)]
pub enum Columns {
    /// A space is between two columns, for scripts.
    Plain,
    /// Each column is as wide as any of its texts can be, for readers.
    Aligned,
}

/// What says the controls by which an access is answered.
#[derive(Clone, Copy)]
pub enum ControlsSource {
    /// Who asks for it.
    Given,
    /// QEMU's note of the processor says WP, SMEP and SMAP. The others are assumed: EFER isn't in the note, and AC changes too often.
    Noted,
    /// Nothing: they are assumed.
    Assumed,
}

impl ControlsSource {
    /// Returns its name.
    pub fn name(self) -> &'static str
        ensures { result.now ≡ source_name self }
    {
        match self {
            ControlsSource::Given => "given",
            ControlsSource::Noted => "noted",
            ControlsSource::Assumed => "assumed",
        }
    }
}

/// What is asked of the walk to each address, beside its words and its end.
#[derive(Clone, Copy)]
pub struct WalkOptions {
    /// What the processor is set to, which says at which words it faults. Text says these, and JSON only what comes of the access.
    /// More than 52 bits of physical addresses count as 52. If they are assumed, those count that the processor's note tells.
    pub controls: Controls,
    /// What says the controls.
    pub source: ControlsSource,
    /// Whether the report also says how large the page is, and which words take rights away, which only text can do.
    pub explains: bool,
    /// The access of which the report also says what the processor does with it, if there is one.
    pub access: Option<Access>,
}
