//! The request to a run, and its outcome.

ghost use Rattle.std.specs.Prelude.{◌≡◌};
ghost use Rattle.ptdump_engine.specs.NamedAreas.{layout_in};
ghost use Rattle.ptdump_engine.specs.Program.{has_roots, is_info, is_of_processors};

use linux_areas::Layout;
pub use ptdump_check::{AddressRange, Checking};
pub use ptdump_json::{Columns, ControlsSource, Form, WalkOptions};
pub use x86_64_addr::level_count::Levels;
use x86_64_dump::Placement;
pub use x86_64_mappings::Selection;

/// The report to write.
#[derive(Drop)]
pub enum Command {
    /// The regions that are selected.
    Regions(Selection),
    /// The mappings.
    Pages {
        /// Which of them.
        selection: Selection,
        /// Whether the names of their flags are listed too, which only text can do.
        has_names: bool,
    },
    /// The walks to virtual addresses.
    Walk {
        /// The addresses.
        addresses: Vec<u64>,
        /// What else is asked of them.
        options: WalkOptions,
    },
    /// The virtual addresses that lead to each of these physical addresses.
    Find(Vec<u64>),
    /// The findings in the tables.
    Check(Checking),
    /// The tables as an image for `pagetab`.
    Image,
    /// A picture of the regions and the tables.
    Picture,
    /// What the dump says of its machine, without tables.
    Info,
}

impl Command {
    /// Returns true if the report is about the dump alone, so that no tables are read.
    pub fn is_info(&self) -> bool
        ensures { result ≡ is_info self.now }
    {
        matches!(self, Command::Info)
    }

    /// Returns true if the report can be made of each root that processors have.
    fn has_roots(&self) -> bool
        ensures { result ≡ has_roots self.now }
    {
        matches!(self, Command::Regions(_) | Command::Check(_))
    }
}

/// Whether lines of regions and mappings name the area of Linux's address space in which they lie.
#[derive(Clone, Copy)]
pub enum AreaNames {
    /// If VMCOREINFO says where the root is, by what it tells.
    OfKernel,
    /// In any case, by what VMCOREINFO tells, if the dump has one. Memory isn't searched for it.
    Always,
    /// In any case, by this layout.
    By(Layout),
}

impl AreaNames {
    /// Returns the layout, if it is given.
    pub fn layout(self) -> Option<Layout>
        ensures { result ≡ layout_in self }
    {
        match self {
            AreaNames::By(layout) => Some(layout),
            AreaNames::OfKernel | AreaNames::Always => None,
        }
    }
}

/// A request for a report on a dump.
#[derive(Drop)]
pub struct Request {
    /// The report to write.
    pub command: Command,
    /// The form of a report of regions, mappings, walks, a search or a check, or of what the dump says. Other reports have one form.
    pub form: Form,
    /// The columns of regions or mappings, if these are listed as text. Other reports have no columns.
    pub columns: Columns,
    /// Whether regions or mappings, if these are listed, name their areas. A report on several roots names none but by a layout.
    pub areas: AreaNames,
    /// The CR3. If `None`, it is read from a processor's note in the dump, or else VMCOREINFO says where the kernel's root is.
    pub cr3: Option<u64>,
    /// The offset in the file of Linux's text VMCOREINFO that says where the kernel's root is. If `None`, memory is searched for such
    /// texts if there is no CR3 and no note.
    pub vmcoreinfo: Option<u64>,
    /// The number of levels of tables. If `None`, the CR4 in a processor's note determines it, or else VMCOREINFO if it says where the
    /// root is, or it is four.
    pub levels: Option<Levels>,
    /// Where the bytes of a raw dump lie in physical memory.
    pub placement: Placement,
    /// Whether the file is raw, whatever it begins with.
    pub is_raw: bool,
    /// The processor whose note is read, counted from 0 in the order of the notes. If `None`, it is the first one.
    pub cpu: Option<u64>,
    /// Whether a report of regions or a check is made of each root that the processors have by their notes, and not of one root.
    /// Then `cr3` and `cpu` don't count.
    pub all_cpus: bool,
}

impl Request {
    /// Returns true if a report is requested on each root that the processors have.
    pub fn is_of_processors(&self) -> bool
        ensures { result ≡ is_of_processors self.now }
    {
        self.all_cpus && self.command.has_roots()
    }
}

/// The outcome of a run that wrote its report.
#[derive(Clone, Copy)]
pub struct Outcome {
    /// Whether the request is fulfilled: each walk or its access arrives, each physical address of a search is found, a check
    /// finds nothing.
    pub is_complete: bool,
}
