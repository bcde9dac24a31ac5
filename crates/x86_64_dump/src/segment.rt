//! Segments: the parts of a file that program headers describe.
ghost use Rattle.std.specs.Prelude.{◌≡◌};
ghost use Rattle.x86_64_dump.specs.Segments.{has_address, is_memory};

/// A part of an ELF core file, as its program header describes it. ELF-64 Object File Format, "Program header". Parts of files of
/// other formats are described likewise.
#[derive(Clone, Copy, Debug, PartialEq, Eq)]
pub struct Segment {
    /// The kind of the part, `p_type`: 1 for memory, `PT_LOAD`, and 4 for notes, `PT_NOTE`.
    pub kind: u32,
    /// The offset of the first byte in the file, `p_offset`.
    pub offset: u64,
    /// The physical address of the first byte, `p_paddr`.
    pub address: u64,
    /// The number of bytes in the file, `p_filesz`.
    pub size: u64,
}

impl Segment {
    /// The kind of a segment of memory.
    pub const LOAD: u32 = 1;

    /// The kind of a segment of notes.
    pub const NOTE: u32 = 4;

    /// The kind of a segment that is neither, `PT_NULL`.
    pub const OTHER: u32 = 0;

    /// The address of a segment that has none, as in Linux's /proc/kcore.
    const NO_ADDRESS: u64 = u64::MAX;

    /// Returns true if the segment says at which physical address its bytes lie. Linux's /proc/kcore has segments that don't, whose
    /// `p_paddr` is -1.
    pub fn has_address(&self) -> bool
        ensures { result ≡ has_address self.now }
    {
        self.address != Segment::NO_ADDRESS
    }

    /// Returns true if the segment is physical memory: its kind is [`Segment::LOAD`], and it has an address.
    pub fn is_memory(&self) -> bool
        ensures { result ≡ is_memory self.now }
    {
        self.kind == Segment::LOAD && self.has_address()
    }
}
