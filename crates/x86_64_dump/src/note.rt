//! Notes of core files.

/// The location of a note in a core file. Linux, elf(5), "Notes (Nhdr)".
#[derive(Clone, Copy, Debug, PartialEq, Eq)]
pub struct Note {
    /// Its kind.
    pub kind: NoteKind,
    /// The offset of its descriptor in the file.
    pub offset: u64,
    /// The number of bytes in its descriptor.
    pub size: u64,
    /// The number of bytes from the start of this note to the start of the next.
    pub span: u64,
}

/// The kind of a note, by its name.
#[derive(Clone, Copy, Debug, PartialEq, Eq)]
pub enum NoteKind {
    /// The registers of a processor, by QEMU: `QEMU`.
    Qemu,
    /// What Linux says of its kernel: `VMCOREINFO`.
    VmCoreInfo,
    /// The state of a processor, by VirtualBox: `VBCPU`.
    VirtualBox,
    /// Any other note.
    Other,
}

impl NoteKind {
    ghost use Rattle.std.specs.Prelude.{◌≡◌};
    ghost use Rattle.x86_64_dump.specs.Notes.{kind_named, is_kind};

    /// Returns the kind of the notes with a name, which ends with its NUL.
    #[tactic(auto, unfolding(crate::specs::Notes::kind_named))]
    pub fn named(name: &[u8]) -> NoteKind
        ensures { result ≡ kind_named name.now }
    {
        if name == b"QEMU\0".as_slice() {
            NoteKind::Qemu
        } else if name == b"VMCOREINFO\0".as_slice() {
            NoteKind::VmCoreInfo
        } else if name == b"VBCPU\0".as_slice() {
            NoteKind::VirtualBox
        } else {
            NoteKind::Other
        }
    }

    /// Returns true if it is this kind.
    pub fn is(self, kind: NoteKind) -> bool
        ensures { result ≡ is_kind self kind }
    {
        match (self, kind) {
            (NoteKind::Qemu, NoteKind::Qemu)
            | (NoteKind::VmCoreInfo, NoteKind::VmCoreInfo)
            | (NoteKind::VirtualBox, NoteKind::VirtualBox)
            | (NoteKind::Other, NoteKind::Other) => true,
            _ => false,
        }
    }
}
