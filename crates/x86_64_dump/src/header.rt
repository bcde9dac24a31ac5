//! The start of a file, as an ELF header.

/// The fields of the ELF header at the start of a file, if it has one. ELF-64 Object File Format, "ELF header".
#[derive(Clone, Copy)]
pub struct Header {
    /// `EI_CLASS`: 2 for 64 bits.
    pub class: u8,
    /// `EI_DATA`: 1 for little endian.
    pub order: u8,
    /// `e_type`: 4 for a core file.
    pub file_type: u16,
    /// `e_machine`: 62 for x86-64.
    pub machine: u16,
    /// The offset of the program headers, `e_phoff`.
    pub headers: u64,
    /// The offset of the section headers, `e_shoff`.
    pub sections: u64,
    /// The size of a program header, `e_phentsize`.
    pub entry_size: u16,
    /// The number of program headers, `e_phnum`, or 65535 if section header 0 has it.
    pub count: u16,
}
