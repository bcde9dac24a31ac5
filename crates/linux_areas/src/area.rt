//! Areas of the address space, and their names.
ghost use Rattle.std.specs.Prelude.{◌≡◌};
ghost use Rattle.linux_areas.specs.Areas.{area_name, areas};

use std::fmt::{Display, Formatter, Result as FmtResult, Write};

/// An area of the address space of Linux for x86-64. Its text is its name.
///
/// Linux, "Memory Management" (Documentation/arch/x86/x86_64/mm.rst).
#[derive(Clone, Copy, Debug, PartialEq, Eq)]
pub enum Area {
    /// The memory of the process: the lower half of the address space.
    User,
    /// The remap of the local descriptor table for page table isolation.
    LdtRemap,
    /// The direct map of all physical memory.
    DirectMap,
    /// What `vmalloc` and `ioremap` map.
    Vmalloc,
    /// The array of the pages' descriptors.
    Vmemmap,
    /// The processors' entry areas.
    CpuEntryArea,
    /// The stacks by which ESP's upper half is kept on return to 16 bits.
    EspFixup,
    /// What the firmware's runtime services see.
    Efi,
    /// The kernel's code and data.
    KernelText,
    /// The modules.
    Modules,
    /// The kernel's code and data or modules, if it isn't known where the one ends and the other begins.
    KernelTextOrModules,
    /// Mappings at addresses that are fixed when the kernel is compiled.
    Fixmap,
    /// The page of the old system calls of virtual memory.
    Vsyscall,
}

/// The areas, in order of their addresses.
pub const AREAS: [Area; 13] = [
    Area::User,
    Area::LdtRemap,
    Area::DirectMap,
    Area::Vmalloc,
    Area::Vmemmap,
    Area::CpuEntryArea,
    Area::EspFixup,
    Area::Efi,
    Area::KernelText,
    Area::Modules,
    Area::KernelTextOrModules,
    Area::Fixmap,
    Area::Vsyscall,
];

impl Area {
    /// Returns its name.
    pub fn name(self) -> &'static str
        ensures { result.now ≡ area_name self }
    {
        match self {
            Area::User => "user",
            Area::LdtRemap => "LDT remap",
            Area::DirectMap => "direct map",
            Area::Vmalloc => "vmalloc",
            Area::Vmemmap => "vmemmap",
            Area::CpuEntryArea => "cpu entry area",
            Area::EspFixup => "ESP fixup",
            Area::Efi => "EFI",
            Area::KernelText => "kernel text",
            Area::Modules => "modules",
            Area::KernelTextOrModules => "kernel text or modules",
            Area::Fixmap => "fixmap",
            Area::Vsyscall => "vsyscall",
        }
    }
}

impl Display for Area {
    ghost use Rattle.std.specs.Prelude.{Some};
    ghost use Rattle.linux_areas.specs.Areas.{area_name};

    ghost output = { λ area. Some (area_name area) };

    fn fmt<W: Write>(&self, f: &mut Formatter<W>) -> FmtResult {
        f.write_str(self.name())
    }
}
