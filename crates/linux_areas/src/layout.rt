//! Where the areas lie in the address space of a kernel.
ghost use Rattle.std.specs.Prelude.{◌≡◌, ◌<◌, ◌≤◌};
ghost use Rattle.std.specs.Option.{option_copied};
ghost use Rattle.linux_areas.specs.Areas as specs;

use crate::area::{AREAS, Area};
use x86_64_addr::level_count::Levels;
use x86_64_dump::word_in;

/// Where the kernel's code and data begin, `__START_KERNEL_map`.
const KERNEL_MAP: u64 = 0xffff_ffff_8000_0000;

/// The last address of modules.
const MODULES_LAST: u64 = 0xffff_ffff_feff_ffff;

/// The number of bytes for the kernel's code and data and modules together.
const IMAGE_SPACE: u64 = 0x7f00_0000;

/// The number of bytes in 1TiB.
const TIB: u64 = 1 << 40;

/// The first and the last address of an area.
#[derive(Clone, Copy, Debug, PartialEq, Eq)]
pub struct Bounds {
    /// The first.
    pub first: u64,
    /// The last.
    pub last: u64,
}

/// What is known of the places of the areas in the address space of a kernel.
#[derive(Clone, Copy, Debug, PartialEq, Eq)]
pub struct Layout {
    /// The number of levels of the kernel's tables.
    pub levels: Levels,
    /// Where the direct map begins, if it is known.
    pub page_offset_base: Option<u64>,
    /// Where the area of `vmalloc` begins, if it is known.
    pub vmalloc_base: Option<u64>,
    /// Where the array of the pages' descriptors begins, if it is known.
    pub vmemmap_base: Option<u64>,
    /// The number of bytes that are kept for the kernel's code and data, `KERNEL_IMAGE_SIZE`, if it is known.
    pub kernel_image_size: Option<u64>,
}

impl Layout {
    /// Returns what a text of VMCOREINFO says of a kernel whose tables have so many levels, or nothing of the places that the kernel
    /// chooses if there is no text. A number counts that is hexadecimal behind `0x`, or decimal and perhaps negative.
    pub fn of(vmcoreinfo: Option<&[u8]>, levels: Levels) -> Layout
        ensures { result ≡ specs.area_layout (option_copied vmcoreinfo.entry) levels }
    {
        Layout {
            levels,
            page_offset_base: number_after(vmcoreinfo, b"NUMBER(page_offset_base)="),
            vmalloc_base: number_after(vmcoreinfo, b"NUMBER(vmalloc_base)="),
            vmemmap_base: number_after(vmcoreinfo, b"NUMBER(vmemmap_base)="),
            kernel_image_size: number_after(vmcoreinfo, b"NUMBER(KERNEL_IMAGE_SIZE)="),
        }
    }

    /// Returns the area in which all addresses from a first to a last one lie, if it is known.
    #[tactic(auto, unfolding(crate::specs::Areas::area_at))]
    pub fn area_at(&self, first: u64, last: u64) -> Option<Area>
        ensures { result ≡ specs.area_at self.now first last }
    {
        AREAS
            .iter()
            .copied()
            .find(|area| self.has_in(*area, first, last))
    }

    /// Returns true if addresses from a first to a last one lie in an area whose place is known.
    fn has_in(&self, area: Area, first: u64, last: u64) -> bool
        ensures { result ≡ specs.lie_in first last (specs.bounds_of self.now area) }
    {
        match self.bounds_of(area) {
            Some(bounds) => bounds.first <= first && last <= bounds.last,
            None => false,
        }
    }

    /// Returns the first and the last address of an area, if its place is known. Its last address may be below its first one: then it
    /// has no address.
    pub fn bounds_of(&self, area: Area) -> Option<Bounds>
        ensures { result ≡ specs.bounds_of self.now area }
    {
        match area {
            Area::User => user_area(self.levels),
            Area::LdtRemap => ldt_remap(self.levels),
            Area::DirectMap => self.based(self.page_offset_base, direct_map_size(self.levels)),
            Area::Vmalloc => self.based(self.vmalloc_base, vmalloc_size(self.levels)),
            Area::Vmemmap => self.based(self.vmemmap_base, vmemmap_size(self.levels)),
            Area::CpuEntryArea => between(0xffff_fe00_0000_0000, 0xffff_fe7f_ffff_ffff),
            Area::EspFixup => between(0xffff_ff00_0000_0000, 0xffff_ff7f_ffff_ffff),
            Area::Efi => between(0xffff_ffef_0000_0000, 0xffff_fffe_ffff_ffff),
            Area::KernelText => text_area(self.kernel_image_size),
            Area::Modules => module_area(self.kernel_image_size),
            Area::KernelTextOrModules => text_or_modules(self.kernel_image_size),
            Area::Fixmap => between(0xffff_ffff_ff00_0000, 0xffff_ffff_ff5f_ffff),
            Area::Vsyscall => between(0xffff_ffff_ff60_0000, 0xffff_ffff_ff60_0fff),
        }
    }

    /// Returns the bounds of an area of this size at its base, if that is known. It ends before the next base that is known.
    fn based(&self, base: Option<u64>, size: u64) -> Option<Bounds>
        requires { 0 < size }
        ensures { result ≡ specs.based self.now base size }
    {
        let base = base?;
        let last = base.saturating_add(size - 1);
        let last = last_before(self.page_offset_base, base, last);
        let last = last_before(self.vmalloc_base, base, last);
        let last = last_before(self.vmemmap_base, base, last);
        Some(Bounds { first: base, last })
    }
}

/// Returns the 64-bit word behind a key in a text, or `None` if there is no text or no such word in it.
fn number_after(text: Option<&[u8]>, key: &[u8]) -> Option<u64>
    ensures { result ≡ specs.number_after (option_copied text.entry) key.now }
{
    word_in(text?, key)
}

/// Returns the first and the last address.
fn between(first: u64, last: u64) -> Option<Bounds>
    ensures { result ≡ specs.bounds_between first last }
{
    Some(Bounds { first, last })
}

/// Returns the last address of an area at a base, or the address before another base if that lies in it.
fn last_before(other: Option<u64>, base: u64, last: u64) -> u64
    ensures { result ≡ specs.last_before other base last }
{
    match other {
        Some(other) if base < other => last.min(other - 1),
        _ => last,
    }
}

/// Returns where the memory of the process lies.
fn user_area(levels: Levels) -> Option<Bounds>
    ensures { result ≡ specs.user_area levels }
{
    match levels {
        Levels::Four => between(0, 0x7fff_ffff_ffff),
        Levels::Five => between(0, 0xff_ffff_ffff_ffff),
    }
}

/// Returns where the remap of the local descriptor table lies.
fn ldt_remap(levels: Levels) -> Option<Bounds>
    ensures { result ≡ specs.ldt_remap levels }
{
    match levels {
        Levels::Four => between(0xffff_8800_0000_0000, 0xffff_887f_ffff_ffff),
        Levels::Five => between(0xff10_0000_0000_0000, 0xff10_ffff_ffff_ffff),
    }
}

/// Returns the greatest size of the direct map.
fn direct_map_size(levels: Levels) -> u64
    ensures size { result ≡ specs.direct_map_size levels }
    ensures some { 0 < result }
{
    match levels {
        Levels::Four => 64 * TIB,
        Levels::Five => 32768 * TIB,
    }
}

/// Returns the greatest size of the area of `vmalloc`.
fn vmalloc_size(levels: Levels) -> u64
    ensures size { result ≡ specs.vmalloc_size levels }
    ensures some { 0 < result }
{
    match levels {
        Levels::Four => 32 * TIB,
        Levels::Five => 12800 * TIB,
    }
}

/// Returns the greatest size of the array of the pages' descriptors.
fn vmemmap_size(levels: Levels) -> u64
    ensures size { result ≡ specs.vmemmap_size levels }
    ensures some { 0 < result }
{
    match levels {
        Levels::Four => TIB,
        Levels::Five => 512 * TIB,
    }
}

/// Returns where modules begin, behind the bytes that are kept for the kernel's code and data.
fn modules_start(size: u64) -> u64
    ensures start { result ≡ specs.modules_start size }
    ensures above { 0xffff_ffff_8000_0000 ≤ result }
{
    KERNEL_MAP + size.min(IMAGE_SPACE)
}

/// Returns where the kernel's code and data lie, if it is known.
fn text_area(size: Option<u64>) -> Option<Bounds>
    ensures { result ≡ specs.text_area size }
{
    between(KERNEL_MAP, modules_start(size?) - 1)
}

/// Returns where modules lie, if it is known.
fn module_area(size: Option<u64>) -> Option<Bounds>
    ensures { result ≡ specs.module_area size }
{
    between(modules_start(size?), MODULES_LAST)
}

/// Returns where both together lie, if it isn't known where modules begin.
fn text_or_modules(size: Option<u64>) -> Option<Bounds>
    ensures { result ≡ specs.text_or_modules size }
{
    match size {
        None => between(KERNEL_MAP, MODULES_LAST),
        Some(_) => None,
    }
}
