//! What Linux's VMCOREINFO says of its kernel.
ghost use Rattle.std.specs.Prelude.{◌≡◌, ◌≤◌, ◌<◌, ◌^◌, ◌==◌, IfSome, length};
ghost use Rattle.std.specs.List.{position};
ghost use Rattle.std.specs.Option.{option_copied};
ghost use Rattle.std.specs.Fmt.{WritesOnOk};
ghost use Rattle.x86_64_dump.specs.FaultTexts as texts;
ghost use Rattle.x86_64_dump.specs.VmCoreInfo as info;

use std::fmt::{Display, Formatter, Result as FmtResult, Write};
use text::parse_digits;
use x86_64_addr::addr::PhysAddr;
use x86_64_addr::level_count::Levels;
use x86_64_page::frame::PhysFrame;
use x86_64_page::page::Size4KiB;

/// The virtual address from which on the kernel is mapped, `__START_KERNEL_map`.
const KERNEL_MAP: u64 = 0xffff_ffff_8000_0000;

/// A key of a line.
#[derive(Clone, Copy, Debug, PartialEq, Eq)]
pub enum Key {
    /// `SYMBOL(swapper_pg_dir)`: the virtual address of the root, in hexadecimal digits.
    SwapperPgDir,
    /// `NUMBER(phys_base)`: the physical address for which 0xffffffff80000000 stands, in decimal digits, perhaps after a minus.
    PhysBase,
    /// `NUMBER(pgtable_l5_enabled)`: 1 for five levels of tables.
    FiveLevels,
    /// `NUMBER(sme_mask)`: the bit of entries by which the kernel marks encrypted memory, in decimal digits, or 0.
    SmeMask,
}

impl Key {
    /// Returns the key with `=` behind it.
    fn text(self) -> &'static str
        ensures { result.now ≡ info.key_bytes self }
    {
        match self {
            Key::SwapperPgDir => "SYMBOL(swapper_pg_dir)=",
            Key::PhysBase => "NUMBER(phys_base)=",
            Key::FiveLevels => "NUMBER(pgtable_l5_enabled)=",
            Key::SmeMask => "NUMBER(sme_mask)=",
        }
    }
}

/// A number that is added to an address or subtracted from it.
#[derive(Clone, Copy, Debug, PartialEq, Eq)]
pub enum Shift {
    /// It is added.
    Up(u64),
    /// It is subtracted.
    Down(u64),
}

/// The root of the kernel's own page tables.
#[derive(Clone, Copy, Debug, PartialEq, Eq)]
pub struct Kernel {
    /// The frame of the root's table.
    pub root: PhysFrame<Size4KiB>,
    /// The number of levels of tables.
    pub levels: Levels,
    /// The bits of entries by which the kernel marks encrypted memory, or 0.
    pub encryption_mask: u64,
}

/// Why a text doesn't say the kernel's root, its levels and the encryption mask.
#[derive(Clone, Copy, Debug, PartialEq, Eq)]
pub enum KernelFault {
    /// No line has the key.
    Missing(Key),
    /// The value of the key isn't a number below 2^64, or has other characters.
    NoNumber(Key),
    /// The address that the values make isn't that of a frame below 2^52.
    NoFrame,
    /// Two texts in memory say different kernels.
    Differ {
        /// The offset in the file of the first.
        first: u64,
        /// The offset of the first one that says another kernel.
        other: u64,
    },
}

impl Kernel {
    /// Returns the root of the kernel that a text describes.
    ///
    /// # Errors
    ///
    /// Why the text doesn't say it.
    #[tactic(auto, unfolding(crate::specs::VmCoreInfo::kernel_of))]
    pub fn of(text: &[u8]) -> Result<Kernel, KernelFault>
        ensures { result ≡ info.kernel_of text.now }
    {
        let symbol = number_for_key(text, 16, Key::SwapperPgDir)?.ok_or(KernelFault::Missing(
            Key::SwapperPgDir,
        ))?;
        let shift = shift_for_key(text, Key::PhysBase)?.ok_or(KernelFault::Missing(Key::PhysBase))?;
        let five = number_for_key(text, 10, Key::FiveLevels)?;
        let mask = number_for_key(text, 10, Key::SmeMask)?;
        let root = physical(symbol, shift).ok_or(KernelFault::NoFrame)?;
        Ok(Kernel {
            root,
            levels: levels_by(five.unwrap_or(0)),
            encryption_mask: mask.unwrap_or(0),
        })
    }

    /// Returns true if both are the same kernel.
    pub fn is_same(&self, other: &Kernel) -> bool
        ensures { result ≡ info.same_kernel self.now other.now }
    {
        self.root == other.root
            && same_levels(self.levels, other.levels)
            && self.encryption_mask == other.encryption_mask
    }
}

/// Returns the number that is the value of a key, if a line has the key.
fn number_for_key(text: &[u8], radix: u32, key: Key) -> Result<Option<u64>, KernelFault>
    requires lower_bound { 2 ≤ radix }
    requires upper_bound { radix ≤ 36 }
    ensures { result ≡ info.number_for_key text.now radix key }
{
    let Some(value) = value_of(text, key.text().as_bytes()) else {
        return Ok(None);
    };
    match number_of(value, radix) {
        Some(number) => Ok(Some(number)),
        None => Err(KernelFault::NoNumber(key)),
    }
}

/// Returns the number with or without a minus that is the value of a key, if a line has the key.
fn shift_for_key(text: &[u8], key: Key) -> Result<Option<Shift>, KernelFault>
    ensures { result ≡ info.shift_for_key text.now key }
{
    let Some(value) = value_of(text, key.text().as_bytes()) else {
        return Ok(None);
    };
    match shift_of(value) {
        Some(shift) => Ok(Some(shift)),
        None => Err(KernelFault::NoNumber(key)),
    }
}

/// Returns what is behind a prefix in the first line that begins with it.
fn value_of<'a>(text: &'a [u8], prefix: &[u8]) -> Option<&'a [u8]>
    ensures { option_copied result ≡ info.value_of text.now prefix.now }
{
    let mut rest = text;
    while let Some(end) = line_end(rest) {
        let (line, behind) = rest.split_at(end);
        if let Some(value) = line.strip_prefix(prefix) {
            return Some(value);
        }
        rest = &behind[1..];
    }
    None
}

/// Returns the place of the first line feed.
fn line_end(text: &[u8]) -> Option<usize>
    ensures place { result ≡ position (λ byte. byte == 10) text.now }
    ensures inside { IfSome result (λ i. i < length text.now) }
{
    text.iter().position(|byte| *byte == b'\n')
}

/// Returns the number that digits of a radix are, or `None` unless there are one digit or more and nothing else, and the number is
/// below 2^64.
fn number_of(digits: &[u8], radix: u32) -> Option<u64>
    requires lower_bound { 2 ≤ radix }
    requires upper_bound { radix ≤ 36 }
    ensures { result ≡ info.number_in_radix radix digits.now }
{
    match str::from_utf8(digits) {
        Ok(text) => parse_digits(text, radix),
        Err(_) => None,
    }
}

/// Returns the number that decimal digits are, perhaps behind a minus, or `None` if the text has other characters or the number
/// is too large.
#[tactic(auto, unfolding(crate::specs::VmCoreInfo::shift_of))]
fn shift_of(text: &[u8]) -> Option<Shift>
    ensures { result ≡ info.shift_of text.now }
{
    match text.strip_prefix(b"-") {
        Some(digits) => number_of(digits, 10).map(Shift::Down),
        None => number_of(text, 10).map(Shift::Up),
    }
}

/// Returns the 64-bit number that is the value of a key, which has its `=`, in the first line that has it. Returns `None` if no line
/// has it, or if the value is neither hexadecimal digits behind `0x` nor decimal digits, perhaps behind a minus, or too large. A
/// number behind a minus counts modulo 2^64, as addresses are written that the kernel prints as signed numbers.
pub fn word_in(text: &[u8], key: &[u8]) -> Option<u64>
    ensures { result ≡ info.value_in text.now key.now }
{
    let Some(value) = value_of(text, key) else {
        return None;
    };
    word_of(value)
}

/// Returns the 64-bit number that a value is.
#[tactic(auto, unfolding(crate::specs::VmCoreInfo::word_of))]
fn word_of(value: &[u8]) -> Option<u64>
    ensures { result ≡ info.word_of value.now }
{
    if let Some(digits) = value.strip_prefix(b"0x") {
        return number_of(digits, 16);
    }
    let Some(shift) = shift_of(value) else {
        return None;
    };
    word_by(shift)
}

/// Returns the 64-bit number that a number with or without a minus is, modulo 2^64. It may be negative down to -2^63.
fn word_by(shift: Shift) -> Option<u64>
    ensures { result ≡ info.word_by shift }
{
    match shift {
        Shift::Up(n) => Some(n),
        Shift::Down(n) if n <= 1 << 63 => Some(n.wrapping_neg()),
        Shift::Down(_) => None,
    }
}

/// Returns where a symbol of the kernel is in physical memory, if that is the address of a frame.
#[tactic(auto, unfolding(crate::specs::VmCoreInfo::physical))]
fn physical(symbol: u64, shift: Shift) -> Option<PhysFrame<Size4KiB>>
    ensures { result ≡ info.physical symbol shift }
{
    let offset = symbol.checked_sub(KERNEL_MAP)?;
    let address = match shift {
        Shift::Up(n) => offset.checked_add(n)?,
        Shift::Down(n) => offset.checked_sub(n)?,
    };
    PhysFrame::from_start_address(PhysAddr::try_new(address).ok()?).ok()
}

/// Returns the number of levels for the value of `NUMBER(pgtable_l5_enabled)`.
fn levels_by(five: u64) -> Levels
    ensures { result ≡ info.levels_by five }
{
    if five == 1 {
        Levels::Five
    } else {
        Levels::Four
    }
}

/// Returns true if both are the same number of levels.
fn same_levels(one: Levels, other: Levels) -> bool
    ensures { result ≡ info.same_levels one other }
{
    matches!(
        (one, other),
        (Levels::Four, Levels::Four) | (Levels::Five, Levels::Five)
    )
}

impl Display for Key {
    ghost use Rattle.std.specs.Prelude.{Some};
    ghost use Rattle.x86_64_dump.specs.VmCoreInfo.{key_name};

    ghost output = { λ key. Some (key_name key) };

    fn fmt<W: Write>(&self, f: &mut Formatter<W>) -> FmtResult {
        f.write_str(match self {
            Key::SwapperPgDir => "SYMBOL(swapper_pg_dir)",
            Key::PhysBase => "NUMBER(phys_base)",
            Key::FiveLevels => "NUMBER(pgtable_l5_enabled)",
            Key::SmeMask => "NUMBER(sme_mask)",
        })
    }
}

impl Display for KernelFault {
    ghost use Rattle.std.specs.Prelude.{Some};
    ghost use Rattle.x86_64_dump.specs.FaultTexts.{kernel_fault_text};

    ghost output = { λ fault. Some (kernel_fault_text fault) };

    fn fmt<W: Write>(&self, f: &mut Formatter<W>) -> FmtResult {
        match self {
            KernelFault::Missing(key) => write!(f, "VMCOREINFO has no line {key}: give --cr3"),
            KernelFault::NoNumber(key) => write!(
                f,
                "VMCOREINFO has no number below 2^64 behind {key}: give --cr3"
            ),
            KernelFault::NoFrame => f.write_str(
                "SYMBOL(swapper_pg_dir) - 0xffffffff80000000 + NUMBER(phys_base) of VMCOREINFO is no frame's address: give --cr3",
            ),
            KernelFault::Differ { first, other } => write_differ(f, *first, *other),
        }
    }
}

/// Writes that two texts in memory say different kernels.
#[tactic(auto, unfolding(crate::specs::FaultTexts::differ_text))]
fn write_differ<W: Write>(f: &mut Formatter<W>, first: u64, other: u64) -> FmtResult
    ensures { WritesOnOk W.write_str_gives f.old result (texts.differ_text first other) f.new }
{
    write!(
        f,
        "the texts of VMCOREINFO at bytes {first} and {other} of the file differ: give --vmcoreinfo and one of these numbers, or --cr3"
    )
}
