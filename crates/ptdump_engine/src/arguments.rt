//! Tests of the request.
ghost use Rattle.std.specs.Prelude.{◌≡◌, ◌^◌, nat_le, not};
ghost use Rattle.std.specs.List.{find};
ghost use Rattle.x86_64_dump.specs.Opened.{words_opened};
ghost use Rattle.ptdump_engine.specs.Program as program;

use crate::failure::Failure;
use crate::request::{AddressRange, Command, Levels, Selection};
use x86_64_addr::addr::{VirtAddr, VirtAddr57};
use x86_64_dump::{ByteSource, Dump};
use x86_64_page::frame::PhysFrame;
use x86_64_page::page::Size4KiB;

/// The end of the physical addresses.
const PHYSICAL_END: u64 = 1 << 52;

/// Returns a failure for the first invalid address of a command, or `None` if all are valid.
pub fn argument_failure(command: &Command, levels: Levels) -> Option<Failure>
    ensures { result ≡ program.argument_failure levels command.now }
{
    match command {
        Command::Walk { addresses, .. } => {
            let address = first_not_canonical(addresses, levels)?;
            Some(Failure::NotCanonical { address, levels })
        }
        Command::Find(addresses) => {
            let address = first_not_physical(addresses)?;
            Some(Failure::NotPhysical { address })
        }
        Command::Regions(selection) | Command::Pages { selection, .. } => {
            selection_failure(*selection, levels)
        }
        Command::Check(checking) => selection_failure(checking.selection, levels).or(
            direct_map_failure(checking.direct_map, levels),
        ),
        _ => None,
    }
}

/// Returns a failure if an address of a selection isn't canonical, or the first is above the last, and `None` otherwise.
fn selection_failure(selection: Selection, levels: Levels) -> Option<Failure>
    ensures { result ≡ program.selection_failure levels selection }
{
    address_failure(selection.from, levels)
        .or(address_failure(selection.to, levels))
        .or(order_failure(selection.from, selection.to))
}

/// Returns a failure if there is a direct map, and one of its ends isn't canonical, or the first is above the last, and `None`
/// otherwise.
fn direct_map_failure(direct_map: Option<AddressRange>, levels: Levels) -> Option<Failure>
    ensures { result ≡ program.direct_map_failure levels direct_map }
{
    let range = direct_map?;
    address_failure(Some(range.first), levels)
        .or(address_failure(Some(range.last), levels))
        .or(reversed_failure(range))
}

/// Returns a failure if the first address of a direct map is above its last one, and `None` otherwise.
fn reversed_failure(range: AddressRange) -> Option<Failure>
    ensures { result ≡ program.reversed_failure range }
{
    if range.last < range.first {
        Some(Failure::DirectMapReversed {
            first: range.first,
            last: range.last,
        })
    } else {
        None
    }
}

/// Returns a failure if there is an address, and it isn't canonical, and `None` otherwise.
fn address_failure(address: Option<u64>, levels: Levels) -> Option<Failure>
    ensures { result ≡ program.address_failure levels address }
{
    match address {
        Some(address) if !is_canonical(address, levels) => {
            Some(Failure::NotCanonical { address, levels })
        }
        _ => None,
    }
}

/// Returns a failure if the first address is above the last, and `None` otherwise.
fn order_failure(from: Option<u64>, to: Option<u64>) -> Option<Failure>
    ensures { result ≡ program.order_failure from to }
{
    match (from, to) {
        (Some(from), Some(to)) if to < from => Some(Failure::FromAboveTo { from, to }),
        _ => None,
    }
}

/// Returns the first address that isn't canonical.
fn first_not_canonical(addresses: &[u64], levels: Levels) -> Option<u64>
    ensures { result
        ≡ find (λ a. not (program.is_canonical_address (program.level_count levels) a)) addresses.now }
{
    addresses
        .iter()
        .copied()
        .find(|address| !is_canonical(*address, levels))
}

/// Returns the first address that isn't below 2^52.
fn first_not_physical(addresses: &[u64]) -> Option<u64>
    ensures { result ≡ find (λ a. nat_le (2 ^ 52) a) addresses.now }
{
    addresses
        .iter()
        .copied()
        .find(|address| *address >= PHYSICAL_END)
}

/// Returns true if the address is canonical.
fn is_canonical(address: u64, levels: Levels) -> bool
    ensures { result ≡ program.is_canonical_address (program.level_count levels) address }
{
    match levels {
        Levels::Four => VirtAddr::checked_new(address).is_some(),
        Levels::Five => VirtAddr57::checked_new(address).is_some(),
    }
}

/// Returns a failure if nothing can be reported on a root: the dump lacks its table, and the command isn't a walk, which
/// reports that itself.
pub fn root_failure<S: ByteSource>(
    dump: &Dump<S>,
    command: &Command,
    root: PhysFrame<Size4KiB>,
) -> Option<Failure>
    ensures { S.IsKnown →
        result ≡ program.root_failure command.now (words_opened S.bytes dump.now) root }
{
    if matches!(command, Command::Walk { .. }) || dump.has_frame(root) {
        return None;
    }
    let root = root.start_address().as_u64();
    Some(Failure::NoRoot { root })
}
