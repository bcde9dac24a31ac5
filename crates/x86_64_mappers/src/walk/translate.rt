//! Translations of pages and of addresses.
ghost use Rattle.std.specs.Prelude.{◌≡◌, ◌≤◌, ◌+◌, ◌%◌, length, Some, option_and_then, option_map};
ghost use Rattle.x86_64_model.specs.Entry.{flags};
ghost use Rattle.x86_64_model.specs.Hierarchy.{Valid, page_translation, translation, walk};
ghost use Rattle.x86_64_model.specs.PageWalk.{page_start};
ghost use Rattle.x86_64_model.specs.Position.{span, page_path};
ghost use Rattle.x86_64_model.specs.Translation.{Mapped, address_of};
ghost use Rattle.x86_64_tables.specs.MapperAnswers.{translate_answer};
ghost use Rattle.x86_64_tables.specs.Translations.{translation_of, reaches, frame_start, frame_size, StaysBelow};

use super::leaf::named_frame;
use super::parents::find_table;
use super::path::path_of_address;
use super::{TableAccess, entry};
use x86_64_addr::addr::{PhysAddr, VirtAddrIn};
use x86_64_addr::index::PageTableIndex;
use x86_64_addr::level_count::LevelCount;
use x86_64_page::frame::PhysFrame;
use x86_64_page::page::PageSize;
use x86_64_tables::errors::TranslateError;
use x86_64_tables::page_table::{FrameError, PageTableEntry};
use x86_64_tables::page_tables::TablesIn;
use x86_64_tables::translation::{MappedFrame, TranslateResult};

/// Returns the frame of the page that a path leads to.
///
/// Requires that the hierarchy is valid, and that the path is that of an entry of the level of `S`.
///
/// # Errors
///
/// Those of [`find_table`], then those of [`named_frame`].
pub fn translate_path<S: PageSize, M: TableAccess>(
    mapper: &M,
    path: &[PageTableIndex],
) -> Result<PhysFrame<S>, TranslateError>
    requires levels { length path.now + S.LEVEL ≡ (M.hierarchy mapper.now).layout.levels + 1 }
    requires valid { Valid (M.hierarchy mapper.now) }
    ensures { translate_answer result ≡ page_translation (M.hierarchy mapper.now) path.now }
{
    let last = path.len() - 1;
    let parents = &path[..last];
    let table = find_table(mapper, parents)?;
    named_frame(entry(mapper, parents, table, path[last]))
}

/// Returns what an address is mapped to, as [`Translate::translate`](crate::mapper::Translate::translate) says.
///
/// Requires that the hierarchy is valid.
pub fn translate<M: TableAccess + TablesIn<L>, L: LevelCount>(
    mapper: &M,
    addr: VirtAddrIn<L>,
) -> TranslateResult
    requires { Valid (M.hierarchy mapper.now) }
    ensures answer { translation_of result ≡ Some (translation (M.hierarchy mapper.now) addr) }
    ensures walk { reaches result
        ≡ option_map (λ walked. walked.address) (walk (M.hierarchy mapper.now) addr) }
{
    let path = path_of_address(mapper, addr);
    translate_position(mapper, path.indices(), addr)
}

/// Returns the physical address that an address is mapped to, which is the frame's start plus the offset, or `None` if
/// the address isn't mapped.
///
/// Requires that the hierarchy is valid.
pub fn translate_addr<M: TableAccess + TablesIn<L>, L: LevelCount>(
    mapper: &M,
    addr: VirtAddrIn<L>,
) -> Option<PhysAddr>
    requires { Valid (M.hierarchy mapper.now) }
    ensures { result ≡ address_of (translation (M.hierarchy mapper.now) addr) }
{
    physical_address(translate(mapper, addr))
}

/// Returns the physical address of a translation, or `None` if it has none.
fn physical_address(translation: TranslateResult) -> Option<PhysAddr>
    requires { StaysBelow (translation_of translation) }
    ensures { result ≡ option_and_then address_of (translation_of translation) }
{
    match translation {
        TranslateResult::Mapped { frame, offset, .. } => {
            Some(PhysAddr::new(frame.start_address().as_u64() + offset))
        }
        TranslateResult::NotMapped | TranslateResult::InvalidFrameAddress(_) => None,
    }
}

/// Returns the translation of an address, by its indices from the root's level down to level one. It agrees with the
/// page walk.
fn translate_position<M: TableAccess + TablesIn<L>, L: LevelCount>(
    mapper: &M,
    indices: &[PageTableIndex],
    addr: VirtAddrIn<L>,
) -> TranslateResult
    requires valid { Valid (M.hierarchy mapper.now) }
    requires levels { length indices.now ≡ (M.hierarchy mapper.now).layout.levels }
    requires path { indices.now ≡ page_path (M.hierarchy mapper.now).layout.levels addr }
    ensures answer { translation_of result ≡ Some (translation (M.hierarchy mapper.now) addr) }
    ensures walk { reaches result
        ≡ option_map (λ walked. walked.address) (walk (M.hierarchy mapper.now) addr) }
{
    translate_along(mapper, indices, addr)
}

/// Returns the translation of an address, by its indices from the root's level down to level one.
///
/// Takes each index from the address when it is needed, so that a mapper that finds tables by their frames needs no
/// path.
fn translate_along<M: TableAccess + TablesIn<L>, L: LevelCount>(
    mapper: &M,
    indices: &[PageTableIndex],
    addr: VirtAddrIn<L>,
) -> TranslateResult
    requires valid { Valid (M.hierarchy mapper.now) }
    requires levels { length indices.now ≡ (M.hierarchy mapper.now).layout.levels }
    requires path { indices.now ≡ page_path (M.hierarchy mapper.now).layout.levels addr }
    ensures { translation_of result ≡ Some (translation (M.hierarchy mapper.now) addr) }
{
    let last = indices.len() - 1;
    let mut table = mapper.root();
    for k in 0..last {
        let level = indices.len() - k;
        let index = addr.table_index(level as u64);
        let entry = entry(mapper, &indices[..k], table, index);
        match entry.frame() {
            Ok(next) => table = next,
            Err(FrameError::FrameNotPresent) => return TranslateResult::NotMapped,
            Err(FrameError::HugeFrame) => return leaf_translation(level, entry, addr.position()),
        }
    }
    let entry = entry(mapper, &indices[..last], table, addr.table_index(1));
    if entry.is_unused() {
        TranslateResult::NotMapped
    } else {
        leaf_translation(1, entry, addr.position())
    }
}

/// Returns the translation of a position (an address counted without the gap between the halves) by the entry of a
/// level that maps its page.
fn leaf_translation(level: usize, entry: &PageTableEntry, position: u64) -> TranslateResult
    requires low { 1 ≤ level }
    requires high { level ≤ 3 }
    ensures { translation_of result ≡ Some (
        Mapped (span level) (page_start level entry.now) (position % span level) (flags entry.now)) }
{
    let frame = mapped_frame(level, entry);
    TranslateResult::Mapped {
        frame,
        offset: position % frame.size(),
        flags: entry.flags(),
    }
}

/// Returns the frame that the entry of a level maps a page to, which is the entry's address rounded down to the size
/// of the page.
fn mapped_frame(level: usize, entry: &PageTableEntry) -> MappedFrame
    requires low { 1 ≤ level }
    requires high { level ≤ 3 }
    ensures start { frame_start result ≡ page_start level entry.now }
    ensures size { frame_size result ≡ span level }
{
    let address = entry.addr();
    match level {
        1 => MappedFrame::Size4KiB(PhysFrame::containing_address(address)),
        2 => MappedFrame::Size2MiB(PhysFrame::containing_address(address)),
        _ => MappedFrame::Size1GiB(PhysFrame::containing_address(address)),
    }
}
