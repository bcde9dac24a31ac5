//! What callers hand in.
ghost use Rattle.std.specs.Prelude.{◌≡◌, true, false, Some, None, IfOk, IfErr, IfSome, IfNone};
ghost use Rattle.x86_64_c.specs.Arguments as given;
ghost use Rattle.x86_64_c.specs.Status as status;
ghost use Rattle.x86_64_live.specs.MapsOrNothing.{call_for};
ghost use Rattle.x86_64_model.specs.Call.{MapToWithTableFlags};
ghost use Rattle.x86_64_model.specs.Position.{span};

use crate::status;
use bitflags::Flags;
use x86_64::structures::paging::mapper::PageTableFrameMapping;
use x86_64::structures::paging::{
    PageIn, PageSize, PageTableFlags, PhysFrame, Size1GiB, Size2MiB, Size4KiB,
};
use x86_64::{FrameSegment, LevelCount, PhysAddr, VirtAddrIn};
use x86_64_live::PageMap;
use x86_64_page::range::BlockRangeInclusive;

/// A hierarchy of page tables in an array of tables.
#[derive(Drop)]
#[repr(C)]
pub struct Hierarchy<'a> {
    /// Without segments the number of the frame that table 0 is: table i is that of the frame of number `first` + i.
    pub first: u64,
    /// The physical address of the root's frame.
    pub root: u64,
    /// The number of levels of tables: 4 or 5.
    pub levels: u64,
    /// Which frames have which tables, for a memory with holes. None: see `first`.
    pub segments: &'a [FrameSegment],
}

/// A page.
#[derive(Drop)]
#[repr(C)]
pub struct Page {
    /// The first address, canonical and a multiple of the size.
    pub start: u64,
    /// The size in bytes: 4KiB, 2MiB or 1GiB.
    pub size: u64,
}

/// A page to be mapped, and how.
#[derive(Drop)]
#[repr(C)]
pub struct MapRequest {
    /// The page.
    pub page: Page,
    /// The physical address of the frame, of the page's size.
    pub frame: u64,
    /// The flags of the page's entry.
    pub flags: u64,
    /// The flags that the entries above it get.
    pub parent_flags: u64,
}

/// A page of one of the three sizes.
#[derive(Clone, Copy)]
pub enum AnyPage<L: LevelCount> {
    Of4KiB(PageIn<Size4KiB, L>),
    Of2MiB(PageIn<Size2MiB, L>),
    Of1GiB(PageIn<Size1GiB, L>),
}

/// Where a hierarchy starts, and where frames lie.
#[derive(Clone, Copy)]
pub struct Located<P> {
    pub root: PhysFrame<Size4KiB>,
    pub mapping: P,
}

/// Locates a hierarchy with this root in an array of so many tables, if the root is one of them.
pub fn locate<P: PageTableFrameMapping + Copy>(
    root: u64,
    mapping: P,
    table_count: usize,
) -> Option<Located<P>>
    ensures bad { IfNone result (given.wrong_root (P.places mapping) table_count root
        ≡ Some status.bad_root) }
    ensures good { IfSome result (λ _. given.wrong_root (P.places mapping) table_count root ≡ None) }
    ensures root { IfSome result (λ located. located.root ≡ root) }
    ensures mapping { IfSome result (λ located. located.mapping ≡ mapping) }
{
    let root = frame_at::<Size4KiB>(root).ok()?;
    if !mapping.covers(root) {
        return None;
    }
    let place = mapping.frame_to_pointer(root);
    if place.number() < table_count as u64 {
        Some(Located { root, mapping })
    } else {
        None
    }
}

/// Returns the frame that starts at an address, or the status that says that none does.
pub fn frame_at<S: PageSize>(start: u64) -> Result<PhysFrame<S>, u32>
    ensures frame { IfOk result (λ frame. frame ≡ start) }
    ensures there { IfOk result (λ _. given.starts_frame S.SIZE start ≡ true) }
    ensures none { IfErr result (λ status. given.starts_frame S.SIZE start ≡ false) }
    ensures good { IfOk result (λ _. given.wrong_frame S.SIZE start ≡ None) }
    ensures bad { IfErr result (λ status. given.wrong_frame S.SIZE start ≡ Some status) }
{
    let address = match PhysAddr::try_new(start) {
        Ok(address) => address,
        Err(_) => return Err(status::BAD_FRAME),
    };
    match PhysFrame::from_start_address(address) {
        Ok(frame) => Ok(frame),
        Err(_) => Err(status::BAD_FRAME),
    }
}

/// Returns the address with a raw value, if it is canonical with `L` levels of tables.
pub fn address_of<L: LevelCount>(address: u64) -> Result<VirtAddrIn<L>, u32>
    ensures position { IfOk result (λ canonical. canonical ≡ given.position_of L.LEVELS address) }
    ensures good { IfOk result (λ _. given.wrong_address L.LEVELS address ≡ None) }
    ensures bad { IfErr result (λ status. given.wrong_address L.LEVELS address ≡ Some status) }
{
    match VirtAddrIn::checked_new(address) {
        Some(canonical) => Ok(canonical),
        None => Err(status::BAD_ADDRESS),
    }
}

/// Returns a page, or the status that says that it is none with `L` levels of tables.
pub fn page_of<L: LevelCount>(page: &Page) -> Result<AnyPage<L>, u32>
    ensures page { IfOk result (λ any.
        given.IsPageOf L.LEVELS page.now (given.any_level any) (given.any_position any)) }
    ensures size { IfOk result (λ any. page.now.size ≡ span (given.any_level any)) }
    ensures good { IfOk result (λ _. given.wrong_page L.LEVELS page.now ≡ None) }
    ensures bad { IfErr result (λ status. given.wrong_page L.LEVELS page.now ≡ Some status) }
{
    Ok(match page.size {
        Size4KiB::SIZE => AnyPage::Of4KiB(page_at(page.start)?),
        Size2MiB::SIZE => AnyPage::Of2MiB(page_at(page.start)?),
        Size1GiB::SIZE => AnyPage::Of1GiB(page_at(page.start)?),
        _ => return Err(status::BAD_PAGE),
    })
}

/// Returns the page of a size that starts at an address, or the status that says that none does.
pub fn page_at<S: PageSize, L: LevelCount>(start: u64) -> Result<PageIn<S, L>, u32>
    ensures page { IfOk result (λ page. page ≡ given.position_of L.LEVELS start) }
    ensures good { IfOk result (λ _. given.starts_page L.LEVELS S.SIZE start ≡ true) }
    ensures bad { IfErr result (λ status. given.starts_page L.LEVELS S.SIZE start ≡ false) }
    ensures why { IfErr result (λ why. why ≡ status.bad_page) }
{
    let Some(address) = VirtAddrIn::checked_new(start) else {
        return Err(status::BAD_PAGE);
    };
    match PageIn::from_start_address(address) {
        Ok(page) => Ok(page),
        Err(_) => Err(status::BAD_PAGE),
    }
}

/// Returns the map of a page to the frame of a request, or the status that says that no frame of the page's size starts there.
pub fn page_map<S: PageSize, L: LevelCount>(
    request: &MapRequest,
    page: PageIn<S, L>,
) -> Result<PageMap<S, L>, u32>
    ensures call { IfOk result (λ map. call_for S.LEVEL map ≡ MapToWithTableFlags S.LEVEL page
        request.now.frame request.now.flags request.now.parent_flags) }
    ensures good { IfOk result (λ _. given.wrong_frame S.SIZE request.now.frame ≡ None) }
    ensures bad { IfErr result (λ status. given.wrong_frame S.SIZE request.now.frame ≡ Some status) }
{
    let frame = frame_at(request.frame)?;
    Ok(PageMap {
        page,
        frame,
        flags: PageTableFlags::from_bits_retain(request.flags),
        parent_flags: PageTableFlags::from_bits_retain(request.parent_flags),
    })
}

/// Returns the range of pages from one address to another, or the status that says that there is none.
pub fn range_at<L: LevelCount>(
    first: u64,
    last: u64,
) -> Result<BlockRangeInclusive<PageIn<Size4KiB, L>>, u32>
    ensures first { IfOk result (λ range. range.start ≡ given.position_of L.LEVELS first) }
    ensures last { IfOk result (λ range. range.end ≡ given.position_of L.LEVELS last) }
    ensures good { IfOk result (λ _. given.wrong_ends L.LEVELS first last ≡ None) }
    ensures bad { IfErr result (λ status. given.wrong_ends L.LEVELS first last ≡ Some status) }
{
    let start = page_at(first)?;
    let end = page_at(last)?;
    Ok(BlockRangeInclusive { start, end })
}
