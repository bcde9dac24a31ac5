//! Blocks by place, where a block starts: the block at a place, the one around it, and steps through the blocks of a size.
ghost use Rattle.std.specs.Prelude.{◌≡◌, ◌-◌, ◌*◌, ◌%◌, ◌<◌, ◌↔◌, IsOk, IfOk, option_map};
ghost use Rattle.x86_64_addr.specs.Successor.{forward, backward};
ghost use Rattle.x86_64_page.specs.Steps.{pages_between};

use crate::page::AddressNotAligned;
use crate::range::Block;

/// Returns the block that starts at a place.
///
/// Requires that the place is below the limit.
///
/// # Errors
///
/// `AddressNotAligned` if the place isn't a multiple of the size.
pub(crate) fn starting_at<B: Block>(place: u64) -> Result<B, AddressNotAligned>
    requires { place < B.LIMIT }
    ensures aligned { IsOk result ↔ (place % B.SIZE ≡ 0) }
    ensures value { IfOk result (λ block. B.place block ≡ place) }
{
    if place % B::SIZE == 0 {
        Ok(B::at(place))
    } else {
        Err(AddressNotAligned)
    }
}

/// Returns the block that contains a place: it starts at the place rounded down to the size.
///
/// Requires that the place is below the limit.
#[tactic(auto, using(crate::proofs::Multiples::rounded_down))]
pub(crate) fn containing<B: Block>(place: u64) -> B
    requires { place < B.LIMIT }
    ensures { B.place result ≡ place - place % B.SIZE }
{
    B::at(place - place % B::SIZE)
}

/// Returns the block `count` blocks after `start`.
///
/// Returns `None` if its place wouldn't be below the limit.
pub(crate) fn forward_checked<B: Block>(start: B, count: usize) -> Option<B>
    ensures { option_map B.place result ≡ forward B.LIMIT (B.place start) (count * B.SIZE) }
{
    let place = start.place();
    let bytes = (count as u64).checked_mul(B::SIZE)?;
    if bytes < B::LIMIT - place {
        Some(B::at(place + bytes))
    } else {
        None
    }
}

/// Returns the block `count` blocks before `start`.
///
/// Returns `None` if `count` blocks have more bytes than lie below the start.
pub(crate) fn backward_checked<B: Block>(start: B, count: usize) -> Option<B>
    ensures { option_map B.place result ≡ backward (B.place start) (count * B.SIZE) }
{
    let place = start.place();
    let bytes = (count as u64).checked_mul(B::SIZE)?;
    if bytes <= place {
        Some(B::at(place - bytes))
    } else {
        None
    }
}

/// Returns the number of blocks from `start` to `end`, as equal lower and upper bounds.
///
/// Returns `(0, None)` if `end` is below `start`.
pub(crate) fn steps_between<B: Block>(start: B, end: B) -> (usize, Option<usize>)
    ensures { result ≡ pages_between B.SIZE (B.place start) (B.place end) }
{
    let (start, end) = (start.place(), end.place());
    if start <= end {
        let count = ((end - start) / B::SIZE) as usize;
        (count, Some(count))
    } else {
        (0, None)
    }
}
