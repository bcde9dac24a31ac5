//! The first virtual addresses that lead to frames.
ghost use Rattle.std.specs.Prelude.{◌≡◌, ◌<◌, ◌≤◌, ◌+◌, ◌++◌, ◌∷◌, [], ℕ, List};
ghost use Rattle.std.specs.List.Sorted.{IsNonDecreasingBy};
ghost use Rattle.x86_64_mappings.specs.Wanted.{leads_to as leading};
ghost use Rattle.x86_64_model.specs.Mappings.{Mapping};
ghost use Rattle.x86_64_model.specs.Position.{position_count};
ghost use Rattle.ptdump_check.specs.private.Reaching as reaching;

use x86_64_addr::addr::VirtAddrIn;
use x86_64_addr::level_count::LevelCount;
use x86_64_mappings::MappingIn;
use x86_64_page::frame::PhysFrame;
use x86_64_page::page::Size4KiB;

/// Notes, for each frame to which a mapping leads and which has no address yet, the virtual address that leads to it. The frames
/// ascend.
pub fn note<L: LevelCount>(
    frames: &[PhysFrame<Size4KiB>],
    mapping: &MappingIn<L>,
    firsts: &mut [Option<u64>],
)
    requires { mapping.now.start + mapping.now.size ≤ position_count L.LEVELS }
    ensures { (ms : List Mapping) → IsNonDecreasingBy (λ f. f) frames.now →
        firsts.old ≡ reaching.first_address_of_each L.LEVELS frames.now ms →
        firsts.new ≡ reaching.first_address_of_each L.LEVELS frames.now (ms ++ mapping.now ∷ []) }
{
    let start = mapping.frame.start_address().as_u64();
    let begin = frames.partition_point(|frame| frame.start_address().as_u64() < start);
    let end = frames.len().min(firsts.len());
    for i in begin..end {
        if !leads_to(mapping, frames[i]) {
            return;
        }
        firsts[i] = firsts[i].or(Some(address_leading_to(mapping, frames[i])));
    }
}

/// Returns true if a mapping leads to a frame.
fn leads_to<L: LevelCount>(mapping: &MappingIn<L>, frame: PhysFrame<Size4KiB>) -> bool
    ensures { result ≡ leading frame mapping.now }
{
    let start = mapping.frame.start_address().as_u64();
    let frame = frame.start_address().as_u64();
    start <= frame && frame - start < mapping.size()
}

/// Returns the virtual address in a mapping that leads to a frame, whatever the mapping.
fn address_leading_to<L: LevelCount>(mapping: &MappingIn<L>, frame: PhysFrame<Size4KiB>) -> u64
    ensures { result ≡ reaching.address_leading_to L.LEVELS frame mapping.now }
{
    let start = mapping.frame.start_address().as_u64();
    let offset = frame.start_address().as_u64().saturating_sub(start);
    VirtAddrIn::<L>::new_truncate(mapping.start.position() + offset).as_u64()
}
