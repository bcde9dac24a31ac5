//! The first mappings of frames.
ghost use Rattle.std.specs.Prelude.{◌≡◌, ◌∷◌, [], IfOk, OnOk};
ghost use Rattle.x86_64_model.specs.Mappings.{mappings_of};
ghost use Rattle.ptdump_check.specs.Loaded.{IsLoadedDump, words_loaded};
ghost use Rattle.ptdump_check.specs.Aliasing as aliasing;

use crate::loaded::Loaded;
use std::alloc::{AllocError, Global};
use std::collections::HashMap;
use x86_64_addr::addr::{PhysAddr, VirtAddrIn};
use x86_64_addr::level_count::LevelCount;
use x86_64_mappings::{MappingIn, Selection, Visitor, visit_distinct_mappings};
use x86_64_page::frame::PhysFrame;
use x86_64_tables::page_table::Rights;
use x86_64_tables::phys_memory::{IdentityMapping, PhysMemory};
use x86_64_tables::translation::MappedFrame;

/// The first mappings of each frame, in order of their starts.
#[derive(Drop)]
pub struct FirstMappings<L: LevelCount> {
    /// Those of a frame, by its key.
    firsts: HashMap<u64, Firsts<L>>,
}

/// The first mappings of a frame.
#[derive(Clone, Copy)]
struct Firsts<L: LevelCount> {
    /// The first mapping.
    first: MappingIn<L>,
    /// The first mapping whose rights differ from those of the first one.
    other: Option<MappingIn<L>>,
}

impl<L: LevelCount> Firsts<L> {
    /// Returns the first mappings of a frame after one more.
    fn noted(firsts: Option<Firsts<L>>, mapping: MappingIn<L>) -> Firsts<L>
        ensures { result ≡ aliasing.noted firsts mapping }
    {
        let Some(firsts) = firsts else {
            return Firsts {
                first: mapping,
                other: None,
            };
        };
        let other = if firsts.first.rights == mapping.rights {
            None
        } else {
            Some(mapping)
        };
        Firsts {
            first: firsts.first,
            other: firsts.other.or(other),
        }
    }

    /// Returns the first mapping that doesn't have these rights.
    fn other_than(&self, rights: Rights) -> Option<MappingIn<L>>
        ensures { result ≡ aliasing.other_in rights self.now }
    {
        if rights == self.first.rights {
            self.other
        } else {
            Some(self.first)
        }
    }
}

impl<L: LevelCount> FirstMappings<L> {
    /// Returns the first mappings of each frame in loaded tables.
    ///
    /// # Errors
    ///
    /// `AllocError` if memory allocation fails.
    pub fn of(alloc: Global, loaded: &Loaded<'_, L>) -> Result<FirstMappings<L>, AllocError>
        requires { IsLoadedDump loaded.now }
        ensures { IfOk result (λ all. aliasing.AreOfAll L.LEVELS all
            (mappings_of L.LEVELS (words_loaded loaded.now) loaded.now.root)) }
    {
        let mut firsts = FirstMappings {
            firsts: HashMap::new(alloc),
        };
        visit_distinct_mappings::<L, PhysMemory, IdentityMapping, FirstMappings<L>>(
            alloc,
            loaded.summaries,
            loaded.root,
            Selection::ALL,
            &mut firsts,
        )?;
        Ok(firsts)
    }

    /// Returns the first alias of a mapping of a frame, given its rights and where it starts: the first mapping with other rights
    /// whose frame contains this one, and which is larger or starts before it.
    pub fn alias(
        &self,
        frame: MappedFrame,
        rights: Rights,
        start: VirtAddrIn<L>,
    ) -> Option<MappingIn<L>>
        ensures alias { result ≡ aliasing.alias_by self.now frame rights start }
        ensures aligned { aliasing.IsAligned frame }
    {
        let address = frame.start_address();
        let own = before(self.other(frame, rights), start);
        match frame {
            MappedFrame::Size4KiB(_) => {
                let middle = earlier(own, self.other(in_2mib(address), rights));
                earlier(middle, self.other(in_1gib(address), rights))
            }
            MappedFrame::Size2MiB(_) => earlier(own, self.other(in_1gib(address), rights)),
            MappedFrame::Size1GiB(_) => own,
        }
    }

    /// Returns the first mapping of a frame that doesn't have these rights.
    fn other(&self, frame: MappedFrame, rights: Rights) -> Option<MappingIn<L>>
        ensures other { result ≡ aliasing.other_at self.now frame rights }
        ensures aligned { aliasing.IsAligned frame }
    {
        match self.firsts.get(&key(frame)) {
            Some(firsts) => firsts.other_than(rights),
            None => None,
        }
    }

    /// Notes a mapping.
    fn note(&mut self, mapping: &MappingIn<L>) -> Result<(), AllocError>
        ensures { OnOk result (aliasing.TakesFirsts self.old self.new (mapping.now ∷ [])) }
    {
        let number = key(mapping.frame);
        let firsts = self.firsts.get(&number).copied();
        self.firsts.insert(number, Firsts::noted(firsts, *mapping))?;
        Ok(())
    }
}

impl<L: LevelCount> Visitor<MappingIn<L>> for FirstMappings<L> {
    type Error = AllocError;

    ghost use Rattle.ptdump_check.specs.Aliasing.{TakesFirsts};
    ghost use Rattle.ptdump_check.specs.private.AliasingLaws.{taken_nothing, taken_both};

    ghost Visits = { λ old new mappings. TakesFirsts old new mappings };

    /// Notes a mapping.
    fn visit(&mut self, mapping: MappingIn<L>) -> Result<(), AllocError> {
        self.note(&mapping)
    }

    ghost none = { taken_nothing };

    ghost both = { taken_both };
}

/// Returns a number that is different for each frame.
fn key(frame: MappedFrame) -> u64
    ensures key { result ≡ aliasing.frame_key frame }
    ensures aligned { aliasing.IsAligned frame }
{
    match frame {
        MappedFrame::Size4KiB(frame) => frame.start_address().as_u64() + 1,
        MappedFrame::Size2MiB(frame) => frame.start_address().as_u64() + 2,
        MappedFrame::Size1GiB(frame) => frame.start_address().as_u64() + 3,
    }
}

/// Returns the 2MiB frame that contains an address.
fn in_2mib(address: PhysAddr) -> MappedFrame
    ensures { result ≡ aliasing.in_2mib address }
{
    MappedFrame::Size2MiB(PhysFrame::containing_address(address))
}

/// Returns the 1GiB frame that contains an address.
fn in_1gib(address: PhysAddr) -> MappedFrame
    ensures { result ≡ aliasing.in_1gib address }
{
    MappedFrame::Size1GiB(PhysFrame::containing_address(address))
}

/// Returns a mapping if it starts before an address.
fn before<L: LevelCount>(
    mapping: Option<MappingIn<L>>,
    address: VirtAddrIn<L>,
) -> Option<MappingIn<L>>
    ensures { result ≡ aliasing.before address mapping }
{
    match mapping {
        Some(mapping) if mapping.start.position() < address.position() => Some(mapping),
        _ => None,
    }
}

/// Returns that of two mappings which starts first.
fn earlier<L: LevelCount>(
    mapping: Option<MappingIn<L>>,
    other: Option<MappingIn<L>>,
) -> Option<MappingIn<L>>
    ensures { result ≡ aliasing.earlier mapping other }
{
    match (mapping, other) {
        (Some(mapping), Some(other)) => {
            if other.start.position() < mapping.start.position() {
                Some(other)
            } else {
                Some(mapping)
            }
        }
        (Some(mapping), None) => Some(mapping),
        (None, other) => other,
    }
}
